// A line's parts, and what a rule shows of its children's lines and rulings by them.
ghost use Rattle.std.specs.Prelude.{◌≡◌};
ghost use Rattle.checker.specs.Parts.{parts_in, parts_of};
ghost use Rattle.checker.specs.Children.{is_of, all_of, first_then_of, lines_shown};

use mtl::line::{Kind, Line, Window};
use mtl::ruling::{Claim, Ruling};

// A line with its parts side by side: left is a mark's number or an operand.
// What the kind does not use is 0: no rule of the kind reads it, so an Option would only be unwrapped.
#[derive(Clone, Copy)]
pub(crate) struct Parts {
    pub(crate) kind: Kind,
    pub(crate) window: Window,
    pub(crate) left: u8,
    pub(crate) right: u8,
}

impl From<Line> for Parts {
    ghost from_gives = { λ line parts. parts ≡ parts_of line };

    fn from(line: Line) -> Parts {
        let any = Window::at_least(0);
        match line {
            Line::Mark(mark) => Parts::new(Kind::Mark, any, mark, 0),
            Line::Not(left) => Parts::new(Kind::Not, any, left, 0),
            Line::And(left, right) => Parts::new(Kind::And, any, left, right),
            Line::Or(left, right) => Parts::new(Kind::Or, any, left, right),
            Line::Previous(window, left) => Parts::new(Kind::Previous, window, left, 0),
            Line::Next(window, left) => Parts::new(Kind::Next, window, left, 0),
            Line::Since(window, left, right) => Parts::new(Kind::Since, window, left, right),
            Line::Until(window, left, right) => Parts::new(Kind::Until, window, left, right),
        }
    }
}

fn is_of(child: Claim, line: u8, ruling: Ruling) -> bool
    ensures { result ≡ is_of line ruling child }
{
    child.line == line && child.ruling == ruling
}

fn all_of(children: &[Claim], line: u8, ruling: Ruling) -> bool
    ensures { result ≡ all_of line ruling children.now }
{
    children.iter().all(|child| is_of(*child, line, ruling))
}

// The first is of one line, the others of another, all ruled alike.
fn first_then(children: &[Claim], first: u8, others: u8, ruling: Ruling) -> bool
    ensures { result ≡ first_then_of first others ruling children.now }
{
    let [child, rest @ ..] = children else {
        return false;
    };
    is_of(*child, first, ruling) && all_of(rest, others, ruling)
}

impl Parts {
    fn new(kind: Kind, window: Window, left: u8, right: u8) -> Parts
        ensures { result ≡ parts_in kind window left right }
    {
        Parts {
            kind,
            window,
            left,
            right,
        }
    }

    // Whether as many children as the rule takes have the lines and rulings that it shows.
    // Rules go by their numbers, a wanted form (docs/DECISIONS.md).
    pub(crate) fn lines_fit(self, rule: u8, children: &[Claim]) -> bool
        ensures { result ≡ lines_shown rule self.left self.right children.now }
    {
        let Parts { left, right, .. } = self;
        match rule {
            3 | 6 | 12 | 17 => all_of(children, left, Ruling::Broken),
            4 | 8 | 11 | 16 => all_of(children, left, Ruling::Held),
            7 | 22 | 26 => all_of(children, right, Ruling::Broken),
            9 => all_of(children, right, Ruling::Held),
            5 => first_then(children, left, right, Ruling::Held),
            10 | 21 | 25 => first_then(children, left, right, Ruling::Broken),
            20 | 24 => first_then(children, right, left, Ruling::Held),
            _ => true,
        }
    }
}
