// The lines of a rule table, and why one is refused.
ghost use Rattle.std.specs.Prelude.{◌≡◌};

use crate::row::Time;

// The differences between two times that count as inside; without `to` there is no upper end.
#[derive(Clone, Copy, Debug, PartialEq, Eq)]
pub struct Window {
    pub from: u32,
    pub to: Option<u32>,
}

impl Window {
    ghost use Rattle.mtl.specs.Windows.{inside as is_inside};
    ghost use Rattle.mtl.specs.Windows.{up_to, past, wide};

    // The window from a difference on, without an end.
    pub fn at_least(from: u32) -> Window
        ensures { result ≡ wide from }
    {
        Window { from, to: None }
    }

    // Whether a difference is not past the window's end.
    pub fn up_to(self, difference: Time) -> bool
        ensures { result ≡ up_to self.to difference }
    {
        self.to.is_none_or(|to| difference <= to)
    }

    // Whether a difference is past the window's end.
    pub fn beyond(self, difference: Time) -> bool
        ensures { result ≡ past self.to difference }
    {
        self.to.is_some_and(|to| to < difference)
    }

    // Whether a difference is inside the window.
    pub fn inside(self, difference: Time) -> bool
        ensures { result ≡ is_inside self difference }
    {
        self.from <= difference && self.up_to(difference)
    }
}

#[derive(Clone, Copy, Debug, PartialEq, Eq)]
pub enum Kind {
    Mark,
    Not,
    And,
    Or,
    Previous,
    Next,
    Since,
    Until,
}

// A rule line: a mark's number, or the numbers of earlier lines, left before right.
#[derive(Clone, Copy, Debug, PartialEq, Eq)]
pub enum Line {
    Mark(u8),
    Not(u8),
    And(u8, u8),
    Or(u8, u8),
    Previous(Window, u8),
    Next(Window, u8),
    Since(Window, u8, u8),
    Until(Window, u8, u8),
}

// What stands where no line does.
impl Default for Line {
    ghost use Rattle.mtl.specs.declared.line.Line.TheVariants.{Mark};

    ghost is_default = { λ line. line ≡ Mark 0 };

    fn default() -> Line {
        Line::Mark(0)
    }
}

// What a line is entered with, beside its letter; a kind looks only at the fields that it uses.
#[derive(Clone, Copy, Debug, Default, PartialEq, Eq)]
pub struct Fields {
    pub from: u32,
    pub to: Option<u32>,
    pub left: u32,
    pub right: u32,
}

// Why a line is refused.
#[derive(Clone, Copy, Debug, PartialEq, Eq)]
pub enum LineFault {
    // There are 32 lines already.
    TableFull,
    // No kind has this letter.
    UnknownKind,
    // A mark's number is above 31.
    NoSuchMark,
    // An operand is not an earlier line.
    NotEarlier,
    // The window ends before it begins.
    WindowReversed,
    // An until has no end to its window.
    UntilEndless,
}

// The question that is answered no.
impl From<LineFault> for u8 {
    ghost use Rattle.mtl.specs.Entering.{line_number};

    ghost from_gives = { λ fault number. number ≡ line_number fault };

    fn from(fault: LineFault) -> u8 {
        match fault {
            LineFault::TableFull => 1,
            LineFault::UnknownKind => 2,
            LineFault::NoSuchMark => 3,
            LineFault::NotEarlier => 4,
            LineFault::WindowReversed => 5,
            LineFault::UntilEndless => 6,
        }
    }
}
