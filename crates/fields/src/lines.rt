// The lines of a text.
ghost use Rattle.std.specs.Iterator.{YieldsFirstRef, item_count};
ghost use Rattle.std.specs.Prelude.{◌≡◌, ◌==◌, position};
ghost use Rattle.fields.specs.Cuts.{lines_of};
ghost use Rattle.fields.specs.Lines.{CutsFirst};

use crate::first::FirstLine;

// Where the first line of a text ends.
fn line_end(text: &[u8]) -> Option<usize>
    ensures { result ≡ position (λ b. b == 10) text.now }
{
    text.iter().position(|b| *b == b'\n')
}

// The first line of a text, and the rest; none where no line ends.
#[tactic(auto, using(crate::proofs::Cut::no_end, crate::proofs::Cut::cut_line, crate::proofs::Cut::cut_rest))]
pub fn first_line<'a>(text: &'a [u8]) -> Option<FirstLine<'a>>
    ensures { CutsFirst result text.now }
{
    let end = line_end(text)?;
    Some(FirstLine {
        line: &text[..end],
        rest: &text[end + 1..],
    })
}

// The lines of a text that end, one after another, each without its end.
#[derive(Drop)]
pub struct Lines<'a> {
    pub rest: &'a [u8],
}

impl<'a> Iterator for Lines<'a> {
    type Item = &'a [u8];

    ghost next_gives = { YieldsFirstRef (λ s. lines_of s.rest.now) };

    ghost remaining = { item_count (λ s. lines_of s.rest.now) };

    fn next(&mut self) -> Option<&'a [u8]> {
        let first = first_line(self.rest)?;
        self.rest = first.rest;
        Some(first.line)
    }
}
