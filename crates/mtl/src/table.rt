// A rule table: a closed draft, which takes no further line.
ghost use Rattle.std.specs.Prelude.{◌≡◌, ◌≤◌, length};
ghost use Rattle.mtl.specs.Lines.{WellFormed};

use crate::line::Line;
use arrayvec::ArrayVec;

// At most 32 lines; operands are earlier lines, marks are below 32, no window ends before it begins, and every until has an end.
#[derive(Drop)]
pub struct Table {
    pub(crate) lines: ArrayVec<Line, 32>,
    ghost few: { length lines.items ≤ 32 },
    ghost formed: { WellFormed lines.items },
}

impl Table {
    ghost use Rattle.mtl.specs.Lines.{line_in};
    ghost use Rattle.mtl.specs.Tables.{lines_of};

    // How many lines it has.
    pub fn len(&self) -> usize
        ensures { result ≡ length (lines_of self.now) }
    {
        self.lines.len()
    }

    // The lines, in their order.
    pub fn lines(&self) -> &[Line]
        ensures { result.now ≡ lines_of self.now }
    {
        self.lines.as_slice()
    }

    // The line of a number.
    pub fn line(&self, number: usize) -> Option<Line>
        ensures { result ≡ line_in (lines_of self.now) number }
    {
        self.lines().get(number).copied()
    }
}
