// The cells of one line, for the passes: they read a line at row after row, and no read asks again whether the table has its cell.
ghost use Rattle.std.specs.Prelude.{◌≡◌, ◌<◌, length};
ghost use Rattle.mtl.specs.Claims.{claim};
ghost use Rattle.writer.specs.Choice.{cell_in, sized};

use mtl::ruling::Ruling;
use std::num::NonZeroU16;

// As a table of its own it has one line, line 0.
#[derive(Clone, Copy)]
pub struct Column<'a> {
    pub cells: &'a [u16],
    ghost whole: { length cells.now ≡ 256 },
}

// The cells of a line that no table has.
pub(crate) const NO_CELLS: [u16; 256] = [0; 256];

impl<'a> Column<'a> {
    // The size at a row, which has 0 for none.
    pub(crate) fn size(self, row: usize, ruling: Ruling) -> Option<NonZeroU16>
        requires { row < 128 }
        ensures { sized result ≡ cell_in self.entry.cells.now (claim 0 row ruling) }
    {
        let at = match ruling {
            Ruling::Held => 2 * row,
            Ruling::Broken => 2 * row + 1,
        };
        NonZeroU16::new(self.cells[at])
    }
}
