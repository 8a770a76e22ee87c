// What is known where a line is ruled at a row.
ghost use Rattle.std.specs.Prelude.{◌≡◌, ℕ, length};
ghost use Rattle.mtl.specs.Claims.{claim};
ghost use Rattle.mtl.specs.declared.ruling.Ruling.{Ruling as either};
ghost use Rattle.writer.specs.Choice.{cell_in, sized};

use crate::cells::size;
use crate::column::{Column, NO_CELLS};
use crate::rows::Spot;
use mtl::ruling::Ruling;
use std::num::NonZeroU16;

// The row, among the rows of the log, and the table of sizes, in which earlier lines are filled. It ends with the last line that a
// table can have, so that a line's cells are all there or none is.
#[derive(Clone, Copy)]
pub struct Known<'a> {
    pub spot: Spot<'a>,
    pub sizes: &'a [u16],
    ghost whole: { length sizes.now ≡ 8192 },
}

impl<'a> Known<'a> {
    // The size of a claim. Line, row and ruling are apart: rows are indices of slices here, and a Claim has the 16 bits of a node,
    // to which each call would narrow them.
    pub(crate) fn size(self, line: u8, row: usize, ruling: Ruling) -> Option<NonZeroU16>
        ensures { sized result ≡ cell_in self.entry.sizes.now (claim line row ruling) }
    {
        size(self.sizes, line, row, ruling)
    }

    // The cells of a line.
    pub(crate) fn line(self, line: u8) -> Column<'a>
        ensures { (row : ℕ) → (ruling : either) → cell_in result.cells.now (claim 0 row ruling) ≡ cell_in self.entry.sizes.now (claim line row ruling) }
    {
        if line >= 32 {
            return Column { cells: &NO_CELLS };
        }
        let at = 256 * line as usize;
        Column {
            cells: &self.sizes[at..at + 256],
        }
    }
}
