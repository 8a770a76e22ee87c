// Reading a table of sizes or of ways: 256 cells a line, two a row, held before broken.
// The tables are lent and stay the caller's, so a cell is a number, with 0 for none; a size that is read is an Option.
ghost use Rattle.std.specs.Prelude.{◌≡◌};
ghost use Rattle.mtl.specs.Claims.{claim};
ghost use Rattle.writer.specs.Choice.{cell_in, sized};

use mtl::ruling::Ruling;
use std::num::NonZeroU16;

// The cell of a line at a row, 0 where the table has none.
pub(crate) fn cell(cells: &[u16], line: u8, row: usize, ruling: Ruling) -> u16
    ensures { result ≡ cell_in cells.now (claim line row ruling) }
{
    if row >= 128 {
        return 0;
    }
    let at = match ruling {
        Ruling::Held => 2 * row,
        Ruling::Broken => 2 * row + 1,
    };
    cells.get(256 * line as usize + at).copied().unwrap_or(0)
}

// The size in that cell, which has 0 for none.
pub(crate) fn size(cells: &[u16], line: u8, row: usize, ruling: Ruling) -> Option<NonZeroU16>
    ensures { sized result ≡ cell_in cells.now (claim line row ruling) }
{
    NonZeroU16::new(cell(cells, line, row, ruling))
}
