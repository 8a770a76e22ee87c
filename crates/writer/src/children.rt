// The rules whose children are given lines at a given row.
ghost use Rattle.std.specs.Prelude.{◌≡◌, ◌+◌, ◌*◌, ◌<◌, true};
ghost use Rattle.mtl.specs.Cells.{add_cell};
ghost use Rattle.mtl.specs.Claims.{claim};
ghost use Rattle.writer.specs.Choice.{cell_in, cells_of, merge, offer};

use crate::known::Known;
use crate::offer::Offer;
use crate::sums::{ONE, better, offered, plus};
use mtl::ruling::Ruling;

// A rule with one child, if its condition is met.
pub(crate) fn by_one(
    known: Known<'_>,
    met: bool,
    rule: u8,
    line: u8,
    row: usize,
    ruling: Ruling,
) -> Option<Offer>
    ensures { cells_of result ≡ offer met (add_cell 1 (cell_in known.entry.sizes.now (claim line row ruling))) (256 * rule + 0) }
{
    offered(met, plus(ONE, known.size(line, row, ruling)), rule, 0)
}

// A rule with two children.
pub(crate) fn by_both(
    known: Known<'_>,
    rule: u8,
    left: u8,
    right: u8,
    ruling: Ruling,
) -> Option<Offer>
    ensures { cells_of result ≡ offer true (add_cell (add_cell 1 (cell_in known.entry.sizes.now (claim left known.entry.spot.row ruling))) (cell_in known.entry.sizes.now (claim right known.entry.spot.row ruling))) (256 * rule + 0) }
{
    let row = known.spot.row;
    let sum = plus(ONE, known.size(left, row, ruling));
    offered(true, plus(sum, known.size(right, row, ruling)), rule, 0)
}

// A rule with the left line as its child, or the next rule with the right one.
pub(crate) fn by_either(
    known: Known<'_>,
    rule: u8,
    left: u8,
    right: u8,
    ruling: Ruling,
) -> Option<Offer>
    requires { rule < 26 }
    ensures { cells_of result ≡ merge (offer true (add_cell 1 (cell_in known.entry.sizes.now (claim left known.entry.spot.row ruling))) (256 * rule + 0)) (offer true (add_cell 1 (cell_in known.entry.sizes.now (claim right known.entry.spot.row ruling))) (256 * (rule + 1) + 0)) }
{
    let row = known.spot.row;
    better(
        by_one(known, true, rule, left, row, ruling),
        by_one(known, true, rule + 1, right, row, ruling),
    )
}
