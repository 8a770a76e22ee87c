// Filling both work tables, line by line from the lowest, by numbers: a line reads the cells of earlier ones in the table of sizes, so
// no iterator holds that table while it is filled, and the plan is filled beside it.
ghost use Rattle.std.specs.Prelude.{◌≡◌, ℕ, ◌+◌, ◌-◌, ◌<◌, ◌≤◌, ◌++◌, length, take, drop, slice_set};
ghost use Rattle.std.proofs.Common.{replicate};
ghost use Rattle.mtl.specs.Tables.{lines_of};
ghost use Rattle.writer.specs.Tables.{size_at, code_at, filled};

use crate::choose::best;
use crate::rows::Rows;
use crate::sums::entries;
use mtl::ruling::Ruling;
use mtl::table::Table;

// Puts the two cells of a line at a row.
fn put(cells: &mut [u16], at: usize, held: u16, broken: u16)
    requires { at + 1 < length cells.old }
    ensures { cells.new ≡ slice_set (slice_set cells.old at held) (at + 1) broken }
{
    cells[at] = held;
    cells[at + 1] = broken;
}

// Puts 0 into the cells from one up to, and without, another: no line or no row is there, and so no way.
fn blank(cells: &mut [u16], from: usize, to: usize)
    requires { (from ≤ to) × (to ≤ length cells.old) }
    ensures { cells.new ≡ take from cells.old ++ (replicate (to - from) 0 ++ drop to cells.old) }
{
    cells[from..to].fill(0);
}

// Fills the first 8,192 cells of both tables: least sizes, and the rule and row that give them.
// What the table and the log do not have is blanked as a whole, so that a short table or log costs no more than its own cells.
pub(crate) fn fill(table: &Table, rows: Rows<'_>, sizes: &mut [u16], plan: &mut [u16])
    requires { (8192 ≤ length sizes.old) × (8192 ≤ length plan.old) }
    ensures cells { sizes.new ≡ filled (size_at (lines_of table.now) rows.entry.all.now) 8192 sizes.old }
    ensures codes { plan.new ≡ filled (code_at (lines_of table.now) rows.entry.all.now) 8192 plan.old }
{
    let lines = table.lines();
    for (number, line) in lines.iter().enumerate() {
        for row in 0..rows.all.len() {
            let front = &sizes[..8192];
            let held = entries(best(*line, rows, front, row, Ruling::Held));
            let broken = entries(best(*line, rows, front, row, Ruling::Broken));
            let at = 256 * number + 2 * row;
            put(sizes, at, held.0, broken.0);
            put(plan, at, held.1, broken.1);
        }
        let end = 256 * number + 2 * rows.all.len();
        let next = 256 * number + 256;
        blank(sizes, end, next);
        blank(plan, end, next);
    }
    let end = 256 * table.len();
    blank(sizes, end, 8192);
    blank(plan, end, 8192);
}
