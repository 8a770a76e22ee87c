// The kinds that look at the row before or after.
ghost use Rattle.std.specs.Prelude.{◌≡◌, ◌+◌, ◌-◌, ◌*◌, ◌<◌, ◌≤◌, true, nat_lt, Some, None, length};
ghost use Rattle.mtl.specs.Cells.{add_cell};
ghost use Rattle.mtl.specs.Claims.{claim};
ghost use Rattle.mtl.specs.Forms.{forms};
ghost use Rattle.mtl.specs.Windows.{inside, past};
ghost use Rattle.mtl.specs.declared.line.Line.TheVariants.{Previous as previous, Next as next};
ghost use Rattle.mtl.specs.declared.ruling.Ruling.TheVariants.{Held as held, Broken as broken};
ghost use Rattle.writer.specs.Choice.{cell_in, of_forms, cells_of, merge, offer};
ghost use Rattle.writer.specs.Passes.{ago};
ghost use Rattle.writer.specs.declared.neighbours.Beside.{Beside as beside_of};

use crate::children::by_one;
use crate::known::Known;
use crate::offer::Offer;
use crate::rows::Spot;
use crate::sums::{ONE, better, offered};
use mtl::line::Window;
use mtl::row::Time;
use mtl::ruling::Ruling;

// The row before or after a spot, and how long before or after it came.
#[derive(Clone, Copy)]
pub struct Beside {
    pub row: usize,
    pub apart: Time,
}

// The row before, if there is one.
fn row_before(spot: Spot<'_>) -> Option<Beside>
    ensures none { result ≡ None → spot.entry.row ≡ 0 }
    ensures some { (b : beside_of) → result ≡ Some b → (0 < spot.entry.row) × (b.row ≡ spot.entry.row - 1) × (b.apart ≡ ago spot.entry.rows.all.now spot.entry.row b.row) }
{
    let row = spot.row.checked_sub(1)?;
    let apart = spot.before(row);
    Some(Beside { row, apart })
}

// The row after, if there is one.
fn row_after(spot: Spot<'_>) -> Option<Beside>
    ensures none { result ≡ None → length spot.entry.rows.all.now ≤ spot.entry.row + 1 }
    ensures some { (b : beside_of) → result ≡ Some b → (spot.entry.row + 1 < length spot.entry.rows.all.now) × (b.row ≡ spot.entry.row + 1) × (b.apart ≡ ago spot.entry.rows.all.now b.row spot.entry.row) }
{
    let row = spot.row + 1;
    if row == spot.rows.all.len() {
        return None;
    }
    let apart = spot.after(row);
    Some(Beside { row, apart })
}

// The line is held at the neighbour, which is inside the window.
fn held_by(known: Known<'_>, window: Window, rule: u8, left: u8, beside: Beside) -> Option<Offer>
    ensures { cells_of result ≡ offer (inside window beside.apart) (add_cell 1 (cell_in known.entry.sizes.now (claim left beside.row held))) (256 * rule + 0) }
{
    let met = window.inside(beside.apart);
    by_one(known, met, rule, left, beside.row, Ruling::Held)
}

// The line is broken at the neighbour, by a rule; or the neighbour is nearer than the window, by the next, or farther, by the one after.
fn broken_by(known: Known<'_>, window: Window, rule: u8, left: u8, beside: Beside) -> Option<Offer>
    requires { rule < 25 }
    ensures { cells_of result ≡ merge (offer true (add_cell 1 (cell_in known.entry.sizes.now (claim left beside.row broken))) (256 * rule + 0)) (merge (offer (nat_lt beside.apart window.from) 1 (256 * (rule + 1) + 0)) (offer (past window.to beside.apart) 1 (256 * (rule + 2) + 0))) }
{
    let Beside { row, apart } = beside;
    let outside = better(
        offered(apart < window.from, ONE, rule + 1, 0),
        offered(window.beyond(apart), ONE, rule + 2, 0),
    );
    better(
        by_one(known, true, rule, left, row, Ruling::Broken),
        outside,
    )
}

pub(crate) fn previous_held(known: Known<'_>, window: Window, left: u8) -> Option<Offer>
    ensures { cells_of result ≡ of_forms (cell_in known.entry.sizes.now) held (forms known.entry.spot.rows.all.now known.entry.spot.row (previous window left)) }
{
    held_by(known, window, 11, left, row_before(known.spot)?)
}

pub(crate) fn previous_broken(known: Known<'_>, window: Window, left: u8) -> Option<Offer>
    ensures { cells_of result ≡ of_forms (cell_in known.entry.sizes.now) broken (forms known.entry.spot.rows.all.now known.entry.spot.row (previous window left)) }
{
    match row_before(known.spot) {
        Some(beside) => broken_by(known, window, 12, left, beside),
        None => offered(true, ONE, 15, 0),
    }
}

pub(crate) fn next_held(known: Known<'_>, window: Window, left: u8) -> Option<Offer>
    ensures { cells_of result ≡ of_forms (cell_in known.entry.sizes.now) held (forms known.entry.spot.rows.all.now known.entry.spot.row (next window left)) }
{
    held_by(known, window, 16, left, row_after(known.spot)?)
}

pub(crate) fn next_broken(known: Known<'_>, window: Window, left: u8) -> Option<Offer>
    ensures { cells_of result ≡ of_forms (cell_in known.entry.sizes.now) broken (forms known.entry.spot.rows.all.now known.entry.spot.row (next window left)) }
{
    match row_after(known.spot) {
        Some(beside) => broken_by(known, window, 17, left, beside),
        None => by_one(known, true, 17, left, known.spot.row + 1, Ruling::Broken),
    }
}
