// The least way to rule a line at a row, by the cells of earlier lines.
ghost use Rattle.std.specs.Prelude.{◌≡◌, ◌<◌, length};
ghost use Rattle.mtl.specs.Forms.{forms};
ghost use Rattle.mtl.specs.declared.ruling.Ruling.TheVariants.{Held as held, Broken as broken};
ghost use Rattle.writer.specs.Choice.{cell_in, of_forms, cells_of};

use crate::children::{by_both, by_either, by_one};
use crate::known::Known;
use crate::neighbours::{next_broken, next_held, previous_broken, previous_held};
use crate::offer::Offer;
use crate::rows::{Rows, Spot};
use crate::since::{since_broken, since_held};
use crate::sums::{ONE, offered};
use crate::until::{until_broken, until_held};
use mtl::line::Line;
use mtl::ruling::Ruling;

// Held and broken have rules of their own at every kind, so each has its match.
fn held_at(known: Known<'_>, line: Line) -> Option<Offer>
    ensures { cells_of result ≡ of_forms (cell_in known.entry.sizes.now) held (forms known.entry.spot.rows.all.now known.entry.spot.row line) }
{
    let spot = known.spot;
    match line {
        Line::Mark(mark) => offered(spot.rows.all[spot.row].stands(mark as u32), ONE, 1, 0),
        Line::Not(left) => by_one(known, true, 3, left, spot.row, Ruling::Broken),
        Line::And(left, right) => by_both(known, 5, left, right, Ruling::Held),
        Line::Or(left, right) => by_either(known, 8, left, right, Ruling::Held),
        Line::Previous(window, left) => previous_held(known, window, left),
        Line::Next(window, left) => next_held(known, window, left),
        Line::Since(window, left, right) => since_held(known, window, left, right),
        Line::Until(window, left, right) => until_held(known, window, left, right),
    }
}

fn broken_at(known: Known<'_>, line: Line) -> Option<Offer>
    ensures { cells_of result ≡ of_forms (cell_in known.entry.sizes.now) broken (forms known.entry.spot.rows.all.now known.entry.spot.row line) }
{
    let spot = known.spot;
    match line {
        Line::Mark(mark) => offered(!spot.rows.all[spot.row].stands(mark as u32), ONE, 2, 0),
        Line::Not(left) => by_one(known, true, 4, left, spot.row, Ruling::Held),
        Line::And(left, right) => by_either(known, 6, left, right, Ruling::Broken),
        Line::Or(left, right) => by_both(known, 10, left, right, Ruling::Broken),
        Line::Previous(window, left) => previous_broken(known, window, left),
        Line::Next(window, left) => next_broken(known, window, left),
        Line::Since(window, left, right) => since_broken(known, window, left, right),
        Line::Until(window, left, right) => until_broken(known, window, left, right),
    }
}

// The least way to rule a line at a row. Inlined: as a call it would be given each field of the line anew at every row.
#[inline(always)]
pub(crate) fn best<'a>(
    line: Line,
    rows: Rows<'a>,
    sizes: &'a [u16],
    row: usize,
    ruling: Ruling,
) -> Option<Offer>
    requires { (row < length rows.all.now) × (length sizes.now ≡ 8192) }
    ensures { cells_of result ≡ of_forms (cell_in sizes.now) ruling (forms rows.entry.all.now row line) }
{
    let spot = Spot { rows, row };
    let known = Known { spot, sizes };
    match ruling {
        Ruling::Held => held_at(known, line),
        Ruling::Broken => broken_at(known, line),
    }
}
