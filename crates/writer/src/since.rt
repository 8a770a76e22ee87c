// Since, in one pass over the rows of its window from the last to the first. The pass stops where a child has no certificate.
// Until goes through the rows the other way, other of equals win there, and rules 22 and 23 have no likeness in it: one pass over
// both would be switches at each step. What the passes take beside what is known are the parts of their line, which no fact joins.
ghost use Rattle.std.specs.Prelude.{◌≡◌};
ghost use Rattle.mtl.specs.Forms.{forms};
ghost use Rattle.mtl.specs.declared.line.Line.TheVariants.{Since as since};
ghost use Rattle.mtl.specs.declared.ruling.Ruling.TheVariants.{Held as held, Broken as broken};
ghost use Rattle.writer.specs.Choice.{cell_in, of_forms, cells_of};

use crate::known::Known;
use crate::offer::Offer;
use crate::sums::{ONE, better, offered, plus, plus_if};
use mtl::line::Window;
use mtl::ruling::Ruling;

pub(crate) fn since_held(known: Known<'_>, window: Window, left: u8, right: u8) -> Option<Offer>
    ensures { cells_of result ≡ of_forms (cell_in known.entry.sizes.now) held (forms known.entry.spot.rows.all.now known.entry.spot.row (since window left right)) }
{
    let spot = known.spot;
    let lefts = known.line(left);
    let rights = known.line(right);
    let mut best = None;
    let mut sum = ONE;
    let start = spot.first_within(window);
    for j in (start..spot.row + 1).rev() {
        if sum.is_none() {
            break;
        }
        let met = window.from <= spot.before(j);
        best = better(
            offered(met, plus(sum, rights.size(j, Ruling::Held)), 20, j),
            best,
        );
        sum = plus(sum, lefts.size(j, Ruling::Held));
    }
    best
}

pub(crate) fn since_broken(known: Known<'_>, window: Window, left: u8, right: u8) -> Option<Offer>
    ensures { cells_of result ≡ of_forms (cell_in known.entry.sizes.now) broken (forms known.entry.spot.rows.all.now known.entry.spot.row (since window left right)) }
{
    let spot = known.spot;
    let lefts = known.line(left);
    let rights = known.line(right);
    let longest = spot.before(0);
    if longest < window.from {
        return offered(true, ONE, 23, 0);
    }
    let mut best = None;
    let mut late = ONE;
    let start = spot.first_within(window);
    for j in (start + 1..spot.row + 1).rev() {
        let far = window.from <= spot.before(j);
        late = plus_if(far, late, rights.size(j, Ruling::Broken));
        if late.is_none() {
            return best;
        }
        best = better(
            offered(true, plus(late, lefts.size(j, Ruling::Broken)), 21, j),
            best,
        );
    }
    let far = window.from <= spot.before(start);
    let whole = plus_if(far, late, rights.size(start, Ruling::Broken));
    better(best, offered(true, whole, 22, 0))
}
