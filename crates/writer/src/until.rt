// Until, in one pass over the rows of its window from the first to the last. The pass stops where a child has no certificate.
// Why it is no one pass with since is said there.
ghost use Rattle.std.specs.Prelude.{◌≡◌, ◌-◌, length};
ghost use Rattle.mtl.specs.Forms.{forms};
ghost use Rattle.mtl.specs.Windows.{past};
ghost use Rattle.mtl.specs.declared.line.Line.TheVariants.{Until as until};
ghost use Rattle.mtl.specs.declared.ruling.Ruling.TheVariants.{Held as held, Broken as broken};
ghost use Rattle.writer.specs.Passes.{ago};
ghost use Rattle.writer.specs.Choice.{cell_in, of_forms, cells_of};

use crate::known::Known;
use crate::offer::Offer;
use crate::rows::Spot;
use crate::sums::{ONE, better, offered, plus, plus_if};
use mtl::line::Window;
use mtl::ruling::Ruling;

pub(crate) fn until_held(known: Known<'_>, window: Window, left: u8, right: u8) -> Option<Offer>
    ensures { cells_of result ≡ of_forms (cell_in known.entry.sizes.now) held (forms known.entry.spot.rows.all.now known.entry.spot.row (until window left right)) }
{
    let spot = known.spot;
    let lefts = known.line(left);
    let rights = known.line(right);
    let mut best = None;
    let mut sum = ONE;
    let end = spot.end_within(window);
    for j in spot.row..end {
        if sum.is_none() {
            break;
        }
        let met = window.from <= spot.after(j);
        let way = offered(met, plus(sum, rights.size(j, Ruling::Held)), 24, j);
        best = better(best, way);
        sum = plus(sum, lefts.size(j, Ruling::Held));
    }
    best
}

// Whether the window of a row lies wholly before the log's last time.
fn has_closed(spot: Spot<'_>, window: Window) -> bool
    ensures { result ≡ past window.to (ago spot.entry.rows.all.now (length spot.entry.rows.all.now - 1) spot.entry.row) }
{
    window.beyond(spot.after(spot.rows.all.len() - 1))
}

pub(crate) fn until_broken(known: Known<'_>, window: Window, left: u8, right: u8) -> Option<Offer>
    ensures { cells_of result ≡ of_forms (cell_in known.entry.sizes.now) broken (forms known.entry.spot.rows.all.now known.entry.spot.row (until window left right)) }
{
    let spot = known.spot;
    let lefts = known.line(left);
    let rights = known.line(right);
    let mut best = None;
    let mut late = ONE;
    let end = spot.end_within(window);
    for j in spot.row..end {
        let far = window.from <= spot.after(j);
        late = plus_if(far, late, rights.size(j, Ruling::Broken));
        if late.is_none() {
            return best;
        }
        best = better(
            best,
            offered(true, plus(late, lefts.size(j, Ruling::Broken)), 25, j),
        );
    }
    better(best, offered(has_closed(spot, window), late, 26, 0))
}
