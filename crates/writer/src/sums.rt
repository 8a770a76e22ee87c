// Adding sizes up, and choosing the least.
ghost use Rattle.std.specs.Prelude.{◌≡◌, ℕ, ◌+◌, ◌*◌, ◌<◌};
ghost use Rattle.mtl.specs.Cells.{add_cell};
ghost use Rattle.writer.specs.Choice.{merge, offer, add_if, sized, cells_of};

use crate::offer::{Offer, Pick};
use std::num::NonZeroU16;

// The size of a node without children.
pub(crate) const ONE: Option<NonZeroU16> = Some(NonZeroU16::MIN);

// The smaller of two, the first among equals.
pub(crate) fn better(first: Option<Offer>, second: Option<Offer>) -> Option<Offer>
    ensures { cells_of result ≡ merge (cells_of first) (cells_of second) }
{
    let Some(one) = first else {
        return second;
    };
    let Some(two) = second else {
        return first;
    };
    if one.size <= two.size { first } else { second }
}

// The size and the code that stand in the cells of a claim, 0 for none.
pub(crate) fn entries(offer: Option<Offer>) -> (u16, u16)
    ensures { (result.0 ≡ (cells_of offer).size) × (result.1 ≡ (cells_of offer).code) }
{
    offer.map_or((0, 0), |offer| (offer.size.get(), offer.pick.into()))
}

// A way of this size by a rule and a row j, if its condition is met. The condition is asked here and in `plus_if`, once for all rules:
// as a filter it would stand at each of their calls.
pub(crate) fn offered(met: bool, size: Option<NonZeroU16>, rule: u8, row: usize) -> Option<Offer>
    requires { row < 128 }
    ensures { cells_of result ≡ offer met (sized size) (256 * rule + row) }
{
    if !met {
        return None;
    }
    Some(Offer {
        size: size?,
        pick: Pick {
            rule,
            row: row as u8,
        },
    })
}

// A sum with one more child's size: none if either is none, and never above 4,097.
pub(crate) fn plus(sum: Option<NonZeroU16>, size: Option<NonZeroU16>) -> Option<NonZeroU16>
    ensures { sized result ≡ add_cell (sized sum) (sized size) }
{
    let total = sum?.get().saturating_add(size?.get());
    NonZeroU16::new(total.min(4097))
}

pub(crate) fn plus_if(
    met: bool,
    sum: Option<NonZeroU16>,
    size: Option<NonZeroU16>,
) -> Option<NonZeroU16>
    ensures { sized result ≡ add_if met (sized sum) (sized size) }
{
    if met { plus(sum, size) } else { sum }
}
