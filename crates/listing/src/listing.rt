// The listing of an input.
ghost use Rattle.std.specs.Prelude.{◌≡◌, IfOk, MatchResult, string_bytes};
ghost use Rattle.logs.specs.contracts.mask.MaskLogReadable.TheImpl.{ghosts as MaskRows};
ghost use Rattle.mtl.specs.Tables.{lines_of};
ghost use Rattle.listing.specs.Faults.{fault_lines};
ghost use Rattle.listing.specs.Listings.{listing_of};
ghost use Rattle.listing.specs.Rulings.{ruling_lines};

use crate::fault::{FaultListing, Source};
use crate::rows::ruling_lines;
use crate::split::split;
use logs::mask::MaskLog;
use mtl::draft::Draft;
use mtl::table::Table;
use std::alloc::{AllocError, Global};
use texts::log::read_log;
use texts::rules::read_rules;

// The table and the log of an input; or its fault, that of the rules before that of the log.
fn read(input: &[u8]) -> Result<(Table, MaskLog), FaultListing>
    ensures { MatchResult result (λ read. listing_of input.now ≡ ruling_lines (lines_of read.0) (MaskRows.rows read.1)) (λ fault. listing_of input.now ≡ fault_lines fault.source fault.told) }
{
    let texts = split(input);
    let mut draft = Draft::new();
    read_rules(texts.rules, &mut draft).map_err(|fault| FaultListing {
        source: Source::Rules,
        told: fault.into(),
    })?;
    let mut log = MaskLog::new();
    read_log(texts.log, &mut log).map_err(|fault| FaultListing {
        source: Source::Log,
        told: fault.into(),
    })?;
    Ok((draft.close(), log))
}

// The listing of the program's whole input: a fault, or the last line's ruling at every row.
pub fn listing(heap: Global, input: &[u8]) -> Result<String, AllocError>
    ensures { IfOk result (λ s. string_bytes s ≡ listing_of input.now) }
{
    match read(input) {
        Ok((table, log)) => ruling_lines(heap, table, log),
        Err(fault) => format!(in heap; "{fault}"),
    }
}
