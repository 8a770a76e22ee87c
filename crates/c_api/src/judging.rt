// Check and Settle on the two texts' table and log, over buffers that are long enough for every call.
ghost use Rattle.std.specs.Prelude.{◌≡◌, length};
ghost use Rattle.checker.specs.Told.{told as check_told};
ghost use Rattle.logs.specs.contracts.mask.MaskLogReadable.TheImpl.{ghosts as MaskRows};
ghost use Rattle.mtl.specs.Checking.{check_answer};
ghost use Rattle.mtl.specs.Laws.{CheckSays};
ghost use Rattle.mtl.specs.Tables.{lines_of};
ghost use Rattle.c_api.specs.Meanings.{CheckFound, SettleFound};
ghost use Rattle.c_api.specs.Outputs.{settle_bytes, overwritten};
ghost use Rattle.c_api.specs.Readings.{telling, check_finds, settle_finds};

use crate::inputs::{log_of, table_of};
use crate::refusal::Refusal;
use checker::check::check;
use checker::fault::CheckFault;
use logs::mask::MaskLog;
use mtl::ruling::{Claim, Settled};
use mtl::table::Table;
use writer::settle::settle;

// Check on a stack that is long enough. A function of its own, so that the stack is filled once: beside the reading of the texts
// the compiler fills its 24 KiB before the reading too.
fn judged(table: &Table, log: &MaskLog, certificate: &[u8]) -> Result<Claim, CheckFault>
    ensures answer { check_told result ≡ check_answer (lines_of table.now) (MaskRows.rows log.now) certificate.now 4096 }
    ensures says { CheckSays (lines_of table.now) (MaskRows.rows log.now) certificate.now 4096 (check_told result) }
{
    let mut stack = [Claim::BLANK; 4096];
    check(table, log, certificate, &mut stack)
}

// The claim that a certificate proves on the texts' table and log.
pub(crate) fn checked(rules: &[u8], log: &[u8], certificate: &[u8]) -> Result<Claim, Refusal>
    ensures answer { telling result ≡ check_finds rules.now log.now certificate.now }
    ensures says { CheckFound rules.now log.now certificate.now (telling result) }
{
    let table = table_of(rules)?;
    let log = log_of(log)?;
    judged(&table, &log, certificate).map_err(Refusal::Check)
}

// The ruling of a line at a row of the texts' table and log, with its certificate in the output.
pub(crate) fn settled(
    rules: &[u8],
    log: &[u8],
    line: usize,
    row: usize,
    out: &mut [u8],
) -> Result<Settled, Refusal>
    ensures answer { telling result ≡ settle_finds rules.now log.now line row (length out.old) }
    ensures written { out.new ≡ overwritten (settle_bytes rules.now log.now line row (length out.old)) out.old }
    ensures says { SettleFound rules.now log.now line row (length out.old) out.new (telling result) }
{
    let table = table_of(rules)?;
    let log = log_of(log)?;
    let mut sizes = [0; 8192];
    let mut plan = [0; 8192];
    settle(&table, &log, line, row, &mut sizes, &mut plan, out).map_err(Refusal::Settle)
}
