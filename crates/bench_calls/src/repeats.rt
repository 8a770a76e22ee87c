// Check and Settle, made so many times and then once more.
// Two loops, and not one over a closure: what a call leaves in the buffers would have to be said of any closure.
ghost use Rattle.std.specs.Prelude.{◌≡◌, length};
ghost use Rattle.checker.specs.Told.{told as check_told};
ghost use Rattle.logs.specs.contracts.mask.MaskLogReadable.TheImpl.{ghosts as MaskRows};
ghost use Rattle.mtl.specs.Buffers.{Fills};
ghost use Rattle.mtl.specs.Checking.{check_answer};
ghost use Rattle.mtl.specs.Settling.{lengths, settle_answer};
ghost use Rattle.mtl.specs.Tables.{lines_of};
ghost use Rattle.writer.specs.Told.{told as settle_told};

use checker::check::check;
use checker::fault::CheckFault;
use logs::mask::MaskLog;
use mtl::ruling::{Claim, Settled};
use mtl::table::Table;
use writer::fault::SettleFault;
use writer::settle::settle;

// The last answer of Check.
pub(crate) fn check_again(
    table: &Table,
    log: &MaskLog,
    certificate: &[u8],
    stack: &mut [Claim],
    again: u32,
) -> Result<Claim, CheckFault>
    ensures { check_told result ≡ check_answer (lines_of table.now) (MaskRows.rows log.now) certificate.now (length stack.old) }
{
    for _ in 0..again {
        let _ = check(table, log, certificate, stack);
    }
    check(table, log, certificate, stack)
}

// The last answer of Settle; the buffers are left as by one call. They stay three slices, as C hands them over: each has a
// length of its own that a question asks about, and no fact joins them, so a struct would only rename them.
pub(crate) fn settle_again(
    table: &Table,
    log: &MaskLog,
    line: usize,
    row: usize,
    sizes: &mut [u16],
    plan: &mut [u16],
    out: &mut [u8],
    again: u32,
) -> Result<Settled, SettleFault>
    ensures answer { settle_told result ≡ settle_answer (lines_of table.now) (MaskRows.rows log.now) line row (lengths (length sizes.old) (length plan.old) (length out.old)) }
    ensures buffers { Fills (lines_of table.now) (MaskRows.rows log.now) line row (settle_told result) sizes.old sizes.new plan.old plan.new out.old out.new }
{
    for _ in 0..again {
        let _ = settle(table, log, line, row, sizes, plan, out);
    }
    settle(table, log, line, row, sizes, plan, out)
}
