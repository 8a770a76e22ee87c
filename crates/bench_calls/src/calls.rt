// The exported calls. Each reads its texts once, makes its call, and makes it again so many times.
ghost use Rattle.std.specs.Prelude.{◌≡◌, length};
ghost use Rattle.mtl.specs.Buffers.{Fills};
ghost use Rattle.mtl.specs.Settling.{lengths};
ghost use Rattle.bench_calls.specs.Numbers.{check_numbers, settle_numbers};
ghost use Rattle.bench_calls.specs.Texts.{lines_in, rows_in, check_on, settle_on};

use crate::answers::{Checked, Settling};
use crate::repeats::{check_again, settle_again};
use crate::texts_read::{log_of, table_of};
use mtl::ruling::Claim;

// Check on the texts' table and rows, with a stack of 4,096 claims: the last answer.
#[unsafe(no_mangle)]
pub extern "C" fn bench_check(rules: &[u8], log: &[u8], certificate: &[u8], again: u32) -> Checked
    ensures { result ≡ check_numbers (check_on rules.now log.now certificate.now) }
{
    let mut stack = [Claim::BLANK; 4096];
    check_again(
        &table_of(rules),
        &log_of(log),
        certificate,
        &mut stack,
        again,
    )
    .into()
}

// Settle on the texts' table and rows: the last answer, and what it leaves in the buffers.
#[unsafe(no_mangle)]
pub extern "C" fn bench_settle(
    rules: &[u8],
    log: &[u8],
    line: usize,
    row: usize,
    again: u32,
    sizes: &mut [u16],
    plan: &mut [u16],
    out: &mut [u8],
) -> Settling
    ensures answer { result ≡ settle_numbers (settle_on rules.now log.now line row (lengths (length sizes.old) (length plan.old) (length out.old))) }
    ensures buffers { Fills (lines_in rules.now) (rows_in log.now) line row (settle_on rules.now log.now line row (lengths (length sizes.old) (length plan.old) (length out.old))) sizes.old sizes.new plan.old plan.new out.old out.new }
{
    let table = table_of(rules);
    let log = log_of(log);
    settle_again(&table, &log, line, row, sizes, plan, out, again).into()
}
