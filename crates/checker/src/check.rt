// Check: a certificate's bytes, node by node, over a lent stack of the claims that are waiting.
ghost use Rattle.std.specs.Prelude.{◌≡◌, true, length};
ghost use Rattle.mtl.specs.Checking.{check_answer};
ghost use Rattle.mtl.specs.Laws.{CheckSays};
ghost use Rattle.mtl.specs.Tables.{lines_of};
ghost use Rattle.checker.specs.Told.{told, early, AcceptsExactly};
ghost use Rattle.checker.specs.Sizes.{size_answer, Room};

use crate::fault::CheckFault;
use crate::judge::Judge;
use logs::traits::Readable;
use mtl::ruling::Claim;
use mtl::table::Table;

// Six bytes for each of 4,096 nodes.
const MOST_BYTES: usize = 6 * 4096;

// The claim that a certificate proves, or the first question answered no. The stack needs a place for each node.
pub fn check<L: Readable>(
    table: &Table,
    log: &L,
    certificate: &[u8],
    stack: &mut [Claim],
) -> Result<Claim, CheckFault>
    ensures answer { told result ≡ check_answer (lines_of table.now) (L.Readable.rows log.now) certificate.now (length stack.old) }
    ensures exact { AcceptsExactly (lines_of table.now) (L.Readable.rows log.now) certificate.now (length stack.old) result }
    ensures says { CheckSays (lines_of table.now) (L.Readable.rows log.now) certificate.now (length stack.old) (told result) }
    ensures untouched { early (told result) ≡ true → stack.new ≡ stack.old }
{
    fits(certificate.len(), stack.len())?;
    Judge { table, log }.walk(certificate, stack)
}

// The questions before any node: whole nodes, not too many of them, and a place on the stack for each.
fn fits(bytes: usize, places: usize) -> Result<(), CheckFault>
    ensures answer { result ≡ size_answer bytes places }
    ensures room { Room bytes places result }
{
    if bytes == 0 || bytes % 6 != 0 {
        return Err(CheckFault::NotWholeNodes);
    }
    if bytes > MOST_BYTES {
        return Err(CheckFault::TooLong);
    }
    if bytes / 6 > places {
        return Err(CheckFault::StackTooShort);
    }
    Ok(())
}
