// The rulings of a table's last line, settled through a case at every row.
ghost use Rattle.std.specs.Prelude.{◌≡◌, length, IfOk, string_bytes};
ghost use Rattle.mtl.specs.Settling.{lengths};
ghost use Rattle.mtl.specs.Tables.{lines_of};
ghost use Rattle.logs.specs.contracts.mask.MaskLogReadable.TheImpl.{ghosts as MaskRows};
ghost use Rattle.listing.specs.Rulings.{settled_lines, ruling_lines};

use crate::row_line::RowLine;
use cases::case::Case;
use logs::mask::MaskLog;
use logs::traits::Readable;
use mtl::table::Table;
use std::alloc::{AllocError, Global};

// The names line, and a line for each row of the case's log. The buffers are handed on as Settle takes them: each has a length
// of its own that a question asks about, and no fact joins them, so a struct would only rename them.
fn settled_lines(
    heap: Global,
    case: &mut Case<MaskLog>,
    line: usize,
    sizes: &mut [u16],
    plan: &mut [u16],
    out: &mut [u8],
) -> Result<String, AllocError>
    ensures { IfOk result (λ s. string_bytes s ≡ settled_lines (lines_of case.old.table) (MaskRows.rows case.old.log) line (lengths (length sizes.old) (length plan.old) (length out.old))) }
{
    let mut text = String::from_str(heap, "row ruling nodes\n")?;
    for row in 0..case.log().len() {
        let answer = case.settle(line, row, sizes, plan, out);
        write!(text, "{}", RowLine { row, answer })?;
    }
    Ok(text)
}

// The listing of a table and a log.
pub fn ruling_lines(heap: Global, table: Table, log: MaskLog) -> Result<String, AllocError>
    ensures { IfOk result (λ s. string_bytes s ≡ ruling_lines (lines_of table) (MaskRows.rows log)) }
{
    let Some(last) = table.len().checked_sub(1) else {
        return String::from_str(heap, "row ruling nodes\n");
    };
    // `replays` makes such buffers too, and says why each makes its own.
    let mut sizes = vec![in heap; 0; 8192]?;
    let mut plan = vec![in heap; 0; 8192]?;
    let mut out = vec![in heap; 0; 24576]?;
    let mut case = Case::open(table, log);
    settled_lines(heap, &mut case, last, &mut sizes, &mut plan, &mut out)
}
