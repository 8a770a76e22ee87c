// Settle: a line at a row is worked out, and its shortest certificate written.
ghost use Rattle.std.specs.Prelude.{◌≡◌, ℕ, ◌+◌, ◌<◌, ◌≤◌, length};
ghost use Rattle.mtl.specs.Buffers.{Fills};
ghost use Rattle.mtl.specs.Claims.{claim, Held as held_at, Broken as broken_at};
ghost use Rattle.mtl.specs.Laws.{SettleSays};
ghost use Rattle.mtl.specs.Settling.{lengths, settle_answer, wrote};
ghost use Rattle.mtl.specs.Tables.{lines_of};
ghost use Rattle.writer.specs.Choice.{cell_in};
ghost use Rattle.writer.specs.Told.{told, least_of};
ghost use Rattle.writer.specs.Written.{Short, cert_bytes, put_at};

use crate::cells::size;
use crate::fault::SettleFault;
use crate::fill::fill;
use crate::log_rows::rows_of;
use crate::plan::Plan;
use crate::rows::Rows;
use crate::write::{write_broken, write_held};
use logs::traits::Readable;
use mtl::ruling::{Ruling, Settled};
use mtl::table::Table;

// The ruling that has a certificate, and its least size.
fn least(sizes: &[u16], line: u8, row: usize) -> Option<Settled>
    ensures { result ≡ least_of (cell_in sizes.now (held_at line row)) (cell_in sizes.now (broken_at line row)) }
{
    let (ruling, size) = match size(sizes, line, row, Ruling::Held) {
        Some(held) => (Ruling::Held, held),
        None => (Ruling::Broken, size(sizes, line, row, Ruling::Broken)?),
    };
    Some(Settled {
        ruling,
        size: size.get(),
    })
}

// Writes the certificate of a ruling to the front of the output.
fn write(plan: Plan<'_>, ruling: Ruling, line: u8, row: usize, out: &mut [u8])
    requires short { Short (lines_of plan.table.now) plan.rows.all.now (claim line row ruling) }
    requires room { 0 + length (cert_bytes (lines_of plan.table.now) plan.rows.all.now (claim line row ruling)) ≤ length out.old }
    ensures { out.new ≡ put_at out.old 0 (cert_bytes (lines_of plan.entry.table.now) plan.entry.rows.all.now (claim line row ruling)) }
{
    match ruling {
        Ruling::Held => write_held(plan, line, row, out, 0),
        Ruling::Broken => write_broken(plan, line, row, out, 0),
    };
}

// Settles over rows in memory: the line and the row are there, and the work buffers are long enough.
fn settle_rows(
    table: &Table,
    rows: Rows<'_>,
    line: u8,
    row: usize,
    sizes: &mut [u16],
    plan: &mut [u16],
    out: &mut [u8],
) -> Result<Settled, SettleFault>
    requires there { (line < length (lines_of table.now)) × (row < length rows.all.now) }
    requires room { (8192 ≤ length sizes.old) × (8192 ≤ length plan.old) }
    ensures answer { told result ≡ settle_answer (lines_of table.now) rows.entry.all.now line row (lengths (length sizes.old) (length plan.old) (length out.old)) }
    ensures buffers { Fills (lines_of table.now) rows.entry.all.now line row (told result) sizes.old sizes.new plan.old plan.new out.old out.new }
{
    fill(table, rows, sizes, plan);
    let found = least(sizes, line, row).ok_or(SettleFault::Open)?;
    if found.size > 4096 {
        return Err(SettleFault::TooLong);
    }
    if out.len() < 6 * found.size as usize {
        return Err(SettleFault::OutputShort);
    }
    let plan = Plan {
        table,
        rows,
        codes: plan,
    };
    write(plan, found.ruling, line, row, out);
    Ok(found)
}

// Settles a line at a row: tells its ruling and the size of its shortest certificate, and writes that certificate to `out`;
// or tells the first question that is answered no. From question 24 on, `sizes` begins with the least size of every line at every row.
// Sizes, plan and output are apart: a question asks about the length of each, and no fact joins them.
pub fn settle<L: Readable>(
    table: &Table,
    log: &L,
    line: usize,
    row: usize,
    sizes: &mut [u16],
    plan: &mut [u16],
    out: &mut [u8],
) -> Result<Settled, SettleFault>
    ensures answer { told result ≡ settle_answer (lines_of table.now) (L.Readable.rows log.now) line row (lengths (length sizes.old) (length plan.old) (length out.old)) }
    ensures buffers { Fills (lines_of table.now) (L.Readable.rows log.now) line row (told result) sizes.old sizes.new plan.old plan.new out.old out.new }
    ensures says { SettleSays (lines_of table.now) (L.Readable.rows log.now) line row (lengths (length sizes.old) (length plan.old) (length out.old)) (told result) (wrote (told result) out.new) }
{
    if line >= table.len() {
        return Err(SettleFault::NoSuchLine);
    }
    if row >= log.len() {
        return Err(SettleFault::NoSuchRow);
    }
    if sizes.len().min(plan.len()) < 8192 {
        return Err(SettleFault::BufferShort);
    }
    let all = rows_of(log);
    let rows = Rows {
        all: all.as_slice(),
    };
    settle_rows(table, rows, line as u8, row, sizes, plan, out)
}
