//! Runs the same rows through the three kinds of log, and compares every answer with the rows themselves.
#![tactic(auto)]

mod compare;
mod inputs;
mod told;

use compare::Tally;
use logs::any_log::{add_all, same_answers};
use logs::changes::ChangeLog;
use logs::fault::{AddFault, ReadFault, SheetFault};
use logs::mask::MaskLog;
use logs::sheet::Sheet;
use logs::traits::{Growing, Readable};
use mtl::row::Row;
use std::alloc::Global;
use std::io;
use told::Told;

// Why a log refuses the row after those that it took, if there is one.
fn refusal_of_next<L: Growing>(log: &mut L, rows: &[Row], taken: usize) -> Option<AddFault> {
    log.add(*rows.get(taken)?).err()
}

// Why a log refuses to tell a time past its last row.
fn refusal_past_end<L: Readable>(log: &L) -> Option<ReadFault> {
    log.time(log.len()).err()
}

// Adds the rows as far as they are taken, compares, and prints what was taken and told.
fn try_growing<L: Growing>(
    rt: &impl Print,
    kind: &str,
    log: &mut L,
    rows: &[Row],
    tally: &mut Tally,
) -> io::Result<()> {
    let taken = add_all(log, rows);
    let told = Told::from(refusal_of_next(log, rows, taken));
    let past = Told::from(refusal_past_end(log));
    tally.compare(log, &rows[..taken]);
    println!(rt; "  {kind}: {taken} rows taken, then told {told}; past the end told {past}")
}

// Compares a sheet with the rows, and prints how many it has and what was told.
fn show_read(
    rt: &impl Print,
    sheet: Sheet,
    rows: &[Row],
    refusal: Option<SheetFault>,
    tally: &mut Tally,
) -> io::Result<()> {
    let told = Told::from(refusal);
    let past = Told::from(refusal_past_end(&sheet));
    let len = sheet.len();
    tally.compare(&sheet, rows);
    println!(rt; "  sheet: {len} rows read, told {told}; past the end told {past}")
}

// The sheet over no bytes, which are never refused.
fn empty_sheet() -> Sheet<'static> {
    Sheet::read(&[]).unwrap()
}

// Reads the rows' bytes as a sheet. Bytes that are refused leave no sheet, so the empty one is asked in its place.
fn try_sheet(rt: &impl Print, heap: Global, rows: &[Row], tally: &mut Tally) -> io::Result<()> {
    let bytes = inputs::sheet_bytes(heap, rows)?;
    match Sheet::read(&bytes) {
        Ok(sheet) => show_read(rt, sheet, rows, None, tally),
        Err(fault) => show_read(rt, empty_sheet(), &[], Some(fault), tally),
    }
}

// Whether two logs answer alike at every row and mark, and past the end.
fn alike<A: Readable, B: Readable>(a: &A, b: &B) -> bool {
    (0..=a.len()).all(|row| (0..=32).all(|mark| same_answers(a, b, row, mark)))
}

// The three kinds on the same rows.
fn try_rows(
    rt: &impl Print,
    heap: Global,
    name: &str,
    rows: &[Row],
    tally: &mut Tally,
) -> io::Result<()> {
    let offered = rows.len();
    println!(rt; "{name}: {offered} rows offered")?;
    let mut masks = MaskLog::new();
    let mut changes = ChangeLog::new();
    try_growing(rt, "mask", &mut masks, rows, tally)?;
    try_growing(rt, "change", &mut changes, rows, tally)?;
    try_sheet(rt, heap, rows, tally)?;
    let alike = alike(&masks, &changes);
    println!(rt; "  mask and change alike: {alike}")
}

fn main(rt: HostRuntime) -> io::Result<()> {
    println!(rt; "told is the number of a refusal, or 0")?;
    let heap = rt.alloc();
    let mut tally = Tally::default();
    let many = inputs::many();
    let busy = inputs::busy();
    try_rows(&rt, heap, "no row", &[], &mut tally)?;
    try_rows(&rt, heap, "repeated times", &inputs::repeated(), &mut tally)?;
    try_rows(&rt, heap, "latest times", &inputs::latest(), &mut tally)?;
    try_rows(&rt, heap, "falling time", &inputs::falling(), &mut tally)?;
    try_rows(&rt, heap, "128 rows", &many[0..128], &mut tally)?;
    try_rows(&rt, heap, "129 rows", &many, &mut tally)?;
    try_rows(&rt, heap, "512 changes", &busy[0..16], &mut tally)?;
    try_rows(&rt, heap, "513 changes", &busy, &mut tally)?;
    let compared = tally.compared;
    let differing = tally.differing;
    println!(rt; "{compared} answers compared, {differing} differ")
}
