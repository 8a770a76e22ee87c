// The calls of a case.
ghost use Rattle.std.specs.Prelude.{◌≡◌, true, length};
ghost use Rattle.logs.specs.Answers.{add_told};
ghost use Rattle.mtl.specs.Buffers.{Fills};
ghost use Rattle.mtl.specs.Settling.{lengths, wrote};
ghost use Rattle.mtl.specs.Tables.{lines_of};
ghost use Rattle.writer.specs.Told.{told as settle_told};
ghost use Rattle.checker.specs.Told.{told as check_told, early};
ghost use Rattle.cases.specs.Runs.{Added, Presented, Ruled, Looked};
ghost use Rattle.cases.specs.Law.{Opened, Law};
ghost use Rattle.cases.specs.View.{state_of, Does, show_told};

use crate::book::Book;
use crate::case::{Case, ShowFault};
use checker::check::check;
use checker::fault::CheckFault;
use logs::fault::AddFault;
use logs::traits::{Growing, Readable};
use mtl::row::Row;
use mtl::ruling::{Claim, Ruling, Settled};
use mtl::table::Table;
use writer::fault::SettleFault;
use writer::settle::settle;

impl<L: Growing> Case<L> {
    // Opens a case: its book shows open everywhere, and every run of calls from here on keeps the law.
    pub fn open(table: Table, log: L) -> Case<L>
        ensures table { result.table ≡ table }
        ensures log { result.log ≡ log }
        ensures opened { Opened (state_of L.Growing.room L.Readable.rows result) }
        ensures lawful { Law (state_of L.Growing.room L.Readable.rows result) }
    {
        Case {
            table,
            log,
            book: Book::new(),
        }
    }

    // The case's table.
    pub fn table(&self) -> &Table
        ensures { result.now ≡ self.now.table }
    {
        &self.table
    }

    // The case's log.
    pub fn log(&self) -> &L
        ensures { result.now ≡ self.now.log }
    {
        &self.log
    }

    // Adds a row to the log, whose answer is passed on whole.
    pub fn add(&mut self, row: Row) -> Result<(), AddFault>
        ensures { Does L.Growing.room L.Readable.rows self.old (Added row (add_told result)) self.new }
    {
        self.log.add(row)
    }

    // Presents a certificate: Check, on the case's table and rows; an accepted claim is entered.
    pub fn present(&mut self, certificate: &[u8], stack: &mut [Claim]) -> Result<Claim, CheckFault>
        ensures step { Does L.Growing.room L.Readable.rows self.old (Presented certificate.now (length stack.old) (check_told result)) self.new }
        ensures untouched { early (check_told result) ≡ true → stack.new ≡ stack.old }
    {
        let claim = check(&self.table, &self.log, certificate, stack)?;
        self.book
            .enter(claim.line as usize, claim.row as usize, claim.ruling);
        Ok(claim)
    }

    // Settles a line at a row: Settle, on the case's table and rows; an accepted ruling is entered.
    // The buffers stay three slices: each has a length of its own that a question asks about, and no fact joins them, so a
    // struct would only rename them.
    pub fn settle(
        &mut self,
        line: usize,
        row: usize,
        sizes: &mut [u16],
        plan: &mut [u16],
        out: &mut [u8],
    ) -> Result<Settled, SettleFault>
        ensures step { Does L.Growing.room L.Readable.rows self.old (Ruled line row (lengths (length sizes.old) (length plan.old) (length out.old)) (settle_told result) (wrote (settle_told result) out.new)) self.new }
        ensures buffers { Fills (lines_of self.old.table) (L.Readable.rows self.old.log) line row (settle_told result) sizes.old sizes.new plan.old plan.new out.old out.new }
    {
        let settled = settle(&self.table, &self.log, line, row, sizes, plan, out)?;
        self.book.enter(line, row, settled.ruling);
        Ok(settled)
    }

    // What the book shows for a line at a row: the last ruling, or none while the line is open there.
    pub fn show(&self, line: usize, row: usize) -> Result<Option<Ruling>, ShowFault>
        ensures { Does L.Growing.room L.Readable.rows self.now (Looked line row (show_told result)) self.now }
    {
        if line >= self.table.len() {
            return Err(ShowFault::NoSuchLine);
        }
        if row >= self.log.len() {
            return Err(ShowFault::NoSuchRow);
        }
        Ok(self.book.at(line, row))
    }
}
