// A case: a table and a log that it took over, and a book that shows the last ruling for each line and row.
mod calls;
mod telling;

use crate::book::Book;
use logs::traits::Growing;
use mtl::table::Table;

// Only the case's own calls reach its log, so nobody adds a row behind it.
#[derive(Drop)]
pub struct Case<L: Growing> {
    table: Table,
    log: L,
    book: Book,
}

// Why Show refuses.
#[derive(Clone, Copy, Debug, PartialEq, Eq)]
pub enum ShowFault {
    // The table has no such line.
    NoSuchLine,
    // The log has no such row.
    NoSuchRow,
}
