// Every answer of a log, compared with the rows that it is to hold.
use logs::fault::ReadFault;
use logs::traits::Readable;
use mtl::row::Row;

// Whether the mark's bit is set in the row's word: a test of the trials' own, since the logs answer by the library's `stands`.
fn has_mark(row: Row, mark: u32) -> bool {
    mark < 32 && row.marks & (1 << mark) != 0
}

// How many answers were compared, and how many of them differ.
#[derive(Clone, Copy, Default)]
pub struct Tally {
    pub compared: u32,
    pub differing: u32,
}

impl Tally {
    fn count(&mut self, same: bool) {
        self.compared = self.compared.saturating_add(1);
        self.differing = self.differing.saturating_add(u32::from(!same));
    }

    // Compares the number of rows, and time and marks of each row and of the one past the end.
    pub(crate) fn compare<L: Readable>(&mut self, log: &L, rows: &[Row]) {
        self.count(log.len() == rows.len());
        for row in 0..=rows.len() {
            let held = rows.get(row).copied().ok_or(ReadFault::NoSuchRow);
            self.count(log.time(row) == held.map(|held| held.time));
            for mark in 0..=32 {
                self.count(log.mark(row, mark) == held.map(|held| has_mark(held, mark)));
            }
        }
    }
}
