// Reading the book, and entering rulings.
ghost use Rattle.std.specs.Prelude.{◌≡◌, ℕ, ◌<◌, if◌then◌else◌, Some, None, nat_eq, slice_index_or};
ghost use Rattle.mtl.specs.Claims.{claim};
ghost use Rattle.cases.specs.Runs.{entered};
ghost use Rattle.cases.specs.View.{shown_at};

use crate::book::{Book, LineRecord};
use mtl::ruling::Ruling;

impl LineRecord {
    // Sets the entry at a row.
    fn enter(&mut self, row: usize, ruling: Ruling)
        requires { row < 128 }
        ensures { (i : ℕ) → slice_index_or self.new.entries i None ≡ (if nat_eq row i then Some ruling else slice_index_or self.old.entries i None) }
    {
        self.entries[row] = Some(ruling);
    }
}

impl Book {
    // Open everywhere.
    pub(crate) fn new() -> Book
        ensures { (n i : ℕ) → shown_at result n i ≡ None }
    {
        Book {
            records: [LineRecord {
                entries: [None; 128],
            }; 32],
        }
    }

    // The entry of a line at a row; none beyond the book's lines and rows.
    pub(crate) fn at(&self, line: usize, row: usize) -> Option<Ruling>
        ensures { result ≡ shown_at self.now line row }
    {
        *self.records.get(line)?.entries.get(row)?
    }

    // Sets one entry, and no other. By line and row as indices, and not by a Claim, whose row has a node's 16 bits.
    pub(crate) fn enter(&mut self, line: usize, row: usize, ruling: Ruling)
        requires { (line < 32) × (row < 128) }
        ensures { (n i : ℕ) → shown_at self.new n i ≡ entered (Some (claim line row ruling)) (shown_at self.old) n i }
    {
        self.records[line].enter(row, ruling);
    }
}
