// The book of a case: an entry for each line and row.
mod entering;

use mtl::ruling::Ruling;

// What is kept of one line: the last ruling at each row, or none while the line is open there.
#[derive(Clone, Copy)]
pub struct LineRecord {
    entries: [Option<Ruling>; 128],
}

#[derive(Drop)]
pub struct Book {
    records: [LineRecord; 32],
}
