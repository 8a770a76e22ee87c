// What is found out of every line at every row.
use std::alloc::{AllocError, Global};

#[derive(Drop)]
pub struct Grid<T> {
    lines: Vec<Vec<T>>,
}

impl<T: Drop> Grid<T> {
    // No line yet.
    pub fn new(heap: Global) -> Grid<T> {
        Grid {
            lines: Vec::new(heap),
        }
    }

    // The next line, with a value for each row.
    pub fn push(&mut self, line: Vec<T>) -> Result<(), AllocError> {
        self.lines.push(line)?;
        Ok(())
    }

    // The value of a line at a row.
    pub fn at(&self, line: usize, row: usize) -> Option<&T> {
        self.lines.get(line)?.get(row)
    }
}
