// Where the rows inside a window round a row begin and end.
ghost use Rattle.std.specs.Prelude.{◌≡◌, ℕ, ◌+◌, ◌<◌, ◌≤◌, true, length};
ghost use Rattle.mtl.specs.Rows.{time_at};
ghost use Rattle.mtl.specs.Windows.{up_to, past};
ghost use Rattle.writer.specs.Passes.{ago};

use crate::rows::{Rows, Spot};
use mtl::line::Window;
use mtl::row::Time;

impl<'a> Rows<'a> {
    // The first row whose time is at least the bound, or the number of rows.
    fn first_from(self, bound: u64) -> usize
        ensures high { result ≤ length self.entry.all.now }
        ensures before { (j : ℕ) → j < result → time_at self.entry.all.now j < bound }
        ensures after { (j : ℕ) → result ≤ j → j < length self.entry.all.now → bound ≤ time_at self.entry.all.now j }
    {
        self.all.partition_point(|row| (row.time as u64) < bound)
    }
}

impl<'a> Spot<'a> {
    fn time(self) -> Time
        ensures { result ≡ time_at self.entry.rows.all.now self.entry.row }
    {
        self.rows.all[self.row].time
    }

    // How long before the spot a row came.
    pub(crate) fn before(self, row: usize) -> Time
        requires { row < length self.rows.all.now }
        ensures { result ≡ ago self.entry.rows.all.now self.entry.row row }
    {
        self.time().saturating_sub(self.rows.all[row].time)
    }

    // How long after the spot a row came.
    pub(crate) fn after(self, row: usize) -> Time
        requires { row < length self.rows.all.now }
        ensures { result ≡ ago self.entry.rows.all.now row self.entry.row }
    {
        self.rows.all[row].time.saturating_sub(self.time())
    }

    // The first row that is not too long before the spot. A match here and in the next, since of a closure's call the check knows
    // none of the facts that the search gives.
    pub(crate) fn first_within(self, window: Window) -> usize
        ensures low { result ≤ self.entry.row }
        ensures before { (j : ℕ) → j < result → past window.to (ago self.entry.rows.all.now self.entry.row j) ≡ true }
        ensures after { (j : ℕ) → result ≤ j → j < length self.entry.rows.all.now → up_to window.to (ago self.entry.rows.all.now self.entry.row j) ≡ true }
    {
        match window.to {
            Some(to) => self.rows.first_from(self.time().saturating_sub(to) as u64),
            None => 0,
        }
    }

    // The first row from the spot on that is too long after it, or the number of rows.
    pub(crate) fn end_within(self, window: Window) -> usize
        ensures low { self.entry.row ≤ result }
        ensures high { result ≤ length self.entry.rows.all.now }
        ensures before { (j : ℕ) → j < result → up_to window.to (ago self.entry.rows.all.now j self.entry.row) ≡ true }
        ensures after { (j : ℕ) → result ≤ j → j < length self.entry.rows.all.now → past window.to (ago self.entry.rows.all.now j self.entry.row) ≡ true }
    {
        match window.to {
            Some(to) => self.rows.first_from(self.time() as u64 + to as u64 + 1),
            None => self.rows.all.len(),
        }
    }

    // The first row up to the spot that is not long enough before it, or the row after it.
    pub(crate) fn first_near(self, window: Window) -> usize
        ensures high { result ≤ self.entry.row + 1 }
        ensures before { (j : ℕ) → j < result → window.from ≤ ago self.entry.rows.all.now self.entry.row j }
        ensures after { (j : ℕ) → result ≤ j → j ≤ self.entry.row → ago self.entry.rows.all.now self.entry.row j < window.from }
    {
        self.rows
            .first_from((self.time() as u64 + 1).saturating_sub(window.from as u64))
            .min(self.row + 1)
    }

    // The first row from the spot on that is long enough after it, or the number of rows.
    pub(crate) fn first_far(self, window: Window) -> usize
        ensures low { self.entry.row ≤ result }
        ensures high { result ≤ length self.entry.rows.all.now }
        ensures before { (j : ℕ) → self.entry.row ≤ j → j < result → ago self.entry.rows.all.now j self.entry.row < window.from }
        ensures after { (j : ℕ) → result ≤ j → j < length self.entry.rows.all.now → window.from ≤ ago self.entry.rows.all.now j self.entry.row }
    {
        self.rows
            .first_from(self.time() as u64 + window.from as u64)
            .max(self.row)
    }
}
