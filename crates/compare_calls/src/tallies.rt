// The topics of this program.
use comparison::tally::{Tally, print_all};
use std::alloc::Global;
use std::io;

#[derive(Drop)]
pub(crate) struct Tallies {
    // The calls of a case.
    pub(crate) added: Tally,
    pub(crate) presented: Tally,
    pub(crate) ruled: Tally,
    pub(crate) shown: Tally,
    // The rulings that it gave: true in continuations of the rows then held, and never reversed.
    pub(crate) given_true: Tally,
    pub(crate) kept: Tally,
    // Entering lines.
    pub(crate) entered: Tally,
}

impl Tallies {
    pub(crate) fn new(heap: Global) -> Tallies {
        Tallies {
            added: Tally::new(heap),
            presented: Tally::new(heap),
            ruled: Tally::new(heap),
            shown: Tally::new(heap),
            given_true: Tally::new(heap),
            kept: Tally::new(heap),
            entered: Tally::new(heap),
        }
    }

    // Prints every topic, and how many differences there are in all.
    pub(crate) fn print(&self, rt: &impl Print) -> io::Result<()> {
        let topics = [
            ("case, add", &self.added),
            ("case, present", &self.presented),
            ("case, settle", &self.ruled),
            ("case, show", &self.shown),
            ("case, rulings true in continuations", &self.given_true),
            ("case, rulings not reversed", &self.kept),
            ("draft, enter", &self.entered),
        ];
        print_all(rt, &topics)
    }
}
