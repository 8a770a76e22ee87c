// How a fault is printed: a line of names and a line of values.
ghost use Rattle.std.specs.Prelude.{Some};
ghost use Rattle.listing.specs.Faults.{source_name, fault_lines};

use crate::fault::{FaultListing, Source};
use std::fmt;

impl fmt::Display for Source {
    ghost output = { λ s. Some (source_name s) };

    fn fmt<W: fmt::Write>(&self, f: &mut fmt::Formatter<W>) -> fmt::Result {
        match self {
            Source::Rules => f.write_str("rules"),
            Source::Log => f.write_str("log"),
        }
    }
}

impl fmt::Display for FaultListing {
    ghost output = { λ l. Some (fault_lines l.source l.told) };

    fn fmt<W: fmt::Write>(&self, f: &mut fmt::Formatter<W>) -> fmt::Result {
        let source = self.source;
        let told = self.told;
        write!(
            f,
            "fault text line field\n{} {} {} {}\n",
            told.number, source, told.line, told.field
        )
    }
}
