// How the line of one row is printed.
ghost use Rattle.std.specs.Prelude.{Some};
ghost use Rattle.writer.specs.Told.{told};
ghost use Rattle.listing.specs.Rulings.{row_line};

use crate::row_line::RowLine;
use mtl::ruling::Settled;
use std::fmt;
use writer::fault::SettleFault;

impl fmt::Display for RowLine {
    ghost output = { λ l. Some (row_line l.row (told l.answer)) };

    fn fmt<W: fmt::Write>(&self, f: &mut fmt::Formatter<W>) -> fmt::Result {
        let row = self.row;
        match self.answer {
            Ok(Settled { ruling, size }) => write!(f, "{row} {ruling} {size}\n"),
            Err(SettleFault::Open) => write!(f, "{row} open -\n"),
            Err(_) => write!(f, "{row} long -\n"),
        }
    }
}
