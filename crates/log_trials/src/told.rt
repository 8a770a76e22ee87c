// What a log tells where it refuses.
use std::fmt;

// A refusal by its number; printed as 0 where there is none.
#[derive(Clone, Copy)]
pub struct Told {
    number: Option<u8>,
}

impl<F: Into<u8> + Drop> From<Option<F>> for Told {
    fn from(refusal: Option<F>) -> Told {
        Told {
            number: refusal.map(|fault| fault.into()),
        }
    }
}

impl fmt::Display for Told {
    fn fmt<W: fmt::Write>(&self, f: &mut fmt::Formatter<W>) -> fmt::Result {
        let number = self.number.unwrap_or(0);
        write!(f, "{number}")
    }
}
