// The end of a window as it is printed: a time, or - where there is none.
// `text_writers` prints a window's fields by a proved output; one Display for both would bring its definition into mtl for this line.
use std::fmt;

#[derive(Clone, Copy)]
pub struct End {
    pub to: Option<u32>,
}

impl fmt::Display for End {
    fn fmt<W: fmt::Write>(&self, f: &mut fmt::Formatter<W>) -> fmt::Result {
        match self.to {
            Some(to) => write!(f, "{to}"),
            None => f.write_str("-"),
        }
    }
}
