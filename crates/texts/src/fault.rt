// Why a text is refused, and what a refusal tells.
mod telling;

use logs::fault::AddFault;
use mtl::line::LineFault;

// Lines are counted from 1 in the text, and fields from 1 in their line.
#[derive(Clone, Copy, Debug, PartialEq, Eq)]
pub enum TextFault {
    // The text has more than 16,384 bytes.
    TooLong,
    // The line has a byte that no text has; or it is the last line and does not end.
    WrongByte { line: usize },
    // The names line is not right.
    WrongNames,
    // The line has not as many fields as there are names, or not one space between them.
    WrongFields { line: usize },
    // The field is not in form.
    WrongForm { line: usize, field: usize },
    // The table refuses the line.
    Table { line: usize, fault: LineFault },
    // The log refuses the line.
    Log { line: usize, fault: AddFault },
}

// The layer that refuses a text.
#[derive(Clone, Copy, Debug, PartialEq, Eq)]
pub enum Layer {
    Text,
    Table,
    Log,
}

// What a refusal tells: the number of the question, the layer, the line and the field, each 0 where there is none to tell.
// In numbers, and not in options, since so C is told it and the listing prints it.
#[derive(Clone, Copy, Debug, PartialEq, Eq)]
pub struct Told {
    pub number: u8,
    pub layer: Layer,
    pub line: usize,
    pub field: usize,
}
