// The fields of a rules line.
use fields::token::Placed;
use mtl::line::Fields;

// As they stand in the text.
#[derive(Clone, Copy)]
pub struct RuleFields<'a> {
    pub line: Placed<'a>,
    pub kind: Placed<'a>,
    pub from: Placed<'a>,
    pub to: Placed<'a>,
    pub left: Placed<'a>,
    pub right: Placed<'a>,
}

// As they are entered into a draft. By its letter, and not its kind: that no kind has the letter is the table's question, after its room.
#[derive(Clone, Copy)]
pub struct Entry {
    pub letter: char,
    pub fields: Fields,
}
