// What a line of text is cut into, and the lexer that cuts it.
mod steps;

ghost use Rattle.std.specs.Prelude.{◌≡◌, ◌+◌, ◌-◌, ◌≤◌, true, length, take, drop};
ghost use Rattle.fields.specs.States.{agrees, past};

use crate::state::State;

// A field of a line, or that there is none left.
#[derive(Clone, Copy)]
pub enum Token<'a> {
    // The field, as that part of the text itself; it is empty where spaces have nothing between them.
    Word(&'a [u8]),
    // The field `-`.
    Dash,
    // No field is left. A token and no None of an Option: it has a line and a field too, and a reader sets it beside the other two in one match.
    LineEnd,
}

impl<'a> Token<'a> {
    ghost use Rattle.std.specs.Prelude.{MatchOption};
    ghost use Rattle.fields.specs.Tokens.{said, word_in};

    // The field's bytes, where it is a word.
    pub fn word(self) -> Option<&'a [u8]>
        ensures { MatchOption result (word_in (said self.entry) ≡ None) (λ w. word_in (said self.entry) ≡ Some w.now) }
    {
        match self {
            Token::Word(word) => Some(word),
            Token::Dash | Token::LineEnd => None,
        }
    }
}

// A token with its line and field, both from 1.
#[derive(Clone, Copy)]
pub struct Placed<'a> {
    pub token: Token<'a>,
    pub line: usize,
    pub field: usize,
}

// Cuts one line into its fields: `from` is where the field began, `at` the next byte, and `field` the field's number.
// The lexer steps in place, so it keeps places in the text, a wanted form (docs/DECISIONS.md).
#[derive(Drop)]
pub struct Lexer<'a> {
    text: &'a [u8],
    at: usize,
    from: usize,
    line: usize,
    field: usize,
    state: State,
    ghost within: { (from ≤ at) × (at ≤ length text.now) × (field ≤ at + past state) },
    ghost sofar: { agrees state (take (at - from) (drop from text.now)) ≡ true },
}
