// The lexer of a line, one byte at a time.
ghost use Rattle.std.specs.Prelude.{◌≡◌, ◌<◌, ◌≤◌, length, slice_index};
ghost use Rattle.fields.specs.Lexing.{left, Gave, Open, CutOff, Stepped};
ghost use Rattle.fields.specs.Cuts.{fields_of, Whole};
ghost use Rattle.fields.specs.Tokens.{said};

use crate::state::State;
use crate::token::{Lexer, Placed, Token};

impl<'a> Lexer<'a> {
    // A lexer before the first field of a line, which is given without its end; `line` is its number.
    pub fn new(text: &'a [u8], line: usize) -> Lexer<'a>
        ensures left { left result ≡ fields_of text.now }
        ensures place { (result.line ≡ line) × (result.field ≡ 1) }
        ensures whole { Whole text.now }
    {
        Lexer {
            text,
            at: 0,
            from: 0,
            line,
            field: 1,
            state: State::Fresh,
        }
    }

    // The field's bytes, where a space ends it; the next field begins after the space.
    fn cut(&mut self) -> &'a [u8]
        requires { (self.old.at < length self.old.text.now) × ((slice_index self.old.text.now self.old.at ≡ 32) × (Open self.old.state)) }
        ensures { CutOff self.old self.new result.now }
    {
        let word = &self.text[self.from..self.at];
        self.at += 1;
        self.from = self.at;
        self.field += 1;
        self.state = State::Fresh;
        word
    }

    // One step, at the byte that stands at the lexer's place. One match on state and byte, in place, is a wanted form (docs/DECISIONS.md).
    fn step(&mut self, byte: u8) -> Option<Token<'a>>
        requires { (self.old.at < length self.old.text.now) × (byte ≡ slice_index self.old.text.now self.old.at) }
        ensures { Stepped self.old self.new result }
    {
        match (self.state, byte) {
            (State::Ended, _) => Some(Token::LineEnd),
            (State::Dashed, b' ') => {
                self.cut();
                Some(Token::Dash)
            }
            (State::Fresh | State::Inside, b' ') => Some(Token::Word(self.cut())),
            (State::Fresh, b'-') => {
                self.at += 1;
                self.state = State::Dashed;
                None
            }
            (_, _) => {
                self.at += 1;
                self.state = State::Inside;
                None
            }
        }
    }

    // The last field of the line, or the line's end.
    fn end(&mut self) -> Token<'a>
        requires { length self.old.text.now ≤ self.old.at }
        ensures { Gave self.old self.new (said result) }
    {
        match self.state {
            State::Ended => Token::LineEnd,
            State::Dashed => {
                self.field += 1;
                self.state = State::Ended;
                Token::Dash
            }
            State::Fresh | State::Inside => {
                self.field += 1;
                self.state = State::Ended;
                Token::Word(&self.text[self.from..self.at])
            }
        }
    }

    // The next token, with its line and field. No iterator's `next`: the line's end has a place too, and comes again past the end.
    pub fn next(&mut self) -> Placed<'a>
        ensures gave { Gave self.old self.new (said result.token) }
        ensures place { (result.line ≡ self.old.line) × (result.field ≡ self.old.field) }
    {
        let line = self.line;
        let field = self.field;
        while let Some(&byte) = self.text.get(self.at) {
            if let Some(token) = self.step(byte) {
                return Placed { token, line, field };
            }
        }
        let token = self.end();
        Placed { token, line, field }
    }
}
