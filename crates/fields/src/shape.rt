// How many fields a line has.
ghost use Rattle.std.specs.Prelude.{◌≡◌};
ghost use Rattle.fields.specs.Cuts.{shaped, fields_of};
ghost use Rattle.fields.specs.Tokens.{is_field, is_end, said};

use crate::token::{Lexer, Token};

fn is_field(token: Token<'_>) -> bool
    ensures { result ≡ is_field (said token.entry) }
{
    !matches!(token, Token::Word([]) | Token::LineEnd)
}

fn is_end(token: Token<'_>) -> bool
    ensures { result ≡ is_end (said token.entry) }
{
    matches!(token, Token::LineEnd)
}

// Whether a line has `count` fields, none of them empty.
#[tactic(auto, using(crate::proofs::Shapes::shaped_turn, crate::proofs::Shapes::shaped_none))]
pub fn has_fields(line: &[u8], count: usize) -> bool
    ensures { result ≡ shaped count (fields_of line.now) }
{
    let mut lexer = Lexer::new(line, 0);
    // A loop, and not `all`: of a lexer that a closure moves on it is not known where it stands afterwards.
    for _ in 0..count {
        if !is_field(lexer.next().token) {
            return false;
        }
    }
    is_end(lexer.next().token)
}
