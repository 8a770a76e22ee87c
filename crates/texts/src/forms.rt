// The fields of a rules line, each in its form.
ghost use Rattle.std.specs.Prelude.{◌≡◌, true, Option};
ghost use Rattle.fields.specs.Cuts.{shaped, fields_of};
ghost use Rattle.fields.specs.Tokens.{said};
ghost use Rattle.texts.specs.Forms.{used_in, end_in, next_in, letter_in, or_fault, spot_of, formed_by, Six};

use crate::entry::{Entry, RuleFields};
use crate::fault::TextFault;
use fields::number::number;
use fields::token::{Lexer, Placed, Token};
use mtl::line::{Fields, Kind};

// What `read` makes of a field, or the fault that tells where the field stands.
pub(crate) fn in_form<'a, X: Drop, F: FnOnce(Token<'a>) -> Option<X>>(
    placed: Placed<'a>,
    read: F,
) -> Result<X, TextFault>
    requires { F.pre read placed.token }
    ensures { (value : Option X) × F.post read placed.entry.token value × (result ≡ or_fault (spot_of placed.entry) value) }
{
    read(placed.token).ok_or(TextFault::WrongForm {
        line: placed.line,
        field: placed.field,
    })
}

// A number.
fn field_number(token: Token<'_>) -> Option<u32>
    ensures { result ≡ used_in true (said token.entry) }
{
    token.word().and_then(number)
}

// A number where the field is used, and `-` where it is not.
// `used` is the kind's own answer, handed on: two functions would only move the branch into the caller.
fn used_number(token: Token<'_>, used: bool) -> Option<u32>
    ensures { result ≡ used_in used (said token.entry) }
{
    match token {
        Token::Word(word) if used => number(word),
        Token::Dash if !used => Some(0),
        _ => None,
    }
}

// The end of a window: a number, or `-` for none. The outer None says that the field is not in form, the inner one that there is no end.
// `used` is the kind's own answer, handed on, as above.
fn window_end(token: Token<'_>, used: bool) -> Option<Option<u32>>
    ensures { result ≡ end_in used (said token.entry) }
{
    match token {
        Token::Word(word) if used => number(word).map(Some),
        Token::Dash => Some(None),
        _ => None,
    }
}

// The number of the next line.
fn next_number(token: Token<'_>, next: u32) -> Option<u32>
    ensures { result ≡ next_in next (said token.entry) }
{
    field_number(token).filter(|number| *number == next)
}

// One letter a to z.
fn kind_letter(token: Token<'_>) -> Option<char>
    ensures { result ≡ letter_in (said token.entry) }
{
    match token {
        Token::Word([letter @ b'a'..=b'z']) => Some(char::from(*letter)),
        _ => None,
    }
}

// The six fields of a line that has six. That it has so many is asked just before; a type for such a line would say no more.
pub(crate) fn six_fields<'a>(text: &'a [u8], line: usize) -> RuleFields<'a>
    requires { shaped 6 (fields_of text.now) ≡ true }
    ensures { Six result line (fields_of text.now) }
{
    let mut lexer = Lexer::new(text, line);
    RuleFields {
        line: lexer.next(),
        kind: lexer.next(),
        from: lexer.next(),
        to: lexer.next(),
        left: lexer.next(),
        right: lexer.next(),
    }
}

// What the fields say, or the first that is not in form.
pub(crate) fn entry_of(fields: &RuleFields<'_>, next: u32) -> Result<Entry, TextFault>
    ensures { result ≡ formed_by next (spot_of fields.now.line) (spot_of fields.now.kind) (spot_of fields.now.from) (spot_of fields.now.to) (spot_of fields.now.left) (spot_of fields.now.right) }
{
    in_form(fields.line, |token| next_number(token, next))?;
    let letter = in_form(fields.kind, kind_letter)?;
    let Ok(kind) = Kind::try_from(letter) else {
        return Ok(Entry {
            letter,
            fields: Fields::default(),
        });
    };
    let from = in_form(fields.from, |token| used_number(token, kind.has_window()))?;
    let to = in_form(fields.to, |token| window_end(token, kind.has_window()))?;
    let left = in_form(fields.left, field_number)?;
    let right = in_form(fields.right, |token| used_number(token, kind.has_right()))?;
    Ok(Entry {
        letter,
        fields: Fields {
            from,
            to,
            left,
            right,
        },
    })
}
