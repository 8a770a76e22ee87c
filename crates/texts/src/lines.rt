// The lines of a text, after the questions on its length and its bytes.
ghost use Rattle.texts.specs.Lines.{Begins};

use crate::fault::TextFault;
use fields::lines::Lines;
use fields::scan::wrong_line;

// The lines of a text whose length and bytes are right.
#[tactic(auto, using(fields::proofs::Cut::lines_few))]
pub(crate) fn right_lines<'a>(text: &'a [u8]) -> Result<Lines<'a>, TextFault>
    ensures { Begins result text.now }
{
    if text.len() > 16384 {
        return Err(TextFault::TooLong);
    }
    if let Some(line) = wrong_line(text) {
        return Err(TextFault::WrongByte { line });
    }
    Ok(Lines { rest: text })
}
