// The number and the place of a refusal.
ghost use Rattle.std.specs.Prelude.{◌≡◌};
ghost use Rattle.texts.specs.Faults.{in_text, told};

use crate::fault::{Layer, TextFault, Told};

// A refusal by the text itself.
fn by_text(number: u8, line: usize, field: usize) -> Told
    ensures { result ≡ in_text number line field }
{
    Told {
        number,
        layer: Layer::Text,
        line,
        field,
    }
}

// What a refusal tells.
impl From<TextFault> for Told {
    ghost from_gives = { λ fault refusal. refusal ≡ told fault };

    fn from(fault: TextFault) -> Told {
        match fault {
            TextFault::TooLong => by_text(27, 0, 0),
            TextFault::WrongByte { line } => by_text(28, line, 0),
            TextFault::WrongNames => by_text(29, 1, 0),
            TextFault::WrongFields { line } => by_text(30, line, 0),
            TextFault::WrongForm { line, field } => by_text(31, line, field),
            TextFault::Table { line, fault } => Told {
                number: fault.into(),
                layer: Layer::Table,
                line,
                field: 0,
            },
            TextFault::Log { line, fault } => Told {
                number: fault.into(),
                layer: Layer::Log,
                line,
                field: 0,
            },
        }
    }
}
