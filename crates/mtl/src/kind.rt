// From a letter to its kind, and which fields a kind uses.
ghost use Rattle.std.specs.Prelude.{◌≡◌};
ghost use Rattle.std.specs.Option.{ok_or};
ghost use Rattle.mtl.specs.Kinds.{has_right, has_window, kind_at};
ghost use Rattle.mtl.specs.declared.line.LineFault.TheVariants.{UnknownKind};

use crate::line::{Kind, LineFault};

impl TryFrom<char> for Kind {
    type Error = LineFault;

    ghost try_from_gives = { λ letter kind. kind ≡ ok_or (kind_at letter) UnknownKind };

    fn try_from(letter: char) -> Result<Kind, LineFault> {
        match letter {
            'm' => Ok(Kind::Mark),
            'n' => Ok(Kind::Not),
            'a' => Ok(Kind::And),
            'o' => Ok(Kind::Or),
            'p' => Ok(Kind::Previous),
            'x' => Ok(Kind::Next),
            's' => Ok(Kind::Since),
            'u' => Ok(Kind::Until),
            _ => Err(LineFault::UnknownKind),
        }
    }
}

// The letter of a kind.
impl From<Kind> for char {
    ghost use Rattle.std.specs.Prelude.{Some};

    ghost from_gives = { λ kind letter. kind_at letter ≡ Some kind };

    fn from(kind: Kind) -> char {
        match kind {
            Kind::Mark => 'm',
            Kind::Not => 'n',
            Kind::And => 'a',
            Kind::Or => 'o',
            Kind::Previous => 'p',
            Kind::Next => 'x',
            Kind::Since => 's',
            Kind::Until => 'u',
        }
    }
}

impl Kind {
    // Whether a line of the kind has a window.
    pub fn has_window(self) -> bool
        ensures { result ≡ has_window self }
    {
        matches!(
            self,
            Kind::Previous | Kind::Next | Kind::Since | Kind::Until
        )
    }

    // Whether a line of the kind has a right operand.
    pub fn has_right(self) -> bool
        ensures { result ≡ has_right self }
    {
        matches!(self, Kind::And | Kind::Or | Kind::Since | Kind::Until)
    }
}
