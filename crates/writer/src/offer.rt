// The least way found so far to rule a claim.
ghost use Rattle.std.specs.Prelude.{◌≡◌};
ghost use Rattle.writer.specs.Choice.{code_of};

use std::num::NonZeroU16;

// A rule, and the row j where it leaves a choice, else 0. Rules go by their numbers here as everywhere: a certificate's bytes have those.
#[derive(Clone, Copy)]
pub struct Pick {
    pub rule: u8,
    pub row: u8,
}

// A pick as a cell of the plan, which is a lent table of numbers.
impl From<Pick> for u16 {
    ghost from_gives = { λ pick code. code ≡ code_of pick };

    fn from(pick: Pick) -> u16 {
        u16::from_be_bytes([pick.rule, pick.row])
    }
}

impl From<u16> for Pick {
    ghost from_gives = { λ code pick. code_of pick ≡ code };

    fn from(code: u16) -> Pick {
        let [rule, row] = code.to_be_bytes();
        Pick { rule, row }
    }
}

// A size, and what gives it.
#[derive(Clone, Copy)]
pub struct Offer {
    pub size: NonZeroU16,
    pub pick: Pick,
}
