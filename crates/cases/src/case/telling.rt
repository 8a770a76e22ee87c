// The number of a refusal of Show: the question that is answered no.
ghost use Rattle.std.specs.Prelude.{◌≡◌};
ghost use Rattle.cases.specs.View.{show_number};

use crate::case::ShowFault;

impl From<ShowFault> for u8 {
    ghost from_gives = { λ fault number. number ≡ show_number fault };

    fn from(fault: ShowFault) -> u8 {
        match fault {
            ShowFault::NoSuchLine => 21,
            ShowFault::NoSuchRow => 22,
        }
    }
}
