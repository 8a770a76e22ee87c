// The number of a refusal.
ghost use Rattle.std.specs.Prelude.{◌≡◌};
ghost use Rattle.writer.specs.Told.{settle_number};

use crate::fault::SettleFault;

// The question that is answered no.
impl From<SettleFault> for u8 {
    ghost from_gives = { λ fault number. number ≡ settle_number fault };

    fn from(fault: SettleFault) -> u8 {
        match fault {
            SettleFault::NoSuchLine => 21,
            SettleFault::NoSuchRow => 22,
            SettleFault::BufferShort => 23,
            SettleFault::Open => 24,
            SettleFault::TooLong => 25,
            SettleFault::OutputShort => 26,
        }
    }
}
