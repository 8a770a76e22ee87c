// The number and the node of a refusal.
use crate::fault::{CheckFault, RefusedAt};

impl From<CheckFault> for RefusedAt {
    ghost use Rattle.std.specs.Prelude.{◌≡◌};
    ghost use Rattle.checker.specs.Told.{fault_told};

    ghost from_gives = { λ fault at. (at.number ≡ (fault_told fault).0) × (at.node ≡ (fault_told fault).1) };

    fn from(fault: CheckFault) -> RefusedAt {
        let (number, node) = match fault {
            CheckFault::NotWholeNodes => (11, 0),
            CheckFault::TooLong => (12, 0),
            CheckFault::StackTooShort => (13, 0),
            CheckFault::NoSuchLine { node } => (14, node),
            CheckFault::RuleOfOtherKind { node } => (15, node),
            CheckFault::NoSuchRow { node } => (16, node),
            CheckFault::WrongCount { node } => (17, node),
            CheckFault::WrongChild { node } => (18, node),
            CheckFault::ConditionNotMet { node } => (19, node),
            CheckFault::NotOneLeft { nodes } => (20, nodes),
        };
        RefusedAt { number, node }
    }
}
