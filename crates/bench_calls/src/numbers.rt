// From the answers of Check and Settle to numbers.
ghost use Rattle.std.specs.Prelude.{◌≡◌};
ghost use Rattle.checker.specs.Told.{told as check_told};
ghost use Rattle.writer.specs.Told.{told as settle_told};
ghost use Rattle.bench_calls.specs.Numbers.{check_numbers, settle_numbers};

use crate::answers::{Checked, Settling};
use checker::fault::{CheckFault, RefusedAt};
use mtl::ruling::{Claim, Ruling, Settled};
use writer::fault::SettleFault;

// What Check answered.
impl From<Result<Claim, CheckFault>> for Checked {
    ghost from_gives = { λ answer numbers. numbers ≡ check_numbers (check_told answer) };

    fn from(answer: Result<Claim, CheckFault>) -> Checked {
        match answer {
            Ok(claim) => Checked {
                question: 0,
                node: 0,
                line: claim.line,
                row: claim.row,
                held: claim.ruling == Ruling::Held,
            },
            Err(fault) => {
                let RefusedAt {
                    number: question,
                    node,
                } = fault.into();
                Checked {
                    question,
                    node,
                    ..Checked::default()
                }
            }
        }
    }
}

// What Settle answered.
impl From<Result<Settled, SettleFault>> for Settling {
    ghost from_gives = { λ answer numbers. numbers ≡ settle_numbers (settle_told answer) };

    fn from(answer: Result<Settled, SettleFault>) -> Settling {
        match answer {
            Ok(settled) => Settling {
                question: 0,
                size: settled.size,
                held: settled.ruling == Ruling::Held,
            },
            Err(fault) => Settling {
                question: fault.into(),
                ..Settling::default()
            },
        }
    }
}
