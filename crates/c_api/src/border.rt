// The border to C: every answer and every refusal in numbers.
ghost use Rattle.std.specs.Prelude.{◌≡◌};
ghost use Rattle.c_api.specs.Answers.{ruling_code, of_claim, of_settled};
ghost use Rattle.c_api.specs.Readings.{telling};
ghost use Rattle.c_api.specs.Refusals.{layer_code, in_text, at_node, refused_by, refused_or_none};

use crate::answer::{CheckAnswer, Refused, SettleAnswer};
use crate::refusal::Refusal;
use checker::fault::RefusedAt;
use mtl::ruling::{Claim, Ruling, Settled};
use texts::fault::{Layer, Told};

// C tells layers and rulings by numbers; both types are of other crates, so that no From can stand here.
fn layer_code(layer: Layer) -> u32
    ensures { result ≡ layer_code layer }
{
    match layer {
        Layer::Text => 1,
        Layer::Table => 2,
        Layer::Log => 3,
    }
}

fn ruling_code(ruling: Ruling) -> u32
    ensures { result ≡ ruling_code ruling }
{
    match ruling {
        Ruling::Held => 1,
        Ruling::Broken => 2,
    }
}

// A refusal of the text of this code.
fn in_text(text: u32, told: Told) -> Refused
    ensures { result ≡ in_text text told }
{
    Refused {
        number: told.number.into(),
        text,
        layer: layer_code(told.layer),
        line: told.line,
        field: told.field,
        node: 0,
    }
}

// A refusal that has no place but perhaps a node.
fn at_node(number: u8, node: usize) -> Refused
    ensures { result ≡ at_node number node }
{
    Refused {
        number: number.into(),
        node,
        ..Refused::default()
    }
}

impl From<Refusal> for Refused {
    ghost from_gives = { λ refusal refused. refused ≡ refused_by refusal };

    fn from(refusal: Refusal) -> Refused {
        match refusal {
            Refusal::Rules(fault) => in_text(1, fault.into()),
            Refusal::Log(fault) => in_text(2, fault.into()),
            Refusal::Check(fault) => {
                let RefusedAt { number, node } = fault.into();
                at_node(number, node)
            }
            Refusal::Settle(fault) => at_node(fault.into(), 0),
        }
    }
}

// The refusal of a text, or none where it is read.
impl From<Result<(), Refusal>> for Refused {
    ghost from_gives = { λ read refused. refused ≡ refused_or_none (telling read) };

    fn from(read: Result<(), Refusal>) -> Refused {
        match read {
            Ok(()) => Refused::default(),
            Err(refusal) => refusal.into(),
        }
    }
}

// Check's answer in numbers.
impl From<Result<Claim, Refusal>> for CheckAnswer {
    ghost from_gives = { λ found answer. answer ≡ of_claim (telling found) };

    fn from(found: Result<Claim, Refusal>) -> CheckAnswer {
        match found {
            Ok(claim) => CheckAnswer {
                refusal: Refused::default(),
                line: claim.line.into(),
                row: claim.row.into(),
                ruling: ruling_code(claim.ruling),
            },
            Err(refusal) => CheckAnswer {
                refusal: refusal.into(),
                ..CheckAnswer::default()
            },
        }
    }
}

// Settle's answer in numbers.
impl From<Result<Settled, Refusal>> for SettleAnswer {
    ghost from_gives = { λ found answer. answer ≡ of_settled (telling found) };

    fn from(found: Result<Settled, Refusal>) -> SettleAnswer {
        match found {
            Ok(settled) => SettleAnswer {
                refusal: Refused::default(),
                ruling: ruling_code(settled.ruling),
                size: settled.size.into(),
            },
            Err(refusal) => SettleAnswer {
                refusal: refusal.into(),
                ..SettleAnswer::default()
            },
        }
    }
}
