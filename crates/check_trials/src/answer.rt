// An answer of Check as a line of the listing: the claim, or the question's number and the node.
use checker::fault::{CheckFault, RefusedAt};
use mtl::ruling::Claim;
use std::fmt;

#[derive(Clone, Copy, PartialEq)]
pub struct Answer {
    pub told: Result<Claim, CheckFault>,
}

impl fmt::Display for Answer {
    fn fmt<W: fmt::Write>(&self, f: &mut fmt::Formatter<W>) -> fmt::Result {
        match self.told {
            Ok(Claim { line, row, ruling }) => write!(f, "accepted {line} {row} {ruling}"),
            Err(fault) => {
                let RefusedAt { number, node } = fault.into();
                write!(f, "{number} {node}")
            }
        }
    }
}
