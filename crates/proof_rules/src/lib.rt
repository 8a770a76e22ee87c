//! The proof rules by their numbers: which kind of line each is for, how many children it takes, what it asks of the
//! row beside, and what it rules.
#![tactic(auto)]

pub mod fitting;
pub mod standing;
