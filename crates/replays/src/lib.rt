//! Calls on a case as values: a list of them is made on an opened case, and what happened is a run that keeps the law.
#![tactic(auto)]

pub mod call;
pub mod replay;
