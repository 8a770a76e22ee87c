//! Rule tables and logs written as the texts that `texts` reads.
#![tactic(auto)]

pub mod laws;
pub mod log;
mod log_line;
mod rule_line;
pub mod rules;
