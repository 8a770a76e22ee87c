//! The calls for a program in C or Rust: exported functions over bytes, which keep nothing.
#![tactic(auto)]

pub mod answer;
mod border;
pub mod calls;
mod inputs;
mod judging;
pub mod laws;
mod refusal;
