//! What the comparing programs share: random inputs and continuations, the way to the library's types and back, and counts.
#![tactic(auto)]

pub mod dice;
pub mod futures;
pub mod inputs;
pub mod library;
pub mod tally;
pub mod work;
