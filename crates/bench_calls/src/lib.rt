//! Check and Settle for a caller that measures them: the texts are read once, and the call is made again and again.
#![tactic(auto)]

pub mod answers;
pub mod calls;
mod numbers;
mod repeats;
mod texts_read;
