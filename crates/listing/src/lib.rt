//! From the program's whole input, a rules text and a log text, to its listing.
#![tactic(auto)]

mod fault;
pub mod laws;
pub mod listing;
mod row_line;
mod rows;
mod split;
