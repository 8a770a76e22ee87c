//! The lines of a text and their fields: which bytes a text may have, how it is cut, and the forms of numbers and names.
#![tactic(auto)]

pub mod first;
pub mod lines;
pub mod names;
pub mod number;
pub mod scan;
pub mod shape;
mod state;
pub mod token;
