//! A second evaluator, coded apart from the library: truth, ways to rule, least certificates, their reading, and reach, each straight
//! from its definition. It shares no type and no function with the crates that it is compared with.
#![tactic(auto)]

pub mod grid;
pub mod reach;
pub mod reading;
pub mod rules;
mod shapes;
pub mod shortest;
pub mod told;
pub mod truth;
pub mod ways;
pub mod world;
