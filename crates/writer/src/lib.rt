//! Settling: from a rule table and the rows of a log to rulings, least sizes and shortest certificates.
#![tactic(auto)]

mod cells;
mod children;
mod choose;
mod column;
pub mod fault;
mod fill;
mod known;
mod log_rows;
mod neighbours;
mod nodes;
mod offer;
mod plan;
mod rows;
pub mod settle;
mod since;
mod spot;
mod sums;
mod until;
mod way;
mod ways;
mod write;
