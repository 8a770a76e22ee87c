//! The case: a rule table, a growing log, and a book that keeps the rulings.
#![tactic(auto)]

mod book;
pub mod case;
