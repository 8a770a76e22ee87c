//! The two texts: a rules text is read into a draft, and a log text into a growing log.
#![tactic(auto)]

mod entry;
pub mod fault;
mod forms;
mod lines;
pub mod log;
mod marks;
pub mod rules;
