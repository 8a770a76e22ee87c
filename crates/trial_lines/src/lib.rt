//! A line with a window over two marks, as the trial programs enter it.
#![tactic(auto)]

pub mod windowed;
