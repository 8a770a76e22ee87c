//! Trials of the exported functions on the worked example, as another program calls them.
#![tactic(auto)]

#[cfg(test)]
mod tests;
