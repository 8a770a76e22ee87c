//! The calls of `c_api`, exported for a program in C or Rust: a static library exports only what it defines itself, so each
//! call stands here again by its own name, with the same clauses.
#![tactic(auto)]

mod exports;
