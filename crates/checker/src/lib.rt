//! The checker of certificates: from a certificate's bytes to the claim that it proves, or to the first question answered no.
#![tactic(auto)]

pub mod check;
pub mod fault;
mod judge;
mod parts;
mod view;
