//! The subject: rows, rule lines, rule tables, rulings, claims and the nodes of certificates.
#![tactic(auto)]

pub mod draft;
pub mod kind;
pub mod laws;
pub mod line;
pub mod row;
pub mod ruling;
pub mod table;
