//! The words and cycles that the rules count for a project are enough for its code, on each chip whose weights of primitives keep to the table of costs.
#![tactic(auto)]

pub mod laws;
