//! Runs of a deterministic machine that asks the outside: what a drive, a moment and a segment are, for every machine of this project.
#![tactic(auto)]

pub mod ask;
pub mod laws;
