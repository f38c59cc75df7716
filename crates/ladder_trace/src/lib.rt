//! Traces, which are the readings of a run, and the lines that a run shows.
#![tactic(auto)]

pub mod duty;
mod levels;
mod reader;
pub mod shown;
mod token;
pub mod trace;
