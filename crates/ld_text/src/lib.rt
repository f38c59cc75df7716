//! Project texts: what they stand for, and the first fault of those that stand for nothing.
#![tactic(auto)]

pub mod fault;
mod forms;
mod heard;
pub mod laws;
mod place;
pub mod read;
pub mod reader;
