//! Interpretable texts: a program of operations as lines of words, and the machine that runs it.
#![tactic(auto)]

pub mod laws;
mod line;
pub mod machine;
mod operation;
pub mod program;
pub mod read;
mod reader;
mod word;
pub mod write;
