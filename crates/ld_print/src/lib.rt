//! A project as a text, which reads as the same project.
#![tactic(auto)]

pub mod laws;
pub mod words;
pub mod write;
