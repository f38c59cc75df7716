//! HEX files of ladders for the ATmega16: what is written for a project, and what a file does over a trace.
#![tactic(auto)]

pub mod laws;
pub mod run;
pub mod write;
