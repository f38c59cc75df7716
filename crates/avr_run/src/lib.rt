//! The ATmega16 as the machine that runs the words of ladders.
#![tactic(auto)]

pub mod laws;
pub mod machine;
