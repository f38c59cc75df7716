//! A chip's words on the chip's written machine, over the readings of a trace, with a line for each cycle.
#![tactic(auto)]

pub mod end;
pub mod laws;
pub mod machine;
pub mod pins;
pub mod replay;
mod segment;
pub mod shown;
