//! Where a program's variables and kept bits stand in a target's memory, whether it has room for them, and what a chip's pins
//! show where a ladder sees a reading.
#![tactic(auto)]

pub mod fault;
pub mod laws;
pub mod pins;
pub mod places;
pub mod plan;
pub mod sizes;
