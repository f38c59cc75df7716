//! What a ladder does: the definitions stand in `specs`, and what a cycle is given and shows stands here.
#![tactic(auto)]

pub mod laws;
pub mod reading;
