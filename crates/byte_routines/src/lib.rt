//! Code of the byte machine for products and quotients.
#![tactic(auto)]

pub mod laws;
pub mod push;
pub mod routines;
