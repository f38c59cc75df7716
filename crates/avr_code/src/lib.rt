//! The code of each primitive of the byte machine on the ATmega16, and that it does what the primitive does.
#![tactic(auto)]

pub mod laws;
