//! Code of the byte machine for the ATmega16: that what keeps to a layout is admitted by the chip's target, and has a board where a project keeps the rules.
#![tactic(auto)]

pub mod firmware;
pub mod laws;
