//! What the ATmega16's code takes for each kind of primitive, and that it keeps to the table of costs.
#![tactic(auto)]

pub mod laws;
