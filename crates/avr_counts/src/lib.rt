//! How many words and cycles the ATmega16's code of each primitive takes.
#![tactic(auto)]

mod bits;
pub mod cells;
pub mod counts;
mod numbers;
mod tables;
