//! The ATmega16 as a chip of the assembler: the words of each primitive's code.
#![tactic(auto)]

mod bits;
pub mod chip;
mod insns;
mod numbers;
pub mod program;
mod start;
mod tables;
