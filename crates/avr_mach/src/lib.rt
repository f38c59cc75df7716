//! An ATmega16 as far as this project's programs need it: its instructions, its state and its step.
#![tactic(auto)]

mod access;
mod arithmetic;
mod asks;
mod control;
mod exec;
mod insn;
mod memory;
mod state;
mod step;
mod transfer;

pub use insn::{AvrInsn, decode, encode, size_of};
pub use state::{Acted, AvrState, Flow};
