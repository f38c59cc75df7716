//! A PIC16F628 or PIC16F877 as far as this project's programs need it: its instructions, its state and its step.
#![tactic(auto)]

mod access;
mod asks;
mod control;
mod exec;
mod file;
mod insn;
mod operations;
mod state;
mod step;

pub use insn::{Destination, PicInsn, decode, encode};
pub use state::{Acted, Flow, PicState};
