//! From flat operations to code of the byte machine.
#![tactic(auto)]

mod calls;
mod guard;
pub mod laws;
pub mod layout;
mod numbers;
pub mod operation;
pub mod pins;
mod places;
pub mod program;
mod push;
mod table;
