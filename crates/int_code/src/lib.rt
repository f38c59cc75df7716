//! Flat operations over numbered bits, and what they do.
#![tactic(auto)]

pub mod cycle;
mod device;
mod execute;
pub mod laws;
pub mod limits;
pub mod op;
mod operand;
pub mod range;
pub mod state;
pub mod text;
pub mod well_formed;
