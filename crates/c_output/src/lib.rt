//! A project as a C text, whose function does the ladder's cycles.
#![tactic(auto)]

mod device;
mod element;
mod filled;
mod node;
mod operand;
pub mod write;
