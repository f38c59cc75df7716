//! From ladders to flat operations with the same history.
#![tactic(auto)]

mod devices;
mod element;
pub mod layout;
mod node;
mod numbers;
pub mod places;
mod power;
pub mod program;
mod push;
pub mod starts;
mod survey;
