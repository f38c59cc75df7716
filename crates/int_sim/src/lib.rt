//! The simulator: a program and its state, cycle by cycle.
#![tactic(auto)]

mod sim;

pub use sim::{Sim, has_pwm};
