//! A simulator that is run over a trace, with a line for each cycle.
#![tactic(auto)]

mod run;

pub use run::{eeprom, run_sim};
