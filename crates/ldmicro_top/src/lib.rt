//! The top call: what the words of the command line ask for is done over any files and any output.
#![tactic(auto)]

pub mod compile;
mod duty;
pub mod judge;
mod kept;
pub mod laws;
mod machine;
pub mod report;
pub mod run;
pub mod sources;
pub mod status;
pub mod traced;
pub mod words;
