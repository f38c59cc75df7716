//! One assembler for every chip of 16-bit words: what a chip gives it, and what its words then do.
#![tactic(auto)]

pub mod assemble;
pub mod machine;
pub mod words;
