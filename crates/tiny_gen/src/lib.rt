//! The smallest chip: a machine of thirteen instructions and its code for some primitives, as the shortest example of what the assembler asks of a chip.
#![tactic(auto)]

pub mod emits;
pub mod laws;
pub mod program;
pub mod state;
