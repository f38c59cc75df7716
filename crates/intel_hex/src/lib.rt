//! Images of a chip's program memory as Intel HEX files, written and read.
#![tactic(auto)]

pub mod fault;
pub mod image;
pub mod kept;
pub mod laws;
pub mod loaded;
pub mod read;
pub mod record;
pub mod said;
pub mod write;
