//! What one line of a project text says: tokens, numbers, names, elements, and the lines of the header and the pins.
#![tactic(auto)]

pub mod element;
pub mod header;
pub mod laws;
pub mod number;
pub mod operand;
pub mod pins;
pub mod rungs;
pub mod said;
pub mod target;
pub mod tokens;
pub mod word;
