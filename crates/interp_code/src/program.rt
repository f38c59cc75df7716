//! The program that an interpretable text says.

use int_code::op::IntProgram;
use ladder_tree::names::Names;

/// What a text says: the cycle in microseconds, the names, and the operations.
///
/// A text does not tell memories from other bits, so `names.memories` is 0 and all bits are kept.
/// `code_line` is the number of the line `code`, counted from 1: operation k, counted from 0,
/// stands k + 1 lines behind it.
#[derive(Drop)]
pub struct InterpProgram {
    pub cycle: u32,
    pub names: Names,
    pub program: IntProgram,
    pub code_line: u32,
}
