//! What the code asks of a cell and of a word, and the words of the instructions that take or give a cell.

ghost use Rattle.std.specs.Prelude.{◌≡◌, ◌≤◌, ◌+◌, ℕ};
ghost use Rattle.avr_mach.specs.Words.{size_of};
ghost use Rattle.avr_code.specs.Code.{Loads, Stores, insn_of, is_wire, takes_number, is_nothing, by_cell, word_loaded, word_stored, size_in};

use byte_code::prim::WordSource;
use chip_tables::mega16::IO_FIRST;

/// Whether the cell is a register whose lowest bit is a wire.
pub fn is_wire(a: u16) -> bool
    ensures { result ≡ is_wire a }
{
    a == 20 || 2 <= a && a <= 9
}

/// Whether the cell is a register that LDI takes.
pub fn takes_number(a: u32) -> bool
    ensures { result ≡ takes_number a }
{
    16 <= a && a < u32::from(IO_FIRST)
}

/// Whether a word is the number 0.
pub fn is_nothing(from: WordSource) -> bool
    ensures { result ≡ is_nothing from }
{
    match from {
        WordSource::Cells(_) => false,
        WordSource::Number { low, high } => low == 0 && high == 0,
    }
}

/// The number for what a cell is: the wire of R20, another wire, or a byte.
pub(crate) fn by_cell(a: u16, power: u32, wire: u32, byte: u32) -> u32
    ensures value { result ≡ by_cell a power wire byte }
    ensures within { (n : ℕ) → power ≤ n → wire ≤ n → byte ≤ n → result ≤ n }
{
    if a == 20 {
        power
    } else if is_wire(a) {
        wire
    } else {
        byte
    }
}

/// The words by which a register takes a cell, or a cell a register.
pub(crate) fn cell_words(a: u32) -> u32
    ensures loads { (r : ℕ) → size_of (insn_of (Loads r a)) ≡ result }
    ensures stores { (r : ℕ) → size_of (insn_of (Stores a r)) ≡ result }
    ensures few { result ≤ 2 }
{
    if a < u32::from(IO_FIRST) { 1 } else { 2 }
}

/// The words by which two registers take a word's cells, or they the registers.
pub(crate) fn pair_words(a: u16) -> u32
    ensures loads { (r s : ℕ) → size_of (insn_of (Loads r a)) + size_of (insn_of (Loads s (a + 1))) ≡ result }
    ensures stores { size_in (word_stored a) ≡ result }
    ensures few { result ≤ 4 }
{
    let a = u32::from(a);
    cell_words(a) + cell_words(a + 1)
}

/// The words by which two registers take a word.
pub(crate) fn source_words(from: WordSource) -> u32
    ensures value { (r : ℕ) → size_in (word_loaded r from) ≡ result }
    ensures few { result ≤ 4 }
{
    match from {
        WordSource::Cells(a) => pair_words(a),
        WordSource::Number { .. } => 2,
    }
}
