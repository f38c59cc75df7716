//! The words of what is done to bytes and words, and of comparisons.

ghost use Rattle.std.specs.Prelude.{◌≡◌, ◌≤◌, ◌+◌, List};
ghost use Rattle.avr_code.specs.Code.{Piece, byte_set, byte_moved, byte_code, move_code, word_code, added, negate_code, compare_code, compared, against, size_in};
ghost use Rattle.byte_code.specs.declared.prim.ByteOp.TheVariants as bytes;

use crate::cells::{cell_words, is_nothing, pair_words, source_words, takes_number};
use byte_code::prim::{ByteOp, CompareOp, WordOp, WordSource};
use chip_tables::mega16::IO_FIRST;

/// The words of what is done to a byte.
pub(crate) fn byte_words(op: ByteOp) -> u32
    ensures value { size_in (byte_code op) ≡ result }
    ensures few { result ≤ 8 }
{
    match op {
        ByteOp::Put { to, value } => set_words(u32::from(to), value),
        ByteOp::Copy { to, from } => move_words(u32::from(to), u32::from(from)),
        ByteOp::Xor { to, a, b } => mix_words(to, a, b),
    }
}

/// The words by which a cell becomes a number, in front of others.
fn set_words(a: u32, x: u8) -> u32
    ensures value { (rest : List Piece) → size_in (byte_set a x rest) ≡ result + size_in rest }
    ensures few { result ≤ 3 }
{
    if x == 0 {
        cell_words(a)
    } else if takes_number(a) {
        1
    } else {
        1 + cell_words(a)
    }
}

/// The words by which a cell becomes another one, in front of others.
fn move_words(to: u32, from: u32) -> u32
    ensures value { (rest : List Piece) → size_in (byte_moved to from rest) ≡ result + size_in rest }
    ensures few { result ≤ 4 }
{
    if to < u32::from(IO_FIRST) {
        cell_words(from)
    } else if from < u32::from(IO_FIRST) {
        cell_words(to)
    } else {
        cell_words(from) + cell_words(to)
    }
}

fn mix_words(to: u16, a: u16, b: u16) -> u32
    ensures value { size_in (byte_code (bytes.Xor to a b)) ≡ result }
    ensures few { result ≤ 7 }
{
    let from = cell_words(u32::from(a));
    if to < IO_FIRST && (b < IO_FIRST && b != to) {
        from + 1
    } else {
        from + cell_words(u32::from(b)) + 1 + cell_words(u32::from(to))
    }
}

/// The words of what is done to a word.
pub(crate) fn word_words(op: WordOp) -> u32
    ensures value { size_in (word_code op) ≡ result }
    ensures few { result ≤ 16 }
{
    match op {
        WordOp::Move { to, from } => word_move_words(to, from),
        WordOp::Increment { to } | WordOp::Decrement { to } => 2 * pair_words(to) + 3,
        WordOp::Add { to, a, b } => pair_words(a) + added_words(b) + pair_words(to),
        WordOp::Subtract { to, a, b } => source_words(a) + source_words(b) + 2 + pair_words(to),
        WordOp::NegateIf { to, sign } => negate_words(to, sign),
        WordOp::MultiplyStep => 9,
        WordOp::DivideStep => 10,
    }
}

fn word_move_words(to: u16, from: WordSource) -> u32
    ensures value { size_in (move_code to from) ≡ result }
    ensures few { result ≤ 8 }
{
    let to = u32::from(to);
    match from {
        WordSource::Number { low, high } => set_words(to, low) + set_words(to + 1, high),
        WordSource::Cells(a) => {
            let from = u32::from(a);
            move_words(to, from) + move_words(to + 1, from + 1)
        }
    }
}

/// The words by which a word is added to R16 and R17.
fn added_words(b: WordSource) -> u32
    ensures value { size_in (added b) ≡ result }
    ensures few { result ≤ 6 }
{
    match b {
        WordSource::Cells(a) => pair_words(a) + 2,
        WordSource::Number { high, .. } => { if high == 0 { 3 } else { 4 } }
    }
}

fn negate_words(to: u16, sign: u16) -> u32
    ensures value { size_in (negate_code to sign) ≡ result }
    ensures few { result ≤ 16 }
{
    if to < IO_FIRST && sign < IO_FIRST {
        6
    } else {
        cell_words(u32::from(sign)) + 2 * pair_words(to) + 6
    }
}

/// The words of a comparison.
pub(crate) fn compare_words(op: CompareOp) -> u32
    ensures value { size_in (compare_code op) ≡ result }
    ensures few { result ≤ 10 }
{
    match op {
        CompareOp::Less { a, b } => {
            if is_nothing(b) {
                cell_words(u32::from(a) + 1) + 1
            } else {
                compared_words(a, b)
            }
        }
        CompareOp::Equal { a, b } => {
            if is_nothing(b) {
                pair_words(a) + 1
            } else {
                compared_words(a, b)
            }
        }
        CompareOp::Below { a, .. } => pair_words(a) + 2,
    }
}

fn compared_words(a: u16, b: WordSource) -> u32
    ensures value { size_in (compared a b) ≡ result }
    ensures few { result ≤ 10 }
{
    pair_words(a) + against_words(b)
}

/// The words by which R16 and R17 are compared with a word.
fn against_words(b: WordSource) -> u32
    ensures value { size_in (against b) ≡ result }
    ensures few { result ≤ 6 }
{
    match b {
        WordSource::Cells(a) => { if a < IO_FIRST { 2 } else { pair_words(a) + 2 } }
        WordSource::Number { high, .. } => { if high == 0 { 2 } else { 3 } }
    }
}
