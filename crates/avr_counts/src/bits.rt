//! The words of what is done to bits, and of jumps by a test.

ghost use Rattle.std.specs.Prelude.{◌≡◌, ◌≤◌, ◌+◌, ℕ, Bool};
ghost use Rattle.byte_code.specs.declared.prim.BitSource.{BitSource};
ghost use Rattle.byte_code.specs.declared.prim.FlagKind.{FlagKind};
ghost use Rattle.avr_code.specs.Code.{fetch_code, held_code, put_code, put_wire, put_byte, put_wire_if, put_byte_if, copy_wire, copy_byte, wire_taken, copy_code, put_if_code, put_on_flag_code, bit_code, test_code, size_in, bit_cycles, latch_cycles};
ghost use Rattle.avr_counts.specs.Tested.{put_where};

use crate::cells::{by_cell, cell_words, is_wire};
use byte_code::prim::{BitDest, BitOp, BitSource, Test};
use chip_tables::mega16::IO_FIRST;

/// How many cycles more than words it takes.
pub(crate) fn bit_cycles(op: BitOp) -> u32
    ensures value { result ≡ bit_cycles op }
    ensures few { result ≤ 1 }
{
    match op {
        BitOp::Put { to, .. }
        | BitOp::Copy { to, .. }
        | BitOp::PutIf { to, .. }
        | BitOp::PutOnFlag { to, .. } => latch_cycles(to),
    }
}

fn latch_cycles(to: BitDest) -> u32
    ensures value { result ≡ latch_cycles to }
    ensures few { result ≤ 1 }
{
    match to {
        BitDest::Cell { .. } => 0,
        BitDest::Latch { .. } => 1,
    }
}

/// The words of what is done to a bit.
pub(crate) fn bit_words(op: BitOp) -> u32
    ensures value { size_in (bit_code op) ≡ result }
    ensures few { result ≤ 12 }
{
    match op {
        BitOp::Put { to, value } => put_words(to, value),
        BitOp::Copy { to, from, inverted } => copy_words(to, from, inverted),
        BitOp::PutIf {
            test,
            to,
            value,
            ..
        } => put_if_words(to, test, value),
        BitOp::PutOnFlag { to, .. } => put_on_flag_words(to),
    }
}

fn put_words(to: BitDest, x: bool) -> u32
    ensures value { size_in (put_code to x) ≡ result }
    ensures few { result ≤ 6 }
{
    match to {
        BitDest::Cell { address, .. } => by_cell(
            address,
            1,
            wire_words(x),
            byte_set_words(address),
        ),
        BitDest::Latch { .. } => 1,
    }
}

fn wire_words(x: bool) -> u32
    ensures value { (a : ℕ) → size_in (put_wire a x) ≡ result }
    ensures tested { (a : ℕ) (from : BitSource) (is : Bool) → size_in (put_wire_if from is a x) ≡ result + 1 }
    ensures few { result ≤ 2 }
{
    if x { 2 } else { 1 }
}

fn byte_set_words(a: u16) -> u32
    ensures value { (b : ℕ) (x : Bool) → size_in (put_byte a b x) ≡ result }
    ensures tested { (b : ℕ) (x : Bool) (from : BitSource) (is : Bool) → size_in (put_byte_if from is a b x) ≡ result + 1 }
    ensures few { result ≤ 6 }
{
    if a < IO_FIRST { 2 } else { 6 }
}

fn copy_words(to: BitDest, from: BitSource, inverted: bool) -> u32
    ensures value { size_in (copy_code to from inverted) ≡ result }
    ensures few { result ≤ 12 }
{
    match to {
        BitDest::Cell { address, .. } => {
            if is_wire(address) {
                copy_wire_words(from, inverted)
            } else {
                copy_byte_words(address, from)
            }
        }
        BitDest::Latch { .. } => held_words(from) + 4,
    }
}

fn copy_wire_words(from: BitSource, inverted: bool) -> u32
    ensures value { (a : ℕ) → size_in (copy_wire a from inverted) ≡ result }
    ensures few { result ≤ 6 }
{
    match from {
        BitSource::Cell { address, .. } => {
            if is_wire(address) && !inverted {
                1
            } else {
                take_wire_words(from)
            }
        }
        BitSource::Level { .. } => take_wire_words(from),
        BitSource::Latch { .. } => take_wire_words(from),
    }
}

fn take_wire_words(from: BitSource) -> u32
    ensures value { (a : ℕ) (inverted : Bool) → size_in (wire_taken a from inverted) ≡ result }
    ensures few { result ≤ 6 }
{
    fetch_words(from) + 4
}

fn copy_byte_words(a: u16, from: BitSource) -> u32
    ensures value { (b : ℕ) (inverted : Bool) → size_in (copy_byte a b from inverted) ≡ result }
    ensures few { result ≤ 10 }
{
    fetch_words(from) + 2 * cell_words(u32::from(a)) + 4
}

fn put_if_words(to: BitDest, from: BitSource, x: bool) -> u32
    ensures value { (is : Bool) → size_in (put_if_code from is to x) ≡ result }
    ensures few { result ≤ 9 }
{
    fetch_words(from) + put_where_words(to, x)
}

fn put_where_words(to: BitDest, x: bool) -> u32
    ensures value { (from : BitSource) (is : Bool) → size_in (put_where from is to x) ≡ result }
    ensures few { result ≤ 7 }
{
    match to {
        BitDest::Cell { address, .. } => {
            by_cell(address, 2, wire_words(x) + 1, byte_set_words(address) + 1)
        }
        BitDest::Latch { .. } => 2,
    }
}

fn put_on_flag_words(to: BitDest) -> u32
    ensures value { (kind : FlagKind) (is x : Bool) → size_in (put_on_flag_code kind is to x) ≡ result }
    ensures few { result ≤ 3 }
{
    match to {
        BitDest::Cell { address, .. } => by_cell(address, 2, 3, 0),
        BitDest::Latch { .. } => 0,
    }
}

fn fetch_words(from: BitSource) -> u32
    ensures value { size_in (fetch_code from) ≡ result }
    ensures few { result ≤ 2 }
{
    match from {
        BitSource::Cell { address, .. } => { if address < IO_FIRST { 0 } else { 2 } }
        BitSource::Level { .. } | BitSource::Latch { .. } => 0,
    }
}

fn held_words(from: BitSource) -> u32
    ensures value { size_in (held_code from) ≡ result }
    ensures few { result ≤ 2 }
{
    match from {
        BitSource::Cell { .. } => fetch_words(from),
        BitSource::Level { .. } | BitSource::Latch { .. } => 1,
    }
}

/// The words of a jump by a test.
pub(crate) fn test_words(test: Test) -> u32
    ensures value { (place : ℕ) → size_in (test_code test place) ≡ result }
    ensures few { result ≤ 5 }
{
    match test {
        Test::LoopsOn => 4,
        Test::Flag { .. } => 3,
        Test::Bit { from, .. } => fetch_words(from) + 3,
        Test::NoByte | Test::Sends | Test::Writes | Test::NoneWaits => 0,
    }
}
