//! A line that is an operation.

ghost use Rattle.std.specs.Prelude.{◌≡◌, ◌∷◌, IfOk};
ghost use Rattle.interp_code.specs.Line as spec;
ghost use Rattle.interp_code.specs.Line.{both, all_three, op_of};
ghost use Rattle.interp_code.specs.Said.{words_of};
ghost use Rattle.int_code.specs.WellFormed.{most_values};

use crate::word::{
    dest_of, index, integer, is_word, number_of, number_to, source_of, values_of, variable_of,
};
use int_code::op::{BitDest, BitSource, IntOp, NumSource};
use ladder_tree::limits::TABLE_VALUES;
use std::alloc::{AllocError, Global};

/// An operation of one word.
pub fn op_alone(word: &[u8]) -> Option<IntOp>
    ensures { result ≡ spec.op_alone word.now }
{
    if is_word(word, "els") {
        Some(IntOp::Els)
    } else if is_word(word, "fi") {
        Some(IntOp::Fi)
    } else {
        None
    }
}

/// An operation of two words.
pub fn op_with_one(word: &[u8], a: &[u8]) -> Option<IntOp>
    ensures { result ≡ spec.op_with_one word.now a.now }
{
    if is_word(word, "set") {
        match dest_of(a) {
            Some(b) => Some(IntOp::Set { b }),
            None => None,
        }
    } else if is_word(word, "clr") {
        match dest_of(a) {
            Some(b) => Some(IntOp::Clr { b }),
            None => None,
        }
    } else if is_word(word, "eebusy") {
        match dest_of(a) {
            Some(b) => Some(IntOp::Eebusy { b }),
            None => None,
        }
    } else {
        source_or_variable_op(word, a)
    }
}

/// An operation on a bit that is read, or on one variable.
fn source_or_variable_op(word: &[u8], a: &[u8]) -> Option<IntOp>
    ensures { result ≡ spec.source_or_variable_op word.now a.now }
{
    if is_word(word, "ifs") {
        match source_of(a) {
            Some(s) => Some(IntOp::Ifs { s }),
            None => None,
        }
    } else if is_word(word, "ifc") {
        match source_of(a) {
            Some(s) => Some(IntOp::Ifc { s }),
            None => None,
        }
    } else if is_word(word, "inc") {
        match variable_of(a) {
            Some(v) => Some(IntOp::Inc { v }),
            None => None,
        }
    } else if is_word(word, "dec") {
        match variable_of(a) {
            Some(v) => Some(IntOp::Dec { v }),
            None => None,
        }
    } else {
        None
    }
}

/// An operation of three words.
pub fn op_with_two(word: &[u8], a: &[u8], b: &[u8]) -> Option<IntOp>
    ensures { result ≡ spec.op_with_two word.now a.now b.now }
{
    if is_word(word, "cpy") {
        match dest_and_source(a, b) {
            Some((b, s)) => Some(IntOp::Cpy { b, s }),
            None => None,
        }
    } else if is_word(word, "not") {
        match dest_and_source(a, b) {
            Some((b, s)) => Some(IntOp::Not { b, s }),
            None => None,
        }
    } else if is_word(word, "iflt") {
        match two_numbers(a, b) {
            Some((w, u)) => Some(IntOp::Iflt { w, u }),
            None => None,
        }
    } else if is_word(word, "ifeq") {
        match two_numbers(a, b) {
            Some((w, u)) => Some(IntOp::Ifeq { w, u }),
            None => None,
        }
    } else {
        variable_op(word, a, b)
    }
}

/// An operation of three words on a variable and an index, or on a variable and what is put into it.
fn variable_op(word: &[u8], a: &[u8], b: &[u8]) -> Option<IntOp>
    ensures { result ≡ spec.variable_op word.now a.now b.now }
{
    if is_word(word, "lit") {
        match variable_and_integer(a, b) {
            Some((v, n)) => Some(IntOp::Lit { v, n }),
            None => None,
        }
    } else if is_word(word, "mov") {
        match two_variables(a, b) {
            Some((v, from)) => Some(IntOp::Mov { v, from }),
            None => None,
        }
    } else if is_word(word, "ifee") {
        match variable_and_index(a, b) {
            Some((v, a)) => Some(IntOp::Ifee { v, a }),
            None => None,
        }
    } else {
        device_op(word, a, b)
    }
}

/// An operation of three words on a device.
fn device_op(word: &[u8], a: &[u8], b: &[u8]) -> Option<IntOp>
    ensures { result ≡ spec.device_op word.now a.now b.now }
{
    if is_word(word, "adc") {
        match variable_and_index(a, b) {
            Some((v, k)) => Some(IntOp::Adc { v, k }),
            None => None,
        }
    } else if is_word(word, "eerd") {
        match variable_and_index(a, b) {
            Some((v, a)) => Some(IntOp::Eerd { v, a }),
            None => None,
        }
    } else if is_word(word, "eewr") {
        match number_and_index(a, b) {
            Some((w, a)) => Some(IntOp::Eewr { w, a }),
            None => None,
        }
    } else if is_word(word, "pwm") {
        match number_and_hertz(a, b) {
            Some((w, hz)) => Some(IntOp::Pwm { w, hz }),
            None => None,
        }
    } else if is_word(word, "rx") {
        match variable_and_dest(a, b) {
            Some((v, b)) => Some(IntOp::Rx { v, b }),
            None => None,
        }
    } else {
        None
    }
}

/// An operation of four words that is no table.
fn op_with_three(word: &[u8], a: &[u8], b: &[u8], c: &[u8]) -> Option<IntOp>
    ensures { result ≡ spec.op_with_three word.now a.now b.now c.now }
{
    if is_word(word, "add") {
        match computed(a, b, c) {
            Some((v, w, u)) => Some(IntOp::Add { v, w, u }),
            None => None,
        }
    } else if is_word(word, "sub") {
        match computed(a, b, c) {
            Some((v, w, u)) => Some(IntOp::Sub { v, w, u }),
            None => None,
        }
    } else if is_word(word, "mul") {
        match computed(a, b, c) {
            Some((v, w, u)) => Some(IntOp::Mul { v, w, u }),
            None => None,
        }
    } else if is_word(word, "div") {
        match computed(a, b, c) {
            Some((v, w, u)) => Some(IntOp::Div { v, w, u }),
            None => None,
        }
    } else if is_word(word, "tx") {
        match sending(a, b, c) {
            Some((w, s, b)) => Some(IntOp::Tx { w, s, b }),
            None => None,
        }
    } else {
        None
    }
}

fn dest_and_source(a: &[u8], b: &[u8]) -> Option<(BitDest, BitSource)>
    ensures { result ≡ both (spec.dest_of a.now) (spec.source_of b.now) }
{
    dest_of(a).zip(source_of(b))
}

fn two_numbers(a: &[u8], b: &[u8]) -> Option<(NumSource, NumSource)>
    ensures { result ≡ both (spec.number_of a.now) (spec.number_of b.now) }
{
    number_of(a).zip(number_of(b))
}

fn two_variables(a: &[u8], b: &[u8]) -> Option<(u32, u32)>
    ensures { result ≡ both (spec.variable_of a.now) (spec.variable_of b.now) }
{
    variable_of(a).zip(variable_of(b))
}

fn variable_and_integer(a: &[u8], b: &[u8]) -> Option<(u32, i16)>
    ensures { result ≡ both (spec.variable_of a.now) (spec.integer b.now) }
{
    variable_of(a).zip(integer(b))
}

fn variable_and_index(a: &[u8], b: &[u8]) -> Option<(u32, u32)>
    ensures { result ≡ both (spec.variable_of a.now) (spec.index b.now) }
{
    variable_of(a).zip(index(b))
}

fn variable_and_dest(a: &[u8], b: &[u8]) -> Option<(u32, BitDest)>
    ensures { result ≡ both (spec.variable_of a.now) (spec.dest_of b.now) }
{
    variable_of(a).zip(dest_of(b))
}

fn number_and_index(a: &[u8], b: &[u8]) -> Option<(NumSource, u32)>
    ensures { result ≡ both (spec.number_of a.now) (spec.index b.now) }
{
    number_of(a).zip(index(b))
}

fn number_and_hertz(a: &[u8], b: &[u8]) -> Option<(NumSource, u32)>
    ensures { result ≡ both (spec.number_of a.now) (spec.number_to spec.most_count b.now) }
{
    number_of(a).zip(number_to(u32::MAX, b))
}

/// A variable and the two numbers that its new value is computed from.
fn computed(a: &[u8], b: &[u8], c: &[u8]) -> Option<(u32, NumSource, NumSource)>
    ensures { result ≡ all_three (spec.variable_of a.now) (spec.number_of b.now) (spec.number_of c.now) }
{
    match (variable_of(a), number_of(b), number_of(c)) {
        (Some(v), Some(w), Some(u)) => Some((v, w, u)),
        _ => None,
    }
}

/// The byte that is sent, the bit that asks for it, and the bit that tells whether the line is busy.
fn sending(a: &[u8], b: &[u8], c: &[u8]) -> Option<(NumSource, BitSource, BitDest)>
    ensures { result ≡ all_three (spec.number_of a.now) (spec.source_of b.now) (spec.dest_of c.now) }
{
    match (number_of(a), source_of(b), dest_of(c)) {
        (Some(w), Some(s), Some(b)) => Some((w, s, b)),
        _ => None,
    }
}

/// An operation of four words or more. Behind the first four stand the words of `behind`.
pub fn op_with_more(
    alloc: Global,
    word: &[u8],
    a: &[u8],
    b: &[u8],
    c: &[u8],
    behind: Option<&[u8]>,
) -> Result<Option<IntOp>, AllocError>
    ensures { IfOk result (λ op. op ≡ op_of (word.now ∷ (a.now ∷ (b.now ∷ (c.now ∷ words_of behind.entry))))) }
{
    match behind {
        None => match op_with_three(word, a, b, c) {
            Some(op) => Ok(Some(op)),
            None => table(alloc, word, a, b, c, None),
        },
        Some(_) => table(alloc, word, a, b, c, behind),
    }
}

/// A table, whose values follow their count.
fn table(
    alloc: Global,
    word: &[u8],
    a: &[u8],
    b: &[u8],
    count: &[u8],
    behind: Option<&[u8]>,
) -> Result<Option<IntOp>, AllocError>
    ensures { IfOk result (λ op. op ≡ spec.table_of word.now a.now b.now count.now (words_of behind.entry)) }
{
    if !is_word(word, "tab") {
        return Ok(None);
    }
    let Some((v, w, count)) = table_head(a, b, count) else {
        return Ok(None);
    };
    match values_of(alloc, count, behind)? {
        Some(values) => Ok(Some(IntOp::Tab { v, w, values })),
        None => Ok(None),
    }
}

/// The variable of a table, the number by which a value is chosen, and how many values there are.
fn table_head(a: &[u8], b: &[u8], count: &[u8]) -> Option<(u32, NumSource, u32)>
    ensures { result ≡ all_three (spec.variable_of a.now) (spec.number_of b.now) (spec.number_to most_values count.now) }
{
    match (variable_of(a), number_of(b), number_to(TABLE_VALUES, count)) {
        (Some(v), Some(w), Some(count)) => Some((v, w, count)),
        _ => None,
    }
}
