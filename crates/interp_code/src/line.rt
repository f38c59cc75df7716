//! One line of a text.

ghost use Rattle.std.specs.Prelude.{◌≡◌, IfOk};
ghost use Rattle.std.specs.Option.{option_map, option_or};
ghost use Rattle.interp_code.specs.Line as spec;
ghost use Rattle.interp_code.specs.Line.{Operation, op_alone, op_with_one, op_with_two};
ghost use Rattle.interp_code.specs.Said.{said};

use crate::operation::{op_alone, op_with_more, op_with_one, op_with_two};
use crate::word::{first_word, integer, is_word, name, number_to};
use int_code::op::IntOp;
use std::alloc::{AllocError, Global};

/// What a line says. Names are parts of the text.
#[derive(Drop)]
pub enum Line<'a> {
    Magic,
    Cycle(u32),
    Input(&'a [u8]),
    Output(&'a [u8]),
    Analog(&'a [u8]),
    Variable(&'a [u8], i16),
    Relay(&'a [u8]),
    Persistent(&'a [u8]),
    BitCount(u32),
    Code,
    Operation(IntOp),
    End,
}

/// What the line says, if it has a shape. The values of a table take memory.
pub fn line_of(alloc: Global, line: &[u8]) -> Result<Option<Line<'_>>, AllocError>
    ensures { IfOk result (λ l. option_map said l ≡ spec.line_of line.now) }
{
    let (word, behind) = first_word(line);
    let Some(text) = behind else {
        return Ok(line_alone(word));
    };
    let (a, behind) = first_word(text);
    let Some(text) = behind else {
        return Ok(line_with_one(word, a));
    };
    let (b, behind) = first_word(text);
    let Some(text) = behind else {
        return Ok(line_with_two(word, a, b));
    };
    let (c, behind) = first_word(text);
    match op_with_more(alloc, word, a, b, c, behind)? {
        Some(op) => Ok(Some(Line::Operation(op))),
        None => Ok(None),
    }
}

fn line_alone(word: &[u8]) -> Option<Line<'static>>
    ensures { option_map said result ≡ option_or (option_map Operation (op_alone word.now)) (spec.head_alone word.now) }
{
    match op_alone(word) {
        Some(op) => Some(Line::Operation(op)),
        None => head_alone(word),
    }
}

fn line_with_one<'a>(word: &[u8], a: &'a [u8]) -> Option<Line<'a>>
    ensures { option_map said result ≡ option_or (option_map Operation (op_with_one word.now a.now)) (spec.head_with_one word.now a.now) }
{
    match op_with_one(word, a) {
        Some(op) => Some(Line::Operation(op)),
        None => head_with_one(word, a),
    }
}

fn line_with_two<'a>(word: &[u8], a: &'a [u8], b: &[u8]) -> Option<Line<'a>>
    ensures { option_map said result ≡ option_or (option_map Operation (op_with_two word.now a.now b.now)) (spec.head_with_two word.now a.now b.now) }
{
    match op_with_two(word, a, b) {
        Some(op) => Some(Line::Operation(op)),
        None => head_with_two(word, a, b),
    }
}

fn head_alone(word: &[u8]) -> Option<Line<'static>>
    ensures { option_map said result ≡ spec.head_alone word.now }
{
    if is_word(word, "code") {
        Some(Line::Code)
    } else if is_word(word, "end") {
        Some(Line::End)
    } else {
        None
    }
}

fn head_with_one<'a>(word: &[u8], a: &'a [u8]) -> Option<Line<'a>>
    ensures { option_map said result ≡ spec.head_with_one word.now a.now }
{
    if is_word(word, "LDint") {
        magic(a)
    } else if is_word(word, "cycle") {
        match number_to(999_999_999, a) {
            Some(cycle) => Some(Line::Cycle(cycle)),
            None => None,
        }
    } else if is_word(word, "bits") {
        match number_to(u32::MAX, a) {
            Some(count) => Some(Line::BitCount(count)),
            None => None,
        }
    } else {
        name_line(word, a)
    }
}

fn name_line<'a>(word: &[u8], a: &'a [u8]) -> Option<Line<'a>>
    ensures { option_map said result ≡ spec.name_line word.now a.now }
{
    if is_word(word, "input") {
        match name(a) {
            Some(name) => Some(Line::Input(name)),
            None => None,
        }
    } else if is_word(word, "output") {
        match name(a) {
            Some(name) => Some(Line::Output(name)),
            None => None,
        }
    } else if is_word(word, "analog") {
        match name(a) {
            Some(name) => Some(Line::Analog(name)),
            None => None,
        }
    } else if is_word(word, "relay") {
        match name(a) {
            Some(name) => Some(Line::Relay(name)),
            None => None,
        }
    } else if is_word(word, "persist") {
        match name(a) {
            Some(name) => Some(Line::Persistent(name)),
            None => None,
        }
    } else {
        None
    }
}

fn head_with_two<'a>(word: &[u8], a: &'a [u8], b: &[u8]) -> Option<Line<'a>>
    ensures { option_map said result ≡ spec.head_with_two word.now a.now b.now }
{
    if is_word(word, "var") {
        match name(a).zip(integer(b)) {
            Some((name, start)) => Some(Line::Variable(name, start)),
            None => None,
        }
    } else {
        None
    }
}

/// The number of the format.
fn magic(version: &[u8]) -> Option<Line<'static>>
    ensures { option_map said result ≡ spec.magic_of version.now }
{
    if is_word(version, "1") {
        Some(Line::Magic)
    } else {
        None
    }
}
