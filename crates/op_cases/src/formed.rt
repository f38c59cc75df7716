//! Cases of well-formed programs.

use crate::program_texts::refusal;
use int_code::op::{BitSource, IntOp, IntProgram, NumSource, Ops};
use int_code::well_formed::well_formed;
use interp_code::read::read_interp;
use ld_base::list::List;
use ld_base::wrap::wrap16;
use std::alloc::{AllocError, Global};

/// A program over three bits, two outputs, two starts and one of all else, with so many variables and kept bits.
fn program(
    alloc: Global,
    ops: Ops,
    variables: u32,
    kept_bits: u32,
) -> Result<IntProgram, AllocError> {
    Ok(IntProgram {
        ops,
        inputs: 1,
        outputs: 2,
        analogs: 1,
        variables,
        kept_bits,
        bits: 3,
        persistent: 1,
        starts: List::from_vec(vec![in alloc; 0; 2]?),
    })
}

/// Whether such a program is well formed.
fn told(alloc: Global, ops: Ops, variables: u32, kept_bits: u32) -> Result<String, AllocError> {
    let word = if well_formed(&program(alloc, ops, variables, kept_bits)?) {
        "well formed"
    } else {
        "not well formed"
    };
    String::from_str(alloc, word)
}

/// Whether a program is well formed whose operations stand in the text behind the number of its variables and that of its kept bits.
pub fn formed(alloc: Global, front: &[u8], argument: &str) -> Result<String, AllocError> {
    let (variables, rest) = argument.split_once(' ').unwrap_or((argument, ""));
    let (kept_bits, line) = rest.split_once(' ').unwrap_or((rest, ""));
    let variables = variables.parse::<u32>().unwrap_or(0);
    let kept_bits = kept_bits.parse::<u32>().unwrap_or(0);
    let text = ended(alloc, front, line)?;
    match read_interp(alloc, text.as_slice()) {
        Ok(said) => resized(alloc, said.program, variables, kept_bits),
        Err(e) => refusal(alloc, e),
    }
}

/// Whether the operations of a program are well formed over these numbers.
fn resized(
    alloc: Global,
    p: IntProgram,
    variables: u32,
    kept_bits: u32,
) -> Result<String, AllocError> {
    told(alloc, p.ops, variables, kept_bits)
}

/// A text that ends with the line.
fn ended(alloc: Global, front: &[u8], line: &str) -> Result<Vec<u8>, AllocError> {
    let mut text = Vec::from_slice(alloc, front)?;
    text.extend_from_slice(line.as_bytes())?;
    text.extend_from_slice(b"\nend\n")?;
    Ok(text)
}

/// Whether ifs nest: an if for each `i`, an `Els` for each `e`, a `Fi` for each `f`, and a plain operation for any other letter.
pub fn nests(alloc: Global, letters: &str) -> Result<String, AllocError> {
    let mut ops = List::new(alloc);
    for letter in letters.bytes() {
        ops.push(match letter {
            b'i' => IntOp::Ifs { s: BitSource::X(0) },
            b'e' => IntOp::Els,
            b'f' => IntOp::Fi,
            _ => IntOp::Inc { v: 0 },
        })?;
    }
    told(alloc, ops, 2, 3)
}

/// Whether a table of so many values is well formed.
pub fn table(alloc: Global, argument: &str) -> Result<String, AllocError> {
    let count = argument.parse::<u8>().unwrap_or(0);
    let values = List::from_vec(vec![in alloc; -5; usize::from(count)]?);
    let w = NumSource::N(2);
    let mut ops = List::new(alloc);
    ops.push(IntOp::Tab { v: 1, w, values })?;
    told(alloc, ops, 2, 3)
}

/// A number wrapped to 16 bits.
pub fn wrapped(alloc: Global, argument: &str) -> Result<String, AllocError> {
    match argument.parse::<i64>() {
        Ok(n) => format!(in alloc; "{}", wrap16(n)),
        Err(_) => String::from_str(alloc, "no number"),
    }
}
