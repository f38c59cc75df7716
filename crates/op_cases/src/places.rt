//! Cases of places in a target's memory.

ghost use Rattle.std.specs.Prelude.{◌≡◌, []};

use chip_tables::Target;
use int_code::op::{IntProgram, Ops};
use ladder_tree::element::Nums;
use mem_plan::plan::plan;
use std::alloc::{AllocError, Global};

/// A program's target, its numbers of variables, kept bits and persistent variables, or a place.
#[derive(Clone, Copy)]
struct Asked {
    target: Target,
    variables: u16,
    kept_bits: u16,
    /// How many persistent variables there are, or which variable or bit is asked for.
    last: u16,
}

fn parsed(argument: &str) -> Option<Asked> {
    let mut words = argument.split(' ');
    let target = match words.next()? {
        "PIC16F628" => Target::F628,
        "PIC16F877" => Target::F877,
        "ATmega16" => Target::Mega16,
        "C" => Target::AnsiC,
        _ => Target::Interp,
    };
    Some(Asked {
        target,
        variables: words.next()?.parse::<u16>().ok()?,
        kept_bits: words.next()?.parse::<u16>().ok()?,
        last: words.next()?.parse::<u16>().ok()?,
    })
}

fn program(alloc: Global, variables: u16, kept_bits: u16, persistent: u16) -> IntProgram
    ensures { result ≡ record { ops = []; inputs = 0; outputs = 0; analogs = 0; variables = variables; kept_bits = kept_bits; bits = kept_bits; persistent = persistent; starts = [] } }
{
    IntProgram {
        ops: Ops::new(alloc),
        inputs: 0,
        outputs: 0,
        analogs: 0,
        variables: u32::from(variables),
        kept_bits: u32::from(kept_bits),
        bits: u32::from(kept_bits),
        persistent: u32::from(persistent),
        starts: Nums::new(alloc),
    }
}

/// Whether a program fits its target.
pub fn fit(alloc: Global, argument: &str) -> Result<String, AllocError> {
    let Some(asked) = parsed(argument) else {
        return String::from_str(alloc, "no numbers");
    };
    let p = program(alloc, asked.variables, asked.kept_bits, asked.last);
    match plan(&p, asked.target) {
        Ok(_) => String::from_str(alloc, "fits"),
        Err(fault) => format!(in alloc; "{fault:?}"),
    }
}

/// The address of a variable of a program on a PIC16F628.
pub fn cell(alloc: Global, argument: &str) -> Result<String, AllocError> {
    let Some(asked) = parsed(argument) else {
        return String::from_str(alloc, "no numbers");
    };
    let p = program(alloc, asked.variables, asked.kept_bits, 0);
    match plan(&p, Target::F628) {
        Ok(made) if asked.last < asked.variables => {
            let address = made.cell_of(u32::from(asked.last));
            format!(in alloc; "address {address:#x}")
        }
        _ => String::from_str(alloc, "no place"),
    }
}

/// The place of a kept bit of a program on a PIC16F628.
pub fn flag(alloc: Global, argument: &str) -> Result<String, AllocError> {
    let Some(asked) = parsed(argument) else {
        return String::from_str(alloc, "no numbers");
    };
    let p = program(alloc, asked.variables, asked.kept_bits, 0);
    match plan(&p, Target::F628) {
        Ok(made) if asked.last < asked.kept_bits => {
            let place = made.bit_of(u32::from(asked.last));
            format!(in alloc; "address {:#x} bit {}", place.address, place.bit)
        }
        _ => String::from_str(alloc, "no place"),
    }
}
