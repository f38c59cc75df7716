//! Reads vectors of one instruction each from the standard input, steps the written ATmega16 through
//! them, and prints how many agree and which do not. It ends with 0 where there is a vector and all agree. A vector is a line
//!
//!     NAME place w0 w1 w2 sreg sp seed regs io | place cycles sreg sp regs changed io
//!
//! before and after the step, with numbers in hexadecimal but for `cycles`. w0 is the word at the place,
//! w1 and w2 are the next two. `regs` has two digits for each register. Before the step the SRAM has
//! (7 * address + seed) modulo 256 at an address; `changed` lists what it has elsewhere afterwards. Lists are
//! address=value, parted by commas, or `-`.
#![tactic(auto)]

mod vector;

use std::io;
use std::io::{BufRead, BufReader};
use std::process::ExitCode;
use vector::agrees;

#[derive(Drop)]
struct Counts {
    all: u64,
    agreeing: u64,
}

/// Tries each line of the input.
fn count(rt: &(impl Input + Print + AllocGlobal)) -> io::Result<Counts> {
    let mut counts = Counts {
        all: 0,
        agreeing: 0,
    };
    for line in BufReader::new(rt.alloc(), rt.reader())?.lines(rt.alloc()) {
        let line = line?;
        counts.all = counts.all.saturating_add(1);
        if agrees(line.as_str()) == Some(true) {
            counts.agreeing = counts.agreeing.saturating_add(1);
        } else {
            println!(rt; "not so: {line}")?;
        }
    }
    Ok(counts)
}

fn run(rt: &(impl Input + Print + AllocGlobal)) -> io::Result<bool> {
    let Counts { all, agreeing } = count(rt)?;
    println!(rt; "{agreeing} of {all} vectors agree")?;
    Ok(0 < all && agreeing == all)
}

fn main(rt: HostRuntime) -> ExitCode {
    match run(&rt) {
        Ok(true) => ExitCode::from(0),
        Ok(false) | Err(_) => ExitCode::from(1),
    }
}
