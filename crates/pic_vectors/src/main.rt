//! Reads vectors of one instruction each from the standard input, steps the written PIC through them, and
//! prints how many agree and which do not. It ends with 0 where there is a vector and all agree. A line
//! `F628` or `F877` says which PIC the next vectors are of; in front of it they are of the PIC16F877. A vector is a line
//!
//!     NAME place word next w status fsr pclath kept seed | place cycles w status fsr pclath depth top changed
//!
//! before and after the step, with numbers in hexadecimal but for `cycles`. `word` is the word at the place,
//! `next` the one behind it. `kept` is the one place on the stack, or `-`; `depth` and `top` say how many places are
//! there afterwards, and the last of them, or `-`. Before the step the RAM has (7 * address + seed) modulo 256 at
//! an address; `changed` lists what it has elsewhere afterwards, as address=value, parted by commas, or `-`.
#![tactic(auto)]

mod vector;

use pic_devices::PicPart;
use std::io;
use std::io::{BufRead, BufReader};
use std::process::ExitCode;
use vector::agrees;

#[derive(Drop)]
struct Counts {
    all: u64,
    agreeing: u64,
}

fn part_of(line: &str) -> Option<PicPart> {
    match line {
        "F628" => Some(PicPart::F628),
        "F877" => Some(PicPart::F877),
        _ => None,
    }
}

/// Tries each line of the input.
fn count(rt: &(impl Input + Print + AllocGlobal)) -> io::Result<Counts> {
    let mut part = PicPart::F877;
    let mut counts = Counts {
        all: 0,
        agreeing: 0,
    };
    for line in BufReader::new(rt.alloc(), rt.reader())?.lines(rt.alloc()) {
        let line = line?;
        match part_of(line.as_str()) {
            Some(named) => part = named,
            None => {
                counts.all = counts.all.saturating_add(1);
                if agrees(part, line.as_str()) == Some(true) {
                    counts.agreeing = counts.agreeing.saturating_add(1);
                } else {
                    println!(rt; "not so: {line}")?;
                }
            }
        }
    }
    Ok(counts)
}

fn run(rt: &(impl Input + Print + AllocGlobal)) -> io::Result<bool> {
    let Counts { all, agreeing } = count(rt)?;
    println!(rt; "{agreeing} of {all} vectors agree")?;
    Ok(0 < all && agreeing == all)
}

fn main(rt: HostRuntime) -> ExitCode {
    match run(&rt) {
        Ok(true) => ExitCode::from(0),
        Ok(false) | Err(_) => ExitCode::from(1),
    }
}
