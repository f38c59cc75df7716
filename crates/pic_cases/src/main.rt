//! Tries the instructions and the machine of the written PICs by cases from the standard input: each line is a case, and for each
//! the program prints a line with what comes of it. All numbers are in hexadecimal digits.
#![tactic(auto)]

mod bench;
mod words;

use bench::Bench;
use pic16_mach::{decode, encode};
use std::alloc::Global;
use std::io;
use std::process::ExitCode;
use words::{CaseError, hex_word};

/// What comes of the case that a line is: `decode WORD` gives the instruction and the word that it has, and the others are the bench's.
fn answer(alloc: Global, bench: &mut Bench, line: &str) -> Result<String, CaseError> {
    let words: Vec<&str> = line.split(' ').collect(alloc)?;
    match words.as_slice() {
        ["decode", word] => decoded(alloc, hex_word(word)?),
        rest => bench.answer(alloc, rest),
    }
}

fn decoded(alloc: Global, word: u16) -> Result<String, CaseError> {
    match decode(word) {
        None => Ok(format!(in alloc; "None")?),
        Some(insn) => {
            let word = encode(&insn);
            Ok(format!(in alloc; "{insn:?}, {word:04x}")?)
        }
    }
}

/// Prints a case and what comes of it.
fn show(rt: &(impl Print + AllocGlobal), bench: &mut Bench, line: &str) -> io::Result<()> {
    match answer(rt.alloc(), bench, line) {
        Ok(text) => println!(rt; "{line} -> {text}"),
        Err(CaseError::NoCase) => println!(rt; "{line}: no case"),
        Err(CaseError::Memory(e)) => Err(e.into()),
    }
}

fn run(rt: &(impl Input + Print + AllocGlobal)) -> io::Result<()> {
    let cases = io::read_to_string(rt.alloc(), rt.reader())?;
    let mut bench = Bench::new();
    for line in cases.as_str().lines() {
        show(rt, &mut bench, line)?;
    }
    Ok(())
}

fn main(rt: HostRuntime) -> ExitCode {
    match run(&rt) {
        Ok(()) => ExitCode::from(0),
        Err(_) => ExitCode::from(1),
    }
}
