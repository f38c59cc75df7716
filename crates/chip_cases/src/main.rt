//! Tries the chips' tables, instructions, machine and files by cases from the standard input: each line is a case, and for each
//! the program prints a line with what comes of it. The modules say which words a case has.
#![tactic(auto)]

mod bench;
mod files;
mod insns;
mod tables;
mod words;

use bench::Bench;
use std::alloc::Global;
use std::io;
use std::process::ExitCode;
use words::CaseError;

/// What comes of the case that a line is.
fn answer(alloc: Global, bench: &mut Bench, line: &str) -> Result<String, CaseError> {
    let words: Vec<&str> = line.split(' ').collect(alloc)?;
    match words.as_slice() {
        ["table", rest @ ..] => tables::answer(alloc, rest),
        ["insn", rest @ ..] => insns::answer(alloc, rest),
        ["file", rest @ ..] => files::answer(alloc, rest),
        ["machine", rest @ ..] => bench.answer(alloc, rest),
        _ => Err(CaseError::NoCase),
    }
}

/// Prints a case and what comes of it.
fn show(rt: &(impl Print + AllocGlobal), bench: &mut Bench, line: &str) -> io::Result<()> {
    match answer(rt.alloc(), bench, line) {
        Ok(text) => println!(rt; "{line} -> {text}"),
        Err(CaseError::NoCase) => println!(rt; "{line}: no case"),
        Err(CaseError::Memory(e)) => Err(e.into()),
    }
}

fn run(rt: &(impl Input + Print + AllocGlobal)) -> io::Result<()> {
    let cases = io::read_to_string(rt.alloc(), rt.reader())?;
    let mut bench = Bench::new();
    for line in cases.as_str().lines() {
        show(rt, &mut bench, line)?;
    }
    Ok(())
}

fn main(rt: HostRuntime) -> ExitCode {
    match run(&rt) {
        Ok(()) => ExitCode::from(0),
        Err(_) => ExitCode::from(1),
    }
}
