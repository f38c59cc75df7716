//! Cases of traces.

use crate::program_texts::refusal;
use interp_code::read::read_interp;
use ladder_trace::trace::{Step, Trace, TraceError, read_trace};
use std::alloc::{AllocError, Global};

/// At which line a trace is refused.
pub fn trace_refusal(alloc: Global, e: TraceError) -> Result<String, AllocError> {
    match e {
        TraceError::Fault { line } => format!(in alloc; "refused line {line}"),
        TraceError::Memory(e) => Err(e),
    }
}

/// A trace for the names of a program's text, or why one of the two is refused.
fn trace_of(
    alloc: Global,
    program: &[u8],
    trace: &[u8],
) -> Result<Result<Trace, String>, AllocError> {
    let said = match read_interp(alloc, program) {
        Ok(said) => said,
        Err(e) => return Ok(Err(refusal(alloc, e)?)),
    };
    match read_trace(alloc, &said.names, trace) {
        Ok(trace) => Ok(Ok(trace)),
        Err(e) => Ok(Err(trace_refusal(alloc, e)?)),
    }
}

/// The steps of a trace in words.
pub fn steps(alloc: Global, program: &[u8], trace: &[u8]) -> Result<String, AllocError> {
    match trace_of(alloc, program, trace)? {
        Ok(trace) => steps_of(alloc, &trace),
        Err(refused) => Ok(refused),
    }
}

fn steps_of(alloc: Global, trace: &Trace) -> Result<String, AllocError> {
    let mut text = format!(in alloc; "{} steps", trace.steps.len())?;
    for step in trace.steps.as_slice() {
        push_step(&mut text, step)?;
    }
    Ok(text)
}

fn push_step(text: &mut String, step: &Step) -> Result<(), AllocError> {
    let reading = &step.reading;
    write!(text, "; {} cycles", step.times)?;
    for on in reading.inputs.as_slice() {
        write!(text, " {on}")?;
    }
    for number in reading.analog.as_slice() {
        write!(text, " {number}")?;
    }
    if let Some(byte) = reading.rx {
        write!(text, " received {byte}")?;
    }
    if reading.tx_busy {
        text.push_str(" sending")?;
    }
    if reading.ee_busy {
        text.push_str(" writing")?;
    }
    Ok(())
}

/// How many bytes there are up to the last that is not erased.
fn given_count(bytes: &[u8]) -> usize {
    let mut count = 0;
    for place in 0..bytes.len() {
        if bytes[place] != 0xff {
            count = place + 1;
        }
    }
    count
}

/// The bytes of the EEPROM that a trace begins with, up to the last that is not erased.
pub fn saved(alloc: Global, program: &[u8], trace: &[u8]) -> Result<String, AllocError> {
    match trace_of(alloc, program, trace)? {
        Ok(trace) => bytes_of(alloc, trace.eeprom.as_slice()),
        Err(refused) => Ok(refused),
    }
}

fn bytes_of(alloc: Global, bytes: &[u8]) -> Result<String, AllocError> {
    let mut text = format!(in alloc; "{} bytes:", bytes.len())?;
    for byte in bytes.iter().take(given_count(bytes)) {
        write!(text, " {byte:02x}")?;
    }
    Ok(text)
}
