//! Cases of interpretable texts.

ghost use Rattle.interp_code.specs.Program.{IsWritable};

use case_script::push_lines;
use interp_code::program::InterpProgram;
use interp_code::read::{InterpError, read_interp};
use interp_code::write::write_interp;
use std::alloc::{AllocError, Global};

/// At which line a text is refused.
pub fn refusal(alloc: Global, e: InterpError) -> Result<String, AllocError> {
    match e {
        InterpError::Fault(fault) => format!(in alloc; "refused line {}", fault.line),
        InterpError::Memory(e) => Err(e),
    }
}

/// Whether a text is read.
pub fn verdict(alloc: Global, text: &[u8]) -> Result<String, AllocError> {
    match read_interp(alloc, text) {
        Ok(_) => String::from_str(alloc, "read"),
        Err(e) => refusal(alloc, e),
    }
}

/// The text of the program that a text says.
pub fn written(alloc: Global, text: &[u8]) -> Result<String, AllocError> {
    match read_interp(alloc, text) {
        Ok(said) => text_of(alloc, &said),
        Err(e) => refusal(alloc, e),
    }
}

fn text_of(alloc: Global, said: &InterpProgram) -> Result<String, AllocError>
    requires { IsWritable said.now.cycle said.now.names said.now.program }
{
    let text = write_interp(alloc, said.cycle, &said.names, &said.program)?;
    let mut shown = String::new(alloc);
    push_lines(&mut shown, text.as_slice())?;
    Ok(shown)
}

/// What a text says beside its operations.
pub fn sizes(alloc: Global, text: &[u8]) -> Result<String, AllocError> {
    match read_interp(alloc, text) {
        Ok(said) => sizes_of(alloc, &said),
        Err(e) => refusal(alloc, e),
    }
}

fn sizes_of(alloc: Global, said: &InterpProgram) -> Result<String, AllocError> {
    let p = &said.program;
    let mut shown = format!(in alloc; "cycle {}, code line {}", said.cycle, said.code_line)?;
    write!(shown, ", {} operations, {} inputs", p.ops.len(), p.inputs)?;
    write!(shown, ", {} outputs, {} analogs", p.outputs, p.analogs)?;
    write!(shown, ", {} relays", said.names.relays.len())?;
    write!(shown, ", {} bits, {} kept", p.bits, p.kept_bits)?;
    write!(
        shown,
        ", {} persistent, {} variables from",
        p.persistent, p.variables
    )?;
    for start in p.starts.as_slice() {
        write!(shown, " {start}")?;
    }
    Ok(shown)
}
