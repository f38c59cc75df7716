//! Reading a text.

ghost use Rattle.std.specs.Prelude.{◌≡◌, ◌⊎◌, ◌+◌, ◌-◌, ◌≤◌, ◌<◌, ◌^◌, ◌++◌, true, false, length, IfOk, IfErr, IfSome, IfNone, OnOk};
ghost use Rattle.texts.specs.Keys.{keys_of};
ghost use Rattle.texts.specs.Lines.{lines};
ghost use Rattle.texts.specs.declared.limits.TheConstants.{CODE_BYTES};
ghost use Rattle.interp_code.specs.Program.{IsProgram, IsWritable};
ghost use Rattle.interp_code.specs.Machine.{IsRunnable};
ghost use Rattle.interp_code.specs.Caused.{IsCaused};
ghost use Rattle.interp_code.specs.Draft.{is_ended, no_names, start};
ghost use Rattle.interp_code.specs.Held.{draft, name_count, program_of};
ghost use Rattle.interp_code.specs.Outcome.{IsOutcome};

use crate::program::InterpProgram;
use crate::reader::{Reader, Stage};
use int_code::limits::MOST_OPERATIONS;
use int_code::op::{IntProgram, Ops};
use ladder_tree::element::{Name, Nums};
use ladder_tree::names::{NameList, Names};
use std::alloc::{AllocError, Global};
use std::mem;
use texts::keys::KeySet;
use texts::limits::{CODE_BYTES, judged};
use texts::lines::split_line;
use thiserror::Error;

/// The line at which a text is refused, counted from 1: the first with which no text of a program
/// goes on, or that passes a limit. A text that ends too early is refused behind its last line.
#[derive(Clone, Copy, Debug, PartialEq, Eq, Error)]
#[error("line {line} is refused")]
pub struct InterpFault {
    pub line: u32,
}

/// Why a text is not read.
#[derive(Debug, Drop, Error)]
pub enum InterpError {
    #[error(transparent)]
    Fault(InterpFault),
    #[error(transparent)]
    Memory(AllocError),
}

/// How far lines were read.
#[derive(Clone, Copy)]
pub enum Reached {
    /// All were read: so many.
    All(u32),
    /// The line of this number was refused.
    Stopped(u32),
}

/// The program that a text says.
pub fn read_interp(alloc: Global, text: &[u8]) -> Result<InterpProgram, InterpError>
    ensures program { IfOk result (λ p. IsProgram (lines text.now) p) }
    ensures within { IfOk result (λ p. length text.now ≤ CODE_BYTES) }
    ensures error { IfErr result (λ e. IsCaused text.now e) }
    ensures runnable { IfOk result IsRunnable }
    ensures writable { IfOk result (λ p. IsWritable p.cycle p.names p.program) }
{
    read_by(&mut Reader::new(alloc), alloc, text)
}

/// The program that a text says, by a reader that has read nothing.
fn read_by<'a>(
    reader: &mut Reader<'a>,
    alloc: Global,
    text: &'a [u8],
) -> Result<InterpProgram, InterpError>
    requires { draft reader.old ≡ start }
    ensures program { IfOk result (λ p. IsProgram (lines text.now) p) }
    ensures within { IfOk result (λ p. length text.now ≤ CODE_BYTES) }
    ensures error { IfErr result (λ e. IsCaused text.now e) }
    ensures runnable { IfOk result IsRunnable }
    ensures writable { IfOk result (λ p. IsWritable p.cycle p.names p.program) }
{
    let reached = match read_lines(reader, alloc, judged(CODE_BYTES, text)) {
        Ok(reached) => reached,
        Err(e) => return Err(InterpError::Memory(e)),
    };
    match reached {
        Reached::Stopped(line) => Err(InterpError::Fault(InterpFault { line })),
        Reached::All(count) => {
            if let Some(line) = fault_behind(text.len(), reader.stage, count) {
                return Err(InterpError::Fault(InterpFault { line }));
            }
            match program(alloc, reader, count) {
                Ok(program) => Ok(program),
                Err(e) => Err(InterpError::Memory(e)),
            }
        }
    }
}

/// The line at which a text is refused all of whose lines were read: its last, where it is too long, or the one behind, where it ends
/// too early.
fn fault_behind(size: usize, stage: Stage, count: u32) -> Option<u32>
    requires { count < 2 ^ 32 - 1 }
    ensures none { IfNone result ((size ≤ CODE_BYTES) × (is_ended stage ≡ true)) }
    ensures some { IfSome result (λ line. ((CODE_BYTES < size) × (line ≡ count)) ⊎ ((size ≤ CODE_BYTES) × (is_ended stage ≡ false) × (line ≡ count + 1))) }
{
    if size > CODE_BYTES {
        Some(count)
    } else if has_ended(stage) {
        None
    } else {
        Some(count + 1)
    }
}

fn has_ended(stage: Stage) -> bool
    ensures { result ≡ is_ended stage }
{
    match stage {
        Stage::Ended => true,
        Stage::Start | Stage::Headed | Stage::Named | Stage::Kept => false,
        Stage::Sized | Stage::Coded => false,
    }
}

/// Reads lines up to the first that is refused, or to the end.
fn read_lines<'a>(
    reader: &mut Reader<'a>,
    alloc: Global,
    text: &'a [u8],
) -> Result<Reached, AllocError>
    requires new { draft reader.old ≡ start }
    requires short { length text.now < 2 ^ 32 }
    ensures { IfOk result (IsOutcome (lines text.now) (draft reader.new)) }
{
    let mut rest = text;
    let mut line = 0;
    while let Some((bytes, behind)) = split_line(rest) {
        line += 1;
        if !reader.read(alloc, bytes)? {
            return Ok(Reached::Stopped(line));
        }
        if reader.ops.len() > MOST_OPERATIONS {
            return Ok(Reached::Stopped(line));
        }
        rest = behind;
    }
    Ok(Reached::All(line))
}

/// The program of a text that was read to its end, and that has so many lines. The reader's operations and start values go into it.
fn program(alloc: Global, reader: &mut Reader<'_>, count: u32) -> Result<InterpProgram, AllocError>
    requires { count ≡ 5 + (name_count (draft reader.old).names + length (draft reader.old).ops) }
    ensures { IfOk result (λ p. p ≡ program_of (draft reader.old)) }
{
    let mut names = Names {
        inputs: NameList::new(alloc),
        outputs: NameList::new(alloc),
        relays: NameList::new(alloc),
        variables: NameList::new(alloc),
        analog: NameList::new(alloc),
        persistent: NameList::new(alloc),
        memories: 0,
    };
    copy_all_names(&mut names, alloc, reader)?;
    Ok(program_with(names, alloc, reader, count))
}

/// The program of what was read, with its names.
fn program_with(names: Names, alloc: Global, reader: &mut Reader<'_>, count: u32) -> InterpProgram
    requires names { names ≡ (draft reader.old).names }
    requires count { count ≡ 5 + (name_count (draft reader.old).names + length (draft reader.old).ops) }
    ensures { result ≡ program_of (draft reader.old) }
{
    let code_line = count - 1 - reader.ops.len() as u32;
    let program = IntProgram {
        ops: mem::replace(&mut reader.ops, Ops::new(alloc)),
        inputs: reader.inputs.len() as u32,
        outputs: reader.outputs.len() as u32,
        analogs: reader.analogs.len() as u32,
        variables: reader.variables.len() as u32,
        kept_bits: reader.bits,
        bits: reader.bits,
        persistent: reader.persistent.len() as u32,
        starts: mem::replace(&mut reader.starts, Nums::new(alloc)),
    };
    InterpProgram {
        cycle: reader.cycle,
        names,
        program,
        code_line,
    }
}

/// Appends the names that were read, of each kind.
fn copy_all_names(names: &mut Names, alloc: Global, reader: &Reader<'_>) -> Result<(), AllocError>
    requires { names.old ≡ no_names }
    ensures { OnOk result (names.new ≡ (draft reader.now).names) }
{
    copy_names(&mut names.inputs, alloc, &reader.inputs)?;
    copy_names(&mut names.outputs, alloc, &reader.outputs)?;
    copy_names(&mut names.relays, alloc, &reader.relays)?;
    copy_names(&mut names.variables, alloc, &reader.variables)?;
    copy_names(&mut names.analog, alloc, &reader.analogs)?;
    copy_names(&mut names.persistent, alloc, &reader.persistent)
}

/// Appends copies of names.
fn copy_names(list: &mut NameList, alloc: Global, names: &KeySet<'_>) -> Result<(), AllocError>
    ensures { OnOk result (list.new ≡ list.old ++ keys_of names.now) }
{
    for name in names.as_slice() {
        list.push(Name::from_vec(Vec::from_slice(alloc, name)?))?;
    }
    Ok(())
}
