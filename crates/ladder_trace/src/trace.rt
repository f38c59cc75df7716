//! Reading a trace.

ghost use Rattle.std.specs.Prelude.{◌≡◌, ◌<◌, ◌^◌, length, Ok, IfOk, IfErr};
ghost use Rattle.texts.specs.Lines.{lines};
ghost use Rattle.ladder_trace.specs.Trace.{verdict, IsCaused, IsTraceOf};
ghost use Rattle.ladder_trace.specs.Held.{IsOutcome};

use crate::reader::Reader;
use ladder_meaning::reading::Reading;
use ladder_tree::element::Bytes;
use ladder_tree::names::Names;
use ld_base::list::List;
use std::alloc::{AllocError, Global};
use texts::limits::{FILE_BYTES, judged};
use texts::lines::split_line;
use thiserror::Error;

/// A reading, and for how many cycles it holds: 1 to 100,000.
#[derive(Drop)]
pub struct Step {
    pub times: u32,
    pub reading: Reading,
}

/// Steps in order.
pub type Steps = List<Step>;

/// The EEPROM that a run begins with, and its readings.
#[derive(Drop)]
pub struct Trace {
    /// 512 bytes: FFh where the trace gives none.
    pub eeprom: Bytes,
    /// At most 100,000 cycles in all.
    pub steps: Steps,
}

/// Why a trace is not read.
#[derive(Debug, Drop, Error)]
pub enum TraceError {
    /// The first line that is refused, counted from 1.
    #[error("line {line} is refused")]
    Fault { line: u32 },
    #[error(transparent)]
    Memory(AllocError),
}

/// How far lines were read.
#[derive(Drop)]
pub enum Outcome {
    /// All were read: so many.
    All { reader: Reader, count: u32 },
    /// The line of this number was refused.
    Stopped { line: u32 },
}

/// The steps of a trace and its EEPROM, for a project with the names. A name is looked for by going through the list of
/// its kind.
pub fn read_trace(alloc: Global, names: &Names, text: &[u8]) -> Result<Trace, TraceError>
    ensures trace { IfOk result (λ trace. verdict names.now text.now ≡ Ok trace) }
    ensures error { IfErr result (λ e. IsCaused names.now text.now e) }
    ensures fits { IfOk result (IsTraceOf names.now) }
{
    let outcome = match read_lines(alloc, names, judged(FILE_BYTES, text)) {
        Ok(outcome) => outcome,
        Err(e) => return Err(TraceError::Memory(e)),
    };
    match outcome {
        Outcome::Stopped { line } => Err(TraceError::Fault { line }),
        Outcome::All { reader, count } => {
            if text.len() > FILE_BYTES {
                return Err(TraceError::Fault { line: count });
            }
            Ok(Trace {
                eeprom: reader.eeprom,
                steps: reader.steps,
            })
        }
    }
}

/// Reads lines up to the first that is refused, or to the end.
fn read_lines(alloc: Global, names: &Names, text: &[u8]) -> Result<Outcome, AllocError>
    requires { length text.now < 2 ^ 32 }
    ensures { IfOk result (λ o. IsOutcome names.now (lines text.now) o) }
{
    let mut reader = Reader::new(alloc, names)?;
    let mut rest = text;
    let mut line = 0;
    while let Some((bytes, behind)) = split_line(rest) {
        line += 1;
        if !reader.read(alloc, names, bytes)? {
            return Ok(Outcome::Stopped { line });
        }
        rest = behind;
    }
    Ok(Outcome::All {
        reader,
        count: line,
    })
}
