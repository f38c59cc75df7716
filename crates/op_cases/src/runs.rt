//! Cases of programs that run over traces.

ghost use Rattle.std.specs.Prelude.{◌≡◌, true, length};
ghost use Rattle.interp_code.specs.Machine.{IsRunnable};
ghost use Rattle.ladder_trace.specs.Line.{eeprom_size};
ghost use Rattle.ladder_trace.specs.Trace.{IsTraceOf};
ghost use Rattle.trace_run.specs.Run.{IsProgramOf};

use crate::program_texts::refusal;
use crate::traces::trace_refusal;
use case_script::push_lines;
use int_code::op::IntProgram;
use int_code::well_formed::well_formed;
use int_sim::Sim;
use interp_code::machine::Interp;
use interp_code::program::InterpProgram;
use interp_code::read::read_interp;
use ladder_meaning::reading::{Reading, View};
use ladder_trace::duty::DutyShown;
use ladder_trace::shown::shown_line;
use ladder_trace::trace::{Step, Trace, read_trace};
use ladder_tree::names::Names;
use ld_base::files::FileFault;
use ld_base::mem_out::MemOut;
use std::alloc::{AllocError, Global};
use trace_run::{eeprom, run_sim};

/// The lines that the machine of a program's text shows over a trace, each behind the number of operations that its cycle executed.
pub fn cycles(alloc: Global, program: &[u8], trace: &[u8]) -> Result<String, AllocError> {
    match read_interp(alloc, program) {
        Ok(said) => cycles_of(alloc, said, trace),
        Err(e) => refusal(alloc, e),
    }
}

fn cycles_of(alloc: Global, said: InterpProgram, trace: &[u8]) -> Result<String, AllocError>
    requires { IsRunnable said }
{
    match read_trace(alloc, &said.names, trace) {
        Ok(trace) => machine_cycles(alloc, said, &trace),
        Err(e) => trace_refusal(alloc, e),
    }
}

fn machine_cycles(alloc: Global, said: InterpProgram, trace: &Trace) -> Result<String, AllocError>
    requires program { IsRunnable said }
    requires trace { length trace.now.eeprom ≡ eeprom_size }
{
    let mut machine = Interp::new(alloc, said, &eeprom(trace))?;
    let mut shown = String::new(alloc);
    let mut number = 0u32;
    for step in trace.steps.as_slice() {
        push_cycles(alloc, &mut shown, &mut machine, &mut number, step)?;
    }
    Ok(shown)
}

/// Runs the cycles of a step, and appends what they show.
fn push_cycles(
    alloc: Global,
    shown: &mut String,
    machine: &mut Interp,
    number: &mut u32,
    step: &Step,
) -> Result<(), AllocError> {
    for _ in 0..step.times {
        *number = number.saturating_add(1);
        push_cycle(alloc, shown, machine, *number, &step.reading)?;
    }
    Ok(())
}

/// Runs a cycle, and appends what it shows.
fn push_cycle(
    alloc: Global,
    shown: &mut String,
    machine: &mut Interp,
    number: u32,
    reading: &Reading,
) -> Result<(), AllocError> {
    let program = machine.program();
    if reading.inputs.len() != program.inputs as usize
        || reading.analog.len() != program.analogs as usize
    {
        return shown.push_str("a reading of other sizes\n");
    }
    let count = machine.cycle(reading);
    write!(shown, "{count} operations: ")?;
    let view = machine.view(alloc)?;
    push_view(alloc, shown, machine.names(), number, &view)
}

fn push_view(
    alloc: Global,
    shown: &mut String,
    names: &Names,
    number: u32,
    view: &View,
) -> Result<(), AllocError> {
    if view.outputs.len() != names.outputs.len()
        || view.relays.len() != names.relays.len()
        || view.variables.len() != names.variables.len()
    {
        return shown.push_str("a view of other sizes\n");
    }
    for byte in shown_line(alloc, names, number, view)?.as_slice() {
        shown.push(char::from(*byte))?;
    }
    Ok(())
}

/// Whether a program has the sizes of the names.
fn is_program(names: &Names, p: &IntProgram) -> bool
    ensures { result ≡ true → IsProgramOf names.now p.now }
{
    well_formed(p)
        && p.persistent <= 256
        && p.ops.len() < 1_000_000
        && names.inputs.len() == p.inputs as usize
        && names.outputs.len() == p.outputs as usize
        && names.analog.len() == p.analogs as usize
        && names.variables.len() == p.variables as usize
        && names.relays.len() <= p.bits as usize
}

/// What a run over a trace writes to an output of which a write fails.
pub fn lines(
    alloc: Global,
    program: &[u8],
    trace: &[u8],
    duty: DutyShown,
    failing: u64,
) -> Result<String, AllocError> {
    let mut out = MemOut::new(alloc);
    out.fail_at(failing)?;
    match read_interp(alloc, program) {
        Ok(said) => {
            let names = said.names;
            let program = said.program;
            lines_of(alloc, &mut out, &names, program, trace, duty)
        }
        Err(e) => refusal(alloc, e),
    }
}

fn lines_of(
    alloc: Global,
    out: &mut MemOut,
    names: &Names,
    program: IntProgram,
    trace: &[u8],
    duty: DutyShown,
) -> Result<String, AllocError> {
    match read_trace(alloc, names, trace) {
        Ok(trace) => written_lines(alloc, out, names, program, &trace, duty),
        Err(e) => trace_refusal(alloc, e),
    }
}

fn written_lines(
    alloc: Global,
    out: &mut MemOut,
    names: &Names,
    program: IntProgram,
    trace: &Trace,
    duty: DutyShown,
) -> Result<String, AllocError>
    requires { IsTraceOf names.now trace.now }
{
    if !is_program(names, &program) {
        return String::from_str(alloc, "a program of other sizes");
    }
    let sim = Sim::new(alloc, program, &eeprom(trace))?;
    match run_sim(alloc, out, names, duty, sim, trace) {
        Ok(()) => said_of(alloc, out, "all is written\n"),
        Err(FileFault::Failed) => said_of(alloc, out, "a write failed\n"),
        Err(FileFault::Memory(e)) => Err(e),
    }
}

/// What an output holds, and how the run ended.
fn said_of(alloc: Global, out: &MemOut, end: &str) -> Result<String, AllocError> {
    let mut shown = String::new(alloc);
    push_lines(&mut shown, out.bytes())?;
    shown.push_str(end)?;
    Ok(shown)
}
