//! Programs that are run over traces.

ghost use Rattle.std.specs.Prelude.{◌≡◌, IfOk};
ghost use Rattle.ladder_trace.specs.Simulated.{duty_shown};
ghost use Rattle.ladder_trace.specs.Trace.{IsTraceOf};
ghost use Rattle.trace_run.specs.Run.{IsProgramOf, run_lines};
ghost use Rattle.interp_code.specs.Machine.{IsRunnable};
ghost use Rattle.ldmicro_top.specs.Steps.{lines_of_run, IsReady};

use crate::duty::duty_shown;
use avr_file::run::AvrRun;
use int_code::op::IntProgram;
use int_sim::Sim;
use interp_code::machine::Interp;
use interp_code::program::InterpProgram;
use ladder_rules::Legal;
use ladder_trace::duty::DutyShown;
use ladder_trace::trace::Trace;
use std::alloc::{AllocError, Global};
use trace_run::eeprom;

/// A simulator that is run over a trace, and the project whose names it has.
#[derive(Drop)]
pub struct TraceRun {
    pub legal: Legal,
    pub sim: Sim,
    /// How the duty of the PWM is shown.
    pub duty: DutyShown,
    pub trace: Trace,
}

/// A run of a file over a trace.
#[derive(Drop)]
pub enum FileRun {
    /// Of an interpretable text.
    Interp(TraceRun),
    /// Of a HEX file, on the ATmega16.
    Avr(AvrRun),
}

/// The run of the program to which a project was lowered, from its start.
pub fn simulation(
    alloc: Global,
    legal: Legal,
    program: IntProgram,
    trace: Trace,
) -> Result<TraceRun, AllocError>
    requires program { IsProgramOf legal.names program }
    requires trace { IsTraceOf legal.names trace }
    ensures ready { IfOk result IsReady }
    ensures lines { IfOk result (λ r. lines_of_run r ≡ run_lines (duty_shown legal.project) legal.names program trace) }
{
    let sim = Sim::new(alloc, program, &eeprom(&trace))?;
    Ok(begun(legal, sim, trace))
}

/// The run of the program that a text says, from its start.
pub fn replay(
    alloc: Global,
    legal: Legal,
    said: InterpProgram,
    trace: Trace,
) -> Result<TraceRun, AllocError>
    requires runs { IsRunnable said }
    requires program { IsProgramOf legal.names said.program }
    requires trace { IsTraceOf legal.names trace }
    ensures ready { IfOk result IsReady }
    ensures lines { IfOk result (λ r. lines_of_run r ≡ run_lines (duty_shown legal.project) legal.names said.program trace) }
{
    let machine = Interp::new(alloc, said, &eeprom(&trace))?;
    Ok(begun(legal, machine.into_sim(), trace))
}

/// A run from where a simulator stands, with the duty as the project shows it.
fn begun(legal: Legal, sim: Sim, trace: Trace) -> TraceRun
    ensures { result ≡ record { legal = legal; sim = sim; duty = duty_shown legal.project; trace = trace } }
{
    let duty = duty_shown(&legal);
    TraceRun {
        legal,
        sim,
        duty,
        trace,
    }
}
