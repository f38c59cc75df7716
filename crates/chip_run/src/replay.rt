//! A run over readings, with a line for each cycle.

ghost use Rattle.std.specs.Prelude.{◌≡◌, ℕ, ◌<◌, ◌^◌, true, List, ◌++◌, length, OnOk, IfOk};
ghost use Rattle.ld_base.specs.Counts.{OutCount};
ghost use Rattle.ladder_trace.specs.Shown.{shown_text};
ghost use Rattle.chip_run.specs.Replay.{replay_from, replay_within, replayed, cycle_of, outcome};
ghost use Rattle.chip_run.specs.Lines.{lines_of};
ghost use Rattle.chip_run.specs.Shown.{shown_of, IsPlanOf};

use crate::end::{CYCLES_MOST, CycleEnd, RunEnd};
use crate::machine::ChipMachine;
use crate::segment::{boot, cycle};
use crate::shown::shown;
use chip_tables::PinReading;
use ladder_rules::Legal;
use ladder_trace::shown::shown_line;
use ld_base::files::{FileFault, Out};
use ld_base::whole::write_out;
use mem_plan::places::Plan;
use std::alloc::Global;

/// The words in a chip's flash, and the project by whose names the chip's states are shown.
#[derive(Drop)]
pub struct Loaded<'a> {
    pub project: &'a Legal,
    pub plan: &'a Plan,
    pub flash: &'a [u16],
}

/// Writes the line of a cycle that ended where the machine is. A fault writes a front of it.
fn write_line<M: ChipMachine, O: Out>(
    alloc: Global,
    out: &mut O,
    loaded: &Loaded,
    machine: &M,
    cycle: u32,
    sent: Option<u8>,
) -> Result<(), FileFault>
    requires { IsPlanOf loaded.now.project.now.project loaded.now.project.now.names loaded.now.plan.now }
    ensures count { OutCount (O.fault_count out.old) (O.fault_count out.new) result }
    ensures whole { let names = loaded.now.project.now.names in let line = shown_text names cycle (shown_of loaded.now.project.now.project names (M.chip.view machine.now) sent) in O.tells ≡ true → OnOk result (O.written out.new ≡ O.written out.old ++ line) }
    ensures part { let names = loaded.now.project.now.names in let line = shown_text names cycle (shown_of loaded.now.project.now.project names (M.chip.view machine.now) sent) in O.tells ≡ true → (front : List ℕ) × (rest : List ℕ) × (line ≡ front ++ rest) × (O.written out.new ≡ O.written out.old ++ front) }
{
    let view = shown(alloc, loaded.project, loaded.plan, machine, sent)?;
    let line = shown_line(alloc, loaded.project.names(), cycle, &view)?;
    write_out(out, line.as_slice())
}

/// What the cycle of a number sent where it is done, or else how it ends the run.
fn outcome(cycle: u32, end: CycleEnd) -> Result<Option<u8>, RunEnd>
    ensures { result ≡ outcome cycle end }
{
    match end {
        CycleEnd::Asks { sent } => Ok(sent),
        CycleEnd::Late => Err(RunEnd::Late { cycle }),
        CycleEnd::Stuck(at) => Err(RunEnd::Stuck { cycle, at }),
    }
}

/// Runs the machine over readings from a state that asks for the first, and writes a line for each cycle that is done.
fn cycles<M: ChipMachine, O: Out>(
    alloc: Global,
    out: &mut O,
    loaded: &Loaded,
    limit: u32,
    machine: &mut M,
    readings: &[PinReading],
) -> Result<RunEnd, FileFault>
    requires plan { IsPlanOf loaded.now.project.now.project loaded.now.project.now.names loaded.now.plan.now }
    requires limit { limit < 2 ^ 31 }
    requires few { length readings.now < 2 ^ 32 }
    ensures count { OutCount (O.fault_count out.old) (O.fault_count out.new) result }
    ensures end { let run = replay_from (cycle_of M.chip.step loaded.now.flash.now limit) 0 machine.old readings.now in IfOk result (λ e. e ≡ run.end) }
    ensures whole { let run = replay_from (cycle_of M.chip.step loaded.now.flash.now limit) 0 machine.old readings.now in let lines = lines_of loaded.now.project.now.project loaded.now.project.now.names M.chip.view 0 run in O.tells ≡ true → OnOk result (O.written out.new ≡ O.written out.old ++ lines) }
    ensures part { let run = replay_from (cycle_of M.chip.step loaded.now.flash.now limit) 0 machine.old readings.now in let lines = lines_of loaded.now.project.now.project loaded.now.project.now.names M.chip.view 0 run in O.tells ≡ true → (front : List ℕ) × (rest : List ℕ) × (lines ≡ front ++ rest) × (O.written out.new ≡ O.written out.old ++ front) }
{
    let mut passed = 0;
    for reading in readings {
        passed += 1;
        match outcome(passed, cycle(machine, loaded.flash, limit, reading)) {
            Ok(sent) => write_line(alloc, out, loaded, machine, passed, sent)?,
            Err(end) => return Ok(end),
        }
    }
    Ok(RunEnd::Done)
}

/// Runs the machine from reset over readings with a limit of cycles, and writes a line for each cycle that is done.
fn replay_within<M: ChipMachine, O: Out>(
    alloc: Global,
    out: &mut O,
    loaded: &Loaded,
    limit: u32,
    machine: &mut M,
    readings: &[PinReading],
) -> Result<RunEnd, FileFault>
    requires plan { IsPlanOf loaded.now.project.now.project loaded.now.project.now.names loaded.now.plan.now }
    requires limit { limit < 2 ^ 31 }
    requires few { length readings.now < 2 ^ 32 }
    ensures count { OutCount (O.fault_count out.old) (O.fault_count out.new) result }
    ensures end { let run = replay_within limit M.chip.step loaded.now.flash.now machine.old readings.now in IfOk result (λ e. e ≡ run.end) }
    ensures whole { let run = replay_within limit M.chip.step loaded.now.flash.now machine.old readings.now in let lines = lines_of loaded.now.project.now.project loaded.now.project.now.names M.chip.view 0 run in O.tells ≡ true → OnOk result (O.written out.new ≡ O.written out.old ++ lines) }
    ensures part { let run = replay_within limit M.chip.step loaded.now.flash.now machine.old readings.now in let lines = lines_of loaded.now.project.now.project loaded.now.project.now.names M.chip.view 0 run in O.tells ≡ true → (front : List ℕ) × (rest : List ℕ) × (lines ≡ front ++ rest) × (O.written out.new ≡ O.written out.old ++ front) }
{
    match outcome(0, boot(machine, loaded.flash, limit)) {
        Ok(_) => cycles(alloc, out, loaded, limit, machine, readings),
        Err(end) => Ok(end),
    }
}

/// Runs the machine from where it is reset over readings, and writes a line for each cycle as it is done. A fault writes a front of the lines. Where the
/// chip has no step, or takes a million cycles without asking for the next reading, the run ends there, behind the lines of the cycles before.
#[tactic(auto, using(crate::proofs::LineLemmas::replayed_is))]
pub fn replay<M: ChipMachine, O: Out>(
    alloc: Global,
    out: &mut O,
    loaded: &Loaded,
    machine: &mut M,
    readings: &[PinReading],
) -> Result<RunEnd, FileFault>
    requires plan { IsPlanOf loaded.now.project.now.project loaded.now.project.now.names loaded.now.plan.now }
    requires few { length readings.now < 2 ^ 32 }
    ensures count { OutCount (O.fault_count out.old) (O.fault_count out.new) result }
    ensures end { let run = replayed M.chip.step loaded.now.flash.now machine.old readings.now in IfOk result (λ e. e ≡ run.end) }
    ensures whole { let run = replayed M.chip.step loaded.now.flash.now machine.old readings.now in let lines = lines_of loaded.now.project.now.project loaded.now.project.now.names M.chip.view 0 run in O.tells ≡ true → OnOk result (O.written out.new ≡ O.written out.old ++ lines) }
    ensures part { let run = replayed M.chip.step loaded.now.flash.now machine.old readings.now in let lines = lines_of loaded.now.project.now.project loaded.now.project.now.names M.chip.view 0 run in O.tells ≡ true → (front : List ℕ) × (rest : List ℕ) × (lines ≡ front ++ rest) × (O.written out.new ≡ O.written out.old ++ front) }
{
    replay_within(alloc, out, loaded, CYCLES_MOST, machine, readings)
}
