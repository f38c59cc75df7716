//! Runs a simulator over a trace.

ghost use Rattle.std.specs.Prelude.{◌≡◌, ℕ, ◌+◌, ◌<◌, ◌≤◌, true, List, [], ◌∷◌, ◌++◌, length, replicate, slice_index_or, OnOk};
ghost use Rattle.ld_base.specs.Counts.{OutCount};
ghost use Rattle.ladder_trace.specs.Token.{IsReadingOf};
ghost use Rattle.ladder_trace.specs.Line.{most_cycles, eeprom_size};
ghost use Rattle.ladder_trace.specs.Trace.{IsTraceOf};
ghost use Rattle.ladder_trace.specs.Simulated.{eeprom_of};
ghost use Rattle.trace_run.specs.Held.{point_of, lines_behind, IsSame};
ghost use Rattle.trace_run.specs.Run.{behind, sim_lines, IsProgramOf};

use int_sim::Sim;
use ladder_meaning::reading::Reading;
use ladder_trace::duty::DutyShown;
use ladder_trace::shown::shown_line;
use ladder_trace::trace::{Step, Trace};
use ladder_tree::names::Names;
use ld_base::files::{FileFault, Out};
use ld_base::whole::write_out;
use std::alloc::Global;

/// A simulator, and how its cycles are shown.
#[derive(Drop)]
pub struct Run<'a> {
    pub names: &'a Names,
    pub duty: DutyShown,
    pub sim: Sim,
    /// How many cycles were shown: a trace has 100,000 at most.
    pub passed: u32,
}

impl Run<'_> {
    /// Runs a cycle, and writes its line. A fault writes a front of it.
    fn cycle<O: Out>(
        &mut self,
        alloc: Global,
        out: &mut O,
        reading: &Reading,
    ) -> Result<(), FileFault>
        requires program { IsProgramOf self.old.names.now self.old.sim.program }
        requires reading { IsReadingOf self.old.names.now reading.now }
        requires few { self.old.passed < most_cycles }
        ensures same { IsSame self.old self.new }
        ensures point { OnOk result (point_of self.new ≡ behind self.old.sim.program (point_of self.old) (reading.now ∷ [])) }
        ensures count { OutCount (O.fault_count out.old) (O.fault_count out.new) result }
        ensures whole { O.tells ≡ true → OnOk result (O.written out.new ≡ O.written out.old ++ lines_behind self.old (reading.now ∷ [])) }
        ensures part { O.tells ≡ true → (front : List ℕ) × (rest : List ℕ) × (lines_behind self.old (reading.now ∷ []) ≡ front ++ rest) × (O.written out.new ≡ O.written out.old ++ front) }
    {
        self.sim.cycle(reading);
        self.passed += 1;
        let view = self.sim.view_by(alloc, self.names, self.duty)?;
        let line = shown_line(alloc, self.names, self.passed, &view)?;
        write_out(out, line.as_slice())
    }

    /// Runs the cycles of a step.
    fn step<O: Out>(&mut self, alloc: Global, out: &mut O, step: &Step) -> Result<(), FileFault>
        requires program { IsProgramOf self.old.names.now self.old.sim.program }
        requires reading { IsReadingOf self.old.names.now step.now.reading }
        requires few { self.old.passed + step.now.times ≤ most_cycles }
        ensures same { IsSame self.old self.new }
        ensures point { OnOk result (point_of self.new ≡ behind self.old.sim.program (point_of self.old) (replicate step.now.times step.now.reading)) }
        ensures count { OutCount (O.fault_count out.old) (O.fault_count out.new) result }
        ensures whole { O.tells ≡ true → OnOk result (O.written out.new ≡ O.written out.old ++ lines_behind self.old (replicate step.now.times step.now.reading)) }
        ensures part { O.tells ≡ true → (front : List ℕ) × (rest : List ℕ) × (lines_behind self.old (replicate step.now.times step.now.reading) ≡ front ++ rest) × (O.written out.new ≡ O.written out.old ++ front) }
    {
        for _ in 0..step.times {
            self.cycle(alloc, out, &step.reading)?;
        }
        Ok(())
    }
}

/// The bytes of a trace's EEPROM.
pub fn eeprom(trace: &Trace) -> [u8; 512]
    requires { length trace.now.eeprom ≡ eeprom_size }
    ensures bytes { result ≡ trace.now.eeprom }
    ensures each { (k : ℕ) → slice_index_or result k 0 ≡ eeprom_of trace.now k }
{
    let mut bytes = [0xff; 512];
    bytes.copy_from_slice(trace.eeprom.as_slice());
    bytes
}

/// Runs a simulator over a trace from where it stands, and writes a line for each cycle: what the names and the devices show, with
/// the duty of the PWM as it is told to. A fault writes a front of the lines. Nothing is kept of a cycle but the state.
pub fn run_sim<O: Out>(
    alloc: Global,
    out: &mut O,
    names: &Names,
    duty: DutyShown,
    sim: Sim,
    trace: &Trace,
) -> Result<(), FileFault>
    requires program { IsProgramOf names.now sim.program }
    requires trace { IsTraceOf names.now trace.now }
    ensures count { OutCount (O.fault_count out.old) (O.fault_count out.new) result }
    ensures whole { O.tells ≡ true → OnOk result (O.written out.new ≡ O.written out.old ++ sim_lines duty names.now sim trace.now) }
    ensures part { O.tells ≡ true → (front : List ℕ) × (rest : List ℕ) × (sim_lines duty names.now sim trace.now ≡ front ++ rest) × (O.written out.new ≡ O.written out.old ++ front) }
{
    let mut run = Run {
        names,
        duty,
        sim,
        passed: 0,
    };
    for step in trace.steps.as_slice() {
        run.step(alloc, out, step)?;
    }
    Ok(())
}
