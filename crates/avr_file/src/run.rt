//! A run of a HEX file over a trace.

ghost use Rattle.std.specs.Prelude.{◌≡◌, ℕ, true, List, ◌++◌, IfOk, OnOk};
ghost use Rattle.chip_tables.specs.declared.target.Target.TheVariants.{Mega16};
ghost use Rattle.ld_base.specs.Counts.{OutCount};
ghost use Rattle.ladder_trace.specs.Trace.{IsTraceOf};
ghost use Rattle.chip_run.specs.Shown.{IsPlanOf};
ghost use Rattle.avr_file.specs.Replays.{ReplaysImage};
ghost use Rattle.avr_file.specs.Run.{lines_of_run, end_of_run, CanRun};

use avr_run::machine::Atmega16;
use chip_run::end::RunEnd;
use chip_run::pins::{PinReadings, pin_readings};
use chip_run::replay::{Loaded, replay};
use intel_hex::image::Image;
use ladder_rules::Legal;
use ladder_trace::trace::Trace;
use ld_base::files::{FileFault, Out};
use mem_plan::places::Plan;
use std::alloc::{AllocError, Global};
use trace_run::eeprom;

/// A run that can begin: the ATmega16 at reset with a file's words in its flash, and what its pins show in each cycle.
#[derive(Drop)]
pub struct AvrRun {
    legal: Legal,
    plan: Plan,
    image: Image,
    machine: Atmega16,
    pins: PinReadings,
}

impl AvrRun {
    /// The run of a project's image over a trace, from reset with the trace's EEPROM. RAM and registers are 0.
    pub fn new(
        alloc: Global,
        legal: Legal,
        plan: Plan,
        image: Image,
        trace: &Trace,
    ) -> Result<AvrRun, AllocError>
        requires target { legal.project.target ≡ Mega16 }
        requires plan { IsPlanOf legal.project legal.names plan }
        requires trace { IsTraceOf legal.names trace.now }
        ensures ready { IfOk result CanRun }
        ensures runs { IfOk result (λ r. ReplaysImage legal.project image trace.now (lines_of_run r) (end_of_run r)) }
    {
        let settings = legal.settings().unwrap();
        let machine = Atmega16::reset(&eeprom(trace), &settings);
        let pins = pin_readings(alloc, &legal, trace)?;
        Ok(AvrRun {
            legal,
            plan,
            image,
            machine,
            pins,
        })
    }

    /// Writes the line of each cycle as it is done. A fault writes a front of the lines.
    pub fn print<O: Out>(self, alloc: Global, out: &mut O) -> Result<RunEnd, FileFault>
        requires { CanRun self }
        ensures count { OutCount (O.fault_count out.old) (O.fault_count out.new) result }
        ensures end { IfOk result (λ e. e ≡ end_of_run self) }
        ensures whole { O.tells ≡ true → OnOk result (O.written out.new ≡ O.written out.old ++ lines_of_run self) }
        ensures part { O.tells ≡ true → (front : List ℕ) × (rest : List ℕ) × (lines_of_run self ≡ front ++ rest) × (O.written out.new ≡ O.written out.old ++ front) }
    {
        let AvrRun {
            legal,
            plan,
            image,
            machine,
            pins,
        } = self;
        let loaded = Loaded {
            project: &legal,
            plan: &plan,
            flash: image.words.as_slice(),
        };
        let mut machine = machine;
        replay(alloc, out, &loaded, &mut machine, pins.as_slice())
    }
}
