//! The readings of a trace at a chip's pins.

ghost use Rattle.std.specs.Prelude.{◌≡◌, ◌++◌, true, All, IfOk, OnOk, replicate};
ghost use Rattle.ladder_rules.specs.Pins.{is_chip};
ghost use Rattle.mem_plan.specs.Seen.{IsForChip};
ghost use Rattle.chip_run.specs.AtPins.{ArePinsOf};
ghost use Rattle.ladder_trace.specs.Simulated.{readings};

use chip_tables::PinReading;
use ladder_rules::Legal;
use ladder_trace::trace::Trace;
use ld_base::list::List;
use mem_plan::pins::pin_reading;
use std::alloc::{AllocError, Global};

/// What a chip's pins show in each cycle.
pub type PinReadings = List<PinReading>;

/// What the pins of the project's chip show in each cycle of a trace: 100,000 readings at most. The trace has a level for each input, and a number
/// from 0 to 1023 for each analog name.
pub fn pin_readings(alloc: Global, l: &Legal, trace: &Trace) -> Result<PinReadings, AllocError>
    requires chip { is_chip l.now.project.target ≡ true }
    requires readings { All (λ s. IsForChip l.now.names s.reading) trace.now.steps }
    ensures { IfOk result (λ pins. ArePinsOf l.now.project l.now.names (readings trace.now.steps) pins) }
{
    let mut pins = PinReadings::new(alloc);
    for step in trace.steps.as_slice() {
        push_times(&mut pins, &pin_reading(l, &step.reading), step.times)?;
    }
    Ok(pins)
}

/// Appends a reading so many times.
fn push_times(pins: &mut PinReadings, reading: &PinReading, times: u32) -> Result<(), AllocError>
    ensures { OnOk result (pins.new ≡ pins.old ++ replicate times reading.now) }
{
    for _ in 0..times {
        pins.push(*reading)?;
    }
    Ok(())
}
