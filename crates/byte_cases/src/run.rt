//! Primitives that run over a trace on the byte machine.

ghost use Rattle.mem_plan.specs.Seen.{IsForChip};
ghost use Rattle.std.specs.Prelude.{◌≡◌, true};

use crate::lowered::{LadderCode, is_chip};
use crate::shown::push_view;
use byte_code::prim::Prims;
use byte_code::state::ByteState;
use byte_code::step::byte_step;
use chip_tables::{DATA_ADDRESSES, EEPROM_MOST, Env, PinReading, Poll};
use ladder_meaning::reading::Reading;
use ladder_trace::trace::{Step, TraceError, read_trace};
use ladder_tree::names::Names;
use mem_plan::pins::pin_reading;
use std::alloc::{AllocError, Global};

/// How many primitives are begun at most from one cycle poll to the next.
const STEPS_MOST: u32 = 1_000_000;

/// What the cycles of a ladder's primitives show over a trace. They begin on a machine whose cells hold all kinds of bytes.
pub fn cycles(alloc: Global, ladder: &LadderCode, trace: &[u8]) -> Result<String, AllocError> {
    let trace = match read_trace(alloc, ladder.legal.names(), trace) {
        Ok(trace) => trace,
        Err(TraceError::Fault { line }) => return format!(in alloc; "refused line {line}"),
        Err(TraceError::Memory(e)) => return Err(e),
    };
    let cells = [0xa5; DATA_ADDRESSES];
    let target = ladder.layout.plan.target();
    let Some(mut machine) = ByteState::new(target, &cells, &[0xff; EEPROM_MOST]) else {
        return String::from_str(alloc, "no chip");
    };
    let mut shown = String::new(alloc);
    if !comes_to_poll(&mut machine, &ladder.code) {
        shown.push_str("no cycle poll\n")?;
    }
    let mut number = 0u32;
    for step in trace.steps.as_slice() {
        push_step(alloc, &mut shown, &mut machine, ladder, &mut number, step)?;
    }
    Ok(shown)
}

/// Runs the cycles of a step, and appends what they show.
fn push_step(
    alloc: Global,
    shown: &mut String,
    machine: &mut ByteState,
    ladder: &LadderCode,
    number: &mut u32,
    step: &Step,
) -> Result<(), AllocError> {
    let Some(reading) = at_pins(ladder, &step.reading) else {
        return shown.push_str("a reading of other sizes\n");
    };
    for _ in 0..step.times {
        *number = number.saturating_add(1);
        if take(machine, &ladder.code, &reading) {
            push_view(alloc, shown, machine, ladder, *number)?;
        } else {
            shown.push_str("no cycle poll\n")?;
        }
    }
    Ok(())
}

/// What the chip's pins show where a ladder sees a reading of levels.
fn at_pins(ladder: &LadderCode, reading: &Reading) -> Option<PinReading> {
    let legal = &ladder.legal;
    if is_chip(legal.project().target) && is_of_levels(legal.names(), reading) {
        Some(pin_reading(legal, reading))
    } else {
        None
    }
}

/// Whether a reading has a level for each input, and there is no analog name.
fn is_of_levels(names: &Names, reading: &Reading) -> bool
    ensures { result ≡ true → IsForChip names.now reading.now }
{
    reading.inputs.len() == names.inputs.len()
        && reading.analog.is_empty()
        && names.analog.is_empty()
}

/// Takes a reading at a cycle poll, and runs to the next one. False where the machine does not come to it.
fn take(machine: &mut ByteState, code: &Prims, reading: &PinReading) -> bool {
    let env = Env {
        ready: true,
        reading: *reading,
    };
    byte_step(machine, code, &env) && comes_to_poll(machine, code)
}

/// Runs to the next cycle poll, in front of which the machine stays. False where it does not come to one.
fn comes_to_poll(machine: &mut ByteState, code: &Prims) -> bool {
    let env = Env {
        ready: false,
        reading: PinReading::nothing(),
    };
    for _ in 0..STEPS_MOST {
        if !byte_step(machine, code, &env) {
            return false;
        }
        if machine.poll == Poll::CycleNotReady {
            return true;
        }
    }
    false
}
