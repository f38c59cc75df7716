//! From one reading to the next.

ghost use Rattle.std.specs.Prelude.{◌≡◌, ◌+◌, ◌<◌, ◌≤◌, ◌^◌, None};
ghost use Rattle.chip_run.specs.Replay.{comes_to, boot, cycle_of, answer, without_reading};

use crate::end::CycleEnd;
use crate::machine::ChipMachine;
use chip_tables::{Env, PinReading, StepEnd};
use runs::ask::Ask;

/// Runs the machine to the next state that asks for a reading, where so many cycles passed and this was the first byte that was sent.
fn comes_to<M: ChipMachine>(
    machine: &mut M,
    flash: &[u16],
    limit: u32,
    spent: u8,
    first: Option<u8>,
) -> CycleEnd
    requires limit { limit < 2 ^ 31 }
    ensures state { machine.new ≡ (comes_to M.chip.step flash.now limit (limit + 1) machine.old spent first).state }
    ensures end { result ≡ (comes_to M.chip.step flash.now limit (limit + 1) machine.old spent first).end }
{
    let mut cost = u32::from(spent);
    let mut sent = first;
    for _ in 0..limit + 1 {
        let Some(ready) = answer(machine.asks(flash)) else {
            return CycleEnd::Asks { sent };
        };
        if limit <= cost {
            return CycleEnd::Late;
        }
        match machine.step(flash, &without_reading(ready)) {
            StepEnd::Stuck(at) => return CycleEnd::Stuck(at),
            StepEnd::Went(went) => {
                cost += u32::from(went.cycles);
                sent = sent.or(went.sent);
            }
        }
    }
    CycleEnd::Late
}

/// What is answered to a state that takes no reading; to one that asks for a reading nothing is.
fn answer(asked: Ask) -> Option<bool>
    ensures { result ≡ answer asked }
{
    match asked {
        Ask::Nothing => Some(false),
        Ask::Device => Some(true),
        Ask::Reading => None,
    }
}

/// What the machine meets where it takes no reading.
fn without_reading(ready: bool) -> Env
    ensures { result ≡ without_reading ready }
{
    Env {
        ready,
        reading: PinReading::nothing(),
    }
}

/// Runs the machine from reset to the state that asks for the first reading.
pub fn boot<M: ChipMachine>(machine: &mut M, flash: &[u16], limit: u32) -> CycleEnd
    requires limit { limit < 2 ^ 31 }
    ensures state { machine.new ≡ (boot M.chip.step flash.now limit machine.old).state }
    ensures end { result ≡ (boot M.chip.step flash.now limit machine.old).end }
{
    comes_to(machine, flash, limit, 0, None)
}

/// Runs the machine over a reading: from the step that takes it to the state that asks for the next one.
pub fn cycle<M: ChipMachine>(
    machine: &mut M,
    flash: &[u16],
    limit: u32,
    reading: &PinReading,
) -> CycleEnd
    requires limit { limit < 2 ^ 31 }
    ensures state { machine.new ≡ (cycle_of M.chip.step flash.now limit machine.old reading.now).state }
    ensures end { result ≡ (cycle_of M.chip.step flash.now limit machine.old reading.now).end }
{
    let env = Env {
        ready: true,
        reading: *reading,
    };
    match machine.step(flash, &env) {
        StepEnd::Stuck(at) => CycleEnd::Stuck(at),
        StepEnd::Went(went) => comes_to(machine, flash, limit, went.cycles, went.sent),
    }
}
