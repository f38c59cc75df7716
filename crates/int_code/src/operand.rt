//! What operations read: levels, numbers, and whether the first branch of an if runs.

ghost use Rattle.std.specs.Prelude.{◌≡◌, ◌<◌};
ghost use Rattle.int_code.specs.declared.limits.TheConstants.{MOST_PERSISTENT};
ghost use Rattle.int_code.specs.declared.op.Shape.TheVariants.{Opens};
ghost use Rattle.int_code.specs.Shapes.{shape_of};
ghost use Rattle.int_code.specs.Device.{saved};
ghost use Rattle.int_code.specs.Meaning as meaning;
ghost use Rattle.int_code.specs.Store.{value_of, number_of};
ghost use Rattle.int_code.specs.WellFormed.{IsSource, IsNumSource, IsInRange};
ghost use Rattle.int_code.specs.Held.{store_of, devices_of, held_sizes, state_sizes};

use crate::op::{BitSource, IntOp, NumSource};
use crate::state::{Devices, State};
use ladder_meaning::reading::Reading;

/// The level of a bit.
pub fn value(reading: &Reading, state: &State, s: BitSource) -> bool
    requires { IsSource (held_sizes reading.now state.now) s }
    ensures { result ≡ value_of reading.now (store_of state.now) s }
{
    match s {
        BitSource::B(k) => state.bits[k as usize],
        BitSource::X(k) => *reading.inputs.get(k as usize),
        BitSource::Y(k) => state.outputs[k as usize],
    }
}

/// The number of a variable, or the number itself.
pub fn number(state: &State, w: NumSource) -> i16
    requires { IsNumSource (state_sizes state.now) w }
    ensures { result ≡ number_of (store_of state.now) w }
{
    match w {
        NumSource::V(k) => state.numbers[k as usize],
        NumSource::N(n) => n,
    }
}

/// The number of a persistent variable in the EEPROM.
#[tactic(auto, using(crate::proofs::ByteLemmas::number_of_bytes))]
pub fn saved(devices: &Devices, a: u32) -> i16
    requires { a < MOST_PERSISTENT }
    ensures { result ≡ saved (devices_of devices.now) a }
{
    let low = devices.eeprom[2 * a as usize];
    let high = devices.eeprom[2 * a as usize + 1];
    i16::from_le_bytes([low, high])
}

/// Whether the first branch of an if runs.
pub fn holds(op: &IntOp, reading: &Reading, state: &State) -> bool
    requires opens { shape_of op.now ≡ Opens }
    requires range { IsInRange (held_sizes reading.now state.now) op.now }
    ensures { result ≡ meaning.holds reading.now op.now (store_of state.now) }
{
    match op {
        IntOp::Ifs { s } => value(reading, state, *s),
        IntOp::Ifc { s } => !value(reading, state, *s),
        IntOp::Iflt { w, u } => number(state, *w) < number(state, *u),
        IntOp::Ifeq { w, u } => number(state, *w) == number(state, *u),
        IntOp::Ifee { v, a } => state.numbers[*v as usize] == saved(&state.devices, *a),
        _ => unreachable!(),
    }
}
