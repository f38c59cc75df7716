//! What the byte machine shows of a ladder's names.

ghost use Rattle.std.specs.Prelude.{◌≡◌, ◌<◌, ◌≤◌, ℕ};

use crate::lowered::LadderCode;
use byte_code::state::ByteState;
use byte_lower::layout::Layout;
use chip_tables::{PortBit, bit_of};
use ladder_meaning::reading::{Bits, View};
use ladder_trace::shown::shown_line;
use ladder_tree::element::Nums;
use std::alloc::{AllocError, Global};

/// Appends the line of a cycle that ended where the machine is.
pub fn push_view(
    alloc: Global,
    shown: &mut String,
    machine: &ByteState,
    ladder: &LadderCode,
    number: u32,
) -> Result<(), AllocError> {
    let names = ladder.legal.names();
    let view = View {
        outputs: outputs(alloc, machine, ladder.layout.outputs.as_slice())?,
        relays: relays(alloc, machine, &ladder.layout, names.relays.len())?,
        variables: variables(alloc, machine, &ladder.layout)?,
        pwm: None,
        sent: None,
        eeprom: None,
    };
    if view.outputs.len() != names.outputs.len()
        || view.relays.len() != names.relays.len()
        || view.variables.len() != names.variables.len()
    {
        return shown.push_str("a view of other sizes\n");
    }
    for byte in shown_line(alloc, names, number, &view)?.as_slice() {
        shown.push(char::from(*byte))?;
    }
    Ok(())
}

/// The latches of outputs' pins.
fn outputs(alloc: Global, machine: &ByteState, pins: &[PortBit]) -> Result<Bits, AllocError> {
    let latches = &machine.bytes.store.latches;
    let mut levels = Bits::new(alloc);
    for pin in pins {
        let latch = latches.get(usize::from(pin.port)).unwrap_or(&0);
        levels.push(bit_of(*latch, pin.bit % 8))?;
    }
    Ok(levels)
}

/// The first kept bits, which are the relays.
fn relays(
    alloc: Global,
    machine: &ByteState,
    layout: &Layout,
    count: usize,
) -> Result<Bits, AllocError> {
    let mut levels = Bits::new(alloc);
    for bit in 0..layout.plan.sizes().kept_bits {
        if (bit as usize) < count {
            let place = layout.plan.bit_of(bit);
            levels.push(bit_of(machine.cell(place.address), place.bit))?;
        }
    }
    Ok(levels)
}

/// The variables, of whose two cells the first has the low byte.
fn variables(alloc: Global, machine: &ByteState, layout: &Layout) -> Result<Nums, AllocError> {
    let mut numbers = Nums::new(alloc);
    for variable in 0..layout.plan.sizes().variables {
        let address = layout.plan.cell_of(variable);
        let low = machine.cell(address);
        let high = machine.cell(address.saturating_add(1));
        numbers.push(i16::from_le_bytes([low, high]))?;
    }
    Ok(numbers)
}
