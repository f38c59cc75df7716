//! What a chip's pins show where a ladder sees a reading.

ghost use Rattle.std.specs.Prelude.{◌≡◌, ◌≤◌, true, length, All};
ghost use Rattle.ladder_tree.specs.declared.limits.TheConstants.{ANALOG_NUMBER};
ghost use Rattle.ladder_rules.specs.Pins.{is_chip};
ghost use Rattle.mem_plan.specs.Seen.{pins_seen, IsConverted, IsForChip, IsZeroElsewhere};
ghost use Rattle.mem_plan.specs.Shown.{ShowsLevels, ShowsNumbers};

use chip_tables::{PinReading, bit_mask};
use ladder_meaning::reading::Reading;
use ladder_rules::{Legal, name_bit, name_channel};
use ladder_tree::element::Name;
use ladder_tree::project::Project;

/// What a chip's pins show where the project's ladder sees a reading: levels at the pins of its inputs, numbers at the
/// channels of its analog names, low levels and 0 elsewhere, and the devices of the reading. The reading has a level for
/// each input, and a number from 0 to 1023 for each analog name. It takes no memory.
pub fn pin_reading(l: &Legal, r: &Reading) -> PinReading
    requires chip { is_chip l.now.project.target ≡ true }
    requires sizes { IsForChip l.now.names r.now }
    ensures seen { pins_seen l.now.project l.now.names result ≡ r.now }
    ensures elsewhere { IsZeroElsewhere l.now.project l.now.names result }
    ensures converted { All (λ n. n ≤ ANALOG_NUMBER) result.adc }
    ensures ports { length result.levels ≡ 5 }
    ensures channels { length result.adc ≡ 8 }
{
    let project = l.project();
    let names = l.names();
    PinReading {
        levels: levels_of(project, names.inputs.as_slice(), r.inputs.as_slice()),
        adc: numbers_of(project, names.analog.as_slice(), r.analog.as_slice()),
        rx: r.rx,
        tx_busy: r.tx_busy,
        ee_busy: r.ee_busy,
    }
}

/// The levels at the pins of inputs, a byte for each port. The others are low.
fn levels_of(project: &Project, names: &[Name], inputs: &[bool]) -> [u8; 5]
    requires { length inputs.now ≡ length names.now }
    ensures shown { ShowsLevels project.now names.now inputs.now (length names.now) result }
    ensures ports { length result ≡ 5 }
{
    let mut levels = [0; 5];
    for place in 0..names.len() {
        if inputs[place] {
            if let Some(b) = name_bit(project, &names[place]) {
                levels[usize::from(b.port)] |= bit_mask(b.bit);
            }
        }
    }
    levels
}

/// The numbers at the channels of analog names. The others are 0.
fn numbers_of(project: &Project, names: &[Name], numbers: &[i16]) -> [u16; 8]
    requires sizes { length numbers.now ≡ length names.now }
    requires converted { All IsConverted numbers.now }
    ensures shown { ShowsNumbers project.now names.now numbers.now (length names.now) result }
    ensures converted { All (λ n. n ≤ ANALOG_NUMBER) result }
    ensures channels { length result ≡ 8 }
{
    let mut adc = [0; 8];
    for place in 0..names.len() {
        if let Some(channel) = name_channel(project, &names[place]) {
            adc[usize::from(channel)] = numbers[place].unsigned_abs();
        }
    }
    adc
}
