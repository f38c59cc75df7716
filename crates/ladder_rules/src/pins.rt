//! The pins of a chip that elements need.

ghost use Rattle.std.specs.Prelude.{◌≡◌};
ghost use Rattle.std.specs.Option.{option_map};
ghost use Rattle.ladder_tree.specs.Leaves.{all_leaves};
ghost use Rattle.ladder_rules.specs.Pins.{is_chip, pinned, pin_of, pin_at, name_at, is_unassigned, wrong_pin, taken_pin, serves, is_pin, is_taken};

use crate::survey::{Feature, any_uses};
use chip_tables::{Target, adc_channel, pin_of as port_bit, pwm_pin, rx_pin, tx_pin};
use ladder_tree::element::{LeafKind, Name};
use ladder_tree::names::begins_with;
use ladder_tree::peripheral::uses_adc;
use ladder_tree::project::{PinLine, Project};

/// Whether code for the target runs on a chip itself.
pub fn is_chip(target: Target) -> bool
    ensures { result ≡ is_chip target }
{
    match target {
        Target::F628 | Target::F877 | Target::Mega16 => true,
        Target::Interp | Target::AnsiC => false,
    }
}

/// The name for which an element needs a pin.
pub fn pinned(kind: &LeafKind) -> Option<&Name>
    ensures { option_map (λ name. name.now) result ≡ pinned kind.now }
{
    match kind {
        LeafKind::Contacts { name, .. } | LeafKind::Coil { name, .. } => {
            let has_pin = begins_with(name, b'X') || begins_with(name, b'Y');
            has_pin.then_some(name)
        }
        LeafKind::ReadAdc { name } => Some(name),
        LeafKind::Osr
        | LeafKind::Osf
        | LeafKind::Short
        | LeafKind::Open
        | LeafKind::MasterRelay
        | LeafKind::Placeholder
        | LeafKind::Comment { .. }
        | LeafKind::Timer { .. }
        | LeafKind::Counter { .. }
        | LeafKind::Reset { .. }
        | LeafKind::Move { .. }
        | LeafKind::Math { .. }
        | LeafKind::Compare { .. }
        | LeafKind::Shift { .. }
        | LeafKind::Table { .. }
        | LeafKind::SetPwm { .. }
        | LeafKind::Recv { .. }
        | LeafKind::Send { .. }
        | LeafKind::Persist { .. }
        | LeafKind::Linear { .. }
        | LeafKind::Formatted { .. } => None,
    }
}

/// The pin of a name, by the first pin line with the name.
pub fn pin_of(pins: &[PinLine], name: &Name) -> Option<u16>
    ensures { result ≡ pin_of pins.now name.now }
{
    for line in pins {
        if line.name.as_slice() == name.as_slice() {
            return (line.pin != 0).then_some(line.pin);
        }
    }
    None
}

/// The pin of the name for which an element needs one.
fn pin_at(pins: &[PinLine], kind: &LeafKind) -> Option<u16>
    ensures { result ≡ pin_at pins.now kind.now }
{
    pin_of(pins, pinned(kind)?)
}

/// The name of an element, where it has the pin.
pub fn name_at<'a>(pins: &[PinLine], pin: u16, kind: &'a LeafKind) -> Option<&'a Name>
    ensures { option_map (λ name. name.now) result ≡ name_at pins.now pin kind.now }
{
    if is_pin(pin, pin_at(pins, kind)) {
        pinned(kind)
    } else {
        None
    }
}

/// Whether the name for which an element needs a pin has none.
pub fn is_unassigned(pins: &[PinLine], kind: &LeafKind) -> bool
    ensures { result ≡ is_unassigned pins.now kind.now }
{
    pinned(kind).is_some() && pin_at(pins, kind).is_none()
}

/// The pin of an element, where it is none for the element.
pub fn wrong_pin(project: &Project, kind: &LeafKind) -> Option<u16>
    ensures { result ≡ wrong_pin project.now kind.now }
{
    let pin = pin_at(project.pins.as_slice(), kind)?;
    (!serves(project.target, kind, pin)).then_some(pin)
}

/// The pin of an element, where it belongs to a device that is used.
pub fn taken_pin(project: &Project, kind: &LeafKind) -> Option<u16>
    ensures { result ≡ taken_pin project.now kind.now }
{
    let pin = pin_at(project.pins.as_slice(), kind)?;
    is_taken(project, pin).then_some(pin)
}

/// Whether a pin belongs to a device that is used.
fn is_taken(project: &Project, pin: u16) -> bool
    ensures { result ≡ is_taken project.now.target (all_leaves project.now.rungs) pin }
{
    let target = project.target;
    let rungs = project.rungs.as_slice();
    let is_serial = is_pin(pin, rx_pin(target)) || is_pin(pin, tx_pin(target));
    let is_pulse = is_pin(pin, pwm_pin(target));
    (is_serial && any_uses(Feature::Serial, rungs))
        || (is_pulse && any_uses(Feature::Modulation, rungs))
}

/// Whether a pin of the chip is one for an element.
fn serves(target: Target, kind: &LeafKind, pin: u16) -> bool
    ensures { result ≡ serves target kind.now pin }
{
    if uses_adc(kind) {
        adc_channel(target, pin).is_some()
    } else {
        port_bit(target, pin).is_some()
    }
}

/// Whether it is the pin of a device.
fn is_pin(pin: u16, device: Option<u16>) -> bool
    ensures { result ≡ is_pin pin device }
{
    match device {
        Some(other) => pin == other,
        None => false,
    }
}
