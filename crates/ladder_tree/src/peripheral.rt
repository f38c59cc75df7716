//! The peripherals of a chip, and which of them an element uses.

ghost use Rattle.std.specs.Prelude.{◌≡◌};
ghost use Rattle.ladder_tree.specs.Leaves.{all_leaves};
ghost use Rattle.ladder_tree.specs.Peripherals.{peripheral_of, uses_adc, uses_uart, uses_eeprom, rate_of, uses_pwm, any_pwm};
ghost use Rattle.ladder_tree.specs.Visit.{seeks_any};

use crate::element::{Leaf, LeafKind};
use crate::project::Rung;
use crate::visit::{Visitor, visit_all};

/// A peripheral of a chip.
#[derive(Clone, Copy)]
pub enum Peripheral {
    /// The analog-to-digital converter.
    Converter,
    /// The pulse-width modulator, at a rate in hertz.
    Modulator { hz: u32 },
    SerialPort,
    Eeprom,
}

/// The peripheral that an element uses.
pub fn peripheral_of(kind: &LeafKind) -> Option<Peripheral>
    ensures { result ≡ peripheral_of kind.now }
{
    match kind {
        LeafKind::ReadAdc { .. } => Some(Peripheral::Converter),
        LeafKind::SetPwm { hz, .. } => Some(Peripheral::Modulator { hz: *hz }),
        LeafKind::Recv { .. } | LeafKind::Send { .. } => Some(Peripheral::SerialPort),
        LeafKind::Persist { .. } => Some(Peripheral::Eeprom),
        _ => None,
    }
}

/// Whether it uses the analog-to-digital converter.
pub fn uses_adc(kind: &LeafKind) -> bool
    ensures { result ≡ uses_adc kind.now }
{
    matches!(peripheral_of(kind), Some(Peripheral::Converter))
}

/// Whether it uses the serial port.
pub fn uses_uart(kind: &LeafKind) -> bool
    ensures { result ≡ uses_uart kind.now }
{
    matches!(peripheral_of(kind), Some(Peripheral::SerialPort))
}

/// Whether it uses the EEPROM.
pub fn uses_eeprom(kind: &LeafKind) -> bool
    ensures { result ≡ uses_eeprom kind.now }
{
    matches!(peripheral_of(kind), Some(Peripheral::Eeprom))
}

/// The hertz of a SET_PWM.
pub fn rate_of(kind: &LeafKind) -> Option<u32>
    ensures { result ≡ rate_of kind.now }
{
    match peripheral_of(kind) {
        Some(Peripheral::Modulator { hz }) => Some(hz),
        _ => None,
    }
}

/// Whether it is a SET_PWM.
pub fn uses_pwm(kind: &LeafKind) -> bool
    ensures { result ≡ uses_pwm kind.now }
{
    rate_of(kind).is_some()
}

/// Stops at the first SET_PWM.
#[derive(Clone, Copy)]
struct PwmSought;

impl Visitor for PwmSought {
    type Stop = ();

    ghost at = { seeks_any (λ v l. uses_pwm l.kind) };

    fn visit(&mut self, leaf: &Leaf) -> Option<()> {
        uses_pwm(&leaf.kind).then_some(())
    }
}

/// Whether there is a SET_PWM.
pub fn any_pwm(rungs: &[Rung]) -> bool
    ensures { result ≡ any_pwm (all_leaves rungs.now) }
{
    visit_all(&mut PwmSought, rungs).is_some()
}
