//! The rules for single elements that concern chips alone.

ghost use Rattle.std.specs.Prelude.{◌≡◌};
ghost use Rattle.ladder_rules.specs.ChipRules.{lacks_adc, lacks_pwm, lacks_baud, lacks_rate, chip_fault};

use crate::pins::{is_unassigned, taken_pin, wrong_pin};
use chip_tables::{Target, baud_setting, pwm_pin, pwm_setting};
use ladder_tree::element::{Leaf, LeafKind};
use ladder_tree::fault::ProjectFault;
use ladder_tree::peripheral::{rate_of, uses_adc, uses_pwm, uses_uart};
use ladder_tree::project::Project;

/// A rule that each element keeps or breaks where the target is a chip. Its fault has its name.
#[derive(Clone, Copy)]
pub enum ChipRule {
    NoAdc,
    NoPwm,
    PinUnassigned,
    NoSuchPin,
    PinTaken,
    BaudRange,
    PwmRange,
}

/// The fault of an element of a chip's project, where it breaks a rule.
pub fn chip_fault(rule: ChipRule, project: &Project, leaf: &Leaf) -> Option<ProjectFault>
    ensures { result ≡ chip_fault rule project.now leaf.now }
{
    let line = leaf.line;
    let kind = &leaf.kind;
    match rule {
        ChipRule::NoAdc => lacks_adc(project.target, kind).then_some(ProjectFault::NoAdc { line }),
        ChipRule::NoPwm => lacks_pwm(project.target, kind).then_some(ProjectFault::NoPwm { line }),
        ChipRule::PinUnassigned => is_unassigned(project.pins.as_slice(), kind).then_some(
            ProjectFault::PinUnassigned { line },
        ),
        ChipRule::NoSuchPin => {
            let pin = wrong_pin(project, kind)?;
            Some(ProjectFault::NoSuchPin { line, pin })
        }
        ChipRule::PinTaken => {
            let pin = taken_pin(project, kind)?;
            Some(ProjectFault::PinTaken { line, pin })
        }
        ChipRule::BaudRange => lacks_baud(project, kind).then_some(ProjectFault::BaudRange {
            line,
        }),
        ChipRule::PwmRange => lacks_rate(project, kind).then_some(ProjectFault::PwmRange { line }),
    }
}

/// Whether it reads an analog input, of which the chip has none.
fn lacks_adc(target: Target, kind: &LeafKind) -> bool
    ensures { result ≡ lacks_adc target kind.now }
{
    match target {
        Target::F877 | Target::Mega16 => false,
        Target::F628 | Target::Interp | Target::AnsiC => uses_adc(kind),
    }
}

/// Whether it sets a pulse-width modulator, and the chip has none.
fn lacks_pwm(target: Target, kind: &LeafKind) -> bool
    ensures { result ≡ lacks_pwm target kind.now }
{
    uses_pwm(kind) && pwm_pin(target).is_none()
}

/// Whether it uses the serial port, and the chip cannot make the rate.
fn lacks_baud(project: &Project, kind: &LeafKind) -> bool
    ensures { result ≡ lacks_baud project.now kind.now }
{
    uses_uart(kind) && baud_setting(project.target, project.crystal, project.baud).is_none()
}

/// Whether it sets the pulse-width modulator, and the chip cannot make the rate.
fn lacks_rate(project: &Project, kind: &LeafKind) -> bool
    ensures { result ≡ lacks_rate project.now kind.now }
{
    match rate_of(kind) {
        Some(hz) => pwm_setting(project.target, project.crystal, hz).is_none(),
        None => false,
    }
}
