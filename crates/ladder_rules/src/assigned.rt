//! Where names stand on a chip.

ghost use Rattle.std.specs.Prelude.{◌≡◌, ◌<◌, IfSome};
ghost use Rattle.ladder_rules.specs.Assigned.{name_bit, name_channel};

use crate::pins::pin_of;
use chip_tables::{PortBit, adc_channel, pin_of as port_bit};
use ladder_tree::element::Name;
use ladder_tree::project::Project;

/// The port bit at the pin of a name.
#[tactic(auto, using(crate::proofs::AssignedLemmas::within_ports))]
pub fn name_bit(project: &Project, name: &Name) -> Option<PortBit>
    ensures value { result ≡ name_bit project.now name.now }
    ensures in_ports { IfSome result (λ b. (b.port < 5) × (b.bit < 8)) }
{
    port_bit(project.target, pin_of(project.pins.as_slice(), name)?)
}

/// The channel whose input is the pin of a name.
pub fn name_channel(project: &Project, name: &Name) -> Option<u8>
    ensures value { result ≡ name_channel project.now name.now }
    ensures in_channels { IfSome result (λ channel. channel < 8) }
{
    adc_channel(project.target, pin_of(project.pins.as_slice(), name)?)
}
