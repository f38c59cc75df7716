//! The places of a project's program.

ghost use Rattle.std.specs.Prelude.{◌≡◌, ◌<◌, true, map, All, Some, IsSome, IfOk};
ghost use Rattle.ladder_rules.specs.Assigned.{name_bit};
ghost use Rattle.ladder_rules.specs.Pins.{is_chip};
ghost use Rattle.byte_lower.specs.Layout.{HasPins};

use crate::layout::Layout;
use chip_tables::PortBit;
use ladder_rules::{Legal, name_bit};
use ladder_tree::element::Name;
use ladder_tree::project::Project;
use ld_base::list::List;
use mem_plan::places::Plan;
use std::alloc::{AllocError, Global};

/// The port bits at the pins of names, in order.
#[tactic(auto, using(crate::proofs::PinLemmas::one_more))]
fn pins_of(alloc: Global, project: &Project, names: &[Name]) -> Result<List<PortBit>, AllocError>
    requires { All (λ name. IsSome (name_bit project.now name)) names.now }
    ensures pins { IfOk result (λ pins. map Some pins ≡ map (name_bit project.now) names.now) }
    ensures ports { IfOk result (λ pins. All (λ b. (b.port < 5) × (b.bit < 8)) pins) }
{
    let mut pins = List::new(alloc);
    for place in 0..names.len() {
        let b = name_bit(project, &names[place]).unwrap();
        pins.push(b)?;
    }
    Ok(pins)
}

/// Where the bits, variables and pins of a project's program are on its chip.
pub fn layout_of(alloc: Global, l: &Legal, plan: &Plan) -> Result<Layout, AllocError>
    requires chip { is_chip l.now.project.target ≡ true }
    requires target { plan.now.target ≡ l.now.project.target }
    ensures plan { IfOk result (λ o. o.plan ≡ plan.now) }
    ensures inputs { IfOk result (λ o. map Some o.inputs ≡ map (name_bit l.now.project) l.now.names.inputs) }
    ensures outputs { IfOk result (λ o. map Some o.outputs ≡ map (name_bit l.now.project) l.now.names.outputs) }
    ensures pins { IfOk result (λ o. HasPins o) }
{
    let project = l.project();
    let names = l.names();
    let inputs = pins_of(alloc, project, names.inputs.as_slice())?;
    let outputs = pins_of(alloc, project, names.outputs.as_slice())?;
    Ok(Layout {
        plan: *plan,
        inputs,
        outputs,
    })
}
