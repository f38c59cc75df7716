//! The primitives of a ladder.

ghost use Rattle.std.specs.Prelude.{◌≡◌, ◌↔◌, [], true, false, map, Some, All, IfOk};
ghost use Rattle.ladder_tree.specs.Leaves.{all_leaves};
ghost use Rattle.ladder_tree.specs.Peripherals.{any_pwm};
ghost use Rattle.ladder_rules.specs.Assigned.{name_bit};
ghost use Rattle.ladder_rules.specs.Pins.{is_chip};
ghost use Rattle.ladder_lower.specs.Outcome.{CanLower, IsLowered};
ghost use Rattle.mem_plan.specs.Needs.{sizes_of};
ghost use Rattle.byte_lower.specs.Code.{CanPlace};
ghost use Rattle.byte_lower.specs.Lists.{is_built};

use byte_code::prim::Prims;
use byte_lower::layout::Layout;
use byte_lower::operation::is_built;
use byte_lower::pins::layout_of;
use byte_lower::program::lower_bytes;
use chip_compile::laws::linked_is_placed;
use chip_tables::Target;
use int_code::op::IntProgram;
use ladder_lower::program::lower;
use ladder_rules::{Legal, check};
use ladder_tree::fault::ProjectFault;
use ladder_tree::names::names_in_order;
use ladder_tree::peripheral::any_pwm;
use ld_text::fault::TextError;
use ld_text::read::read_project;
use mem_plan::fault::PlanFault;
use mem_plan::places::Plan;
use mem_plan::plan::plan;
use std::alloc::{AllocError, Global};

/// Why a ladder has no primitives.
#[derive(Clone, Copy)]
pub enum Refusal {
    Project(ProjectFault),
    Room(PlanFault),
    NoChip,
    NotBuilt,
    Memory(AllocError),
}

/// A ladder, where its bits, variables and pins are on its chip, and its primitives.
#[derive(Drop)]
pub struct LadderCode {
    pub legal: Legal,
    pub layout: Layout,
    pub code: Prims,
}

/// The project of a text for another target, where it keeps the rules.
fn aimed(alloc: Global, text: &[u8], target: Target) -> Result<Legal, TextError>
    ensures target { IfOk result (λ l. l.project.target ≡ target) }
    ensures can { IfOk result (λ l. CanLower l.names l.project) }
{
    let mut project = read_project(alloc, text)?;
    let names = names_in_order(alloc, &project)?;
    project.target = target;
    match check(project, names) {
        Ok(legal) => Ok(legal),
        Err(fault) => Err(TextError::Refused(fault)),
    }
}

pub fn is_chip(target: Target) -> bool
    ensures { result ≡ is_chip target }
{
    match target {
        Target::F628 | Target::F877 | Target::Mega16 => true,
        Target::Interp | Target::AnsiC => false,
    }
}

/// Whether all that a project does is built.
fn is_covered(legal: &Legal, program: &IntProgram) -> bool
    ensures ops { result ≡ true → All (λ op. is_built op ≡ true) program.now.ops }
    ensures analog { result ≡ true → legal.now.names.analog ≡ [] }
    ensures duty { result ≡ true → any_pwm (all_leaves legal.now.project.rungs) ≡ false }
{
    program.ops.as_slice().iter().all(is_built)
        && legal.names().analog.is_empty()
        && !any_pwm(legal.project().rungs.as_slice())
}

/// The primitives of the ladder that a text says, on a chip.
pub fn lowered(alloc: Global, text: &[u8], target: Target) -> Result<LadderCode, Refusal> {
    let legal = match aimed(alloc, text, target) {
        Ok(legal) => legal,
        Err(TextError::Refused(fault)) => return Err(Refusal::Project(fault)),
        Err(TextError::Memory(e)) => return Err(Refusal::Memory(e)),
    };
    if !is_chip(target) {
        return Err(Refusal::NoChip);
    }
    let program = match lower(alloc, legal.project(), legal.names()) {
        Ok(program) => program,
        Err(e) => return Err(Refusal::Memory(e)),
    };
    if !is_covered(&legal, &program) {
        return Err(Refusal::NotBuilt);
    }
    match plan(&program, target) {
        Ok(places) => placed(alloc, legal, &program, &places),
        Err(fault) => Err(Refusal::Room(fault)),
    }
}

/// The primitives of a ladder's program, in the places of a plan.
fn placed(
    alloc: Global,
    legal: Legal,
    program: &IntProgram,
    places: &Plan,
) -> Result<LadderCode, Refusal>
    requires can { CanLower legal.names legal.project }
    requires chip { is_chip legal.project.target ≡ true }
    requires lowered { IsLowered legal.names legal.project program.now }
    requires target { places.now.target ≡ legal.project.target }
    requires sizes { places.now.sizes ≡ sizes_of program.now }
    requires built { All (λ op. is_built op ≡ true) program.now.ops }
    requires no_analog { legal.names.analog ≡ [] }
    requires no_duty { any_pwm (all_leaves legal.project.rungs) ≡ false }
{
    let layout = match layout_of(alloc, &legal, places) {
        Ok(layout) => layout,
        Err(e) => return Err(Refusal::Memory(e)),
    };
    linked_is_placed();
    match lower_bytes(alloc, &layout, program) {
        Ok(code) => Ok(LadderCode {
            legal,
            layout,
            code,
        }),
        Err(e) => Err(Refusal::Memory(e)),
    }
}
