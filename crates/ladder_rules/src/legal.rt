//! Projects that keep the rules.

ghost use Rattle.std.specs.Prelude.{◌≡◌, None, Some, IfOk, IfErr, IfSome, is_some, true, not};
ghost use Rattle.std.specs.Bool.{then_some};
ghost use Rattle.std.specs.List.{list_all};
ghost use Rattle.ladder_tree.specs.Leaves.{all_leaves};
ghost use Rattle.ladder_tree.specs.Names.{names_of, has_kind};
ghost use Rattle.ladder_tree.specs.Peripherals.{any_pwm, any_uart};
ghost use Rattle.ladder_rules.specs.Limits.{IsWithinLimits};
ghost use Rattle.ladder_rules.specs.Pins.{is_chip};
ghost use Rattle.ladder_rules.specs.Settings.{settings_of};
ghost use Rattle.ladder_rules.specs.Verdict.{rule, cycle_range};
ghost use Rattle.ladder_tree.specs.declared.fault.ProjectFault.TheVariants as fault;

use crate::chip_rule::ChipRule;
use crate::owners::pin_twice;
use crate::pins::is_chip;
use crate::rule::{ElementRule, ladder_of};
use crate::settings::settings_of;
use crate::timers::timers_differ;
use crate::walk::keeps;
use chip_tables::{Settings, timer_setting};
use ladder_tree::fault::ProjectFault;
use ladder_tree::names::Names;
use ladder_tree::project::Project;

/// A project that is within the limits and keeps the rules, and its names.
#[derive(Drop)]
pub struct Legal {
    project: Project,
    names: Names,
    pub ghost limits: { IsWithinLimits project.rungs },
    pub ghost rules: { rule project ≡ None },
    pub ghost named: { names ≡ names_of project.rungs },
}

impl Legal {
    /// The project.
    pub fn project(&self) -> &Project
        ensures { result.now ≡ self.now.project }
    {
        &self.project
    }

    /// The project's names.
    pub fn names(&self) -> &Names
        ensures { result.now ≡ self.now.names }
    {
        &self.names
    }

    /// The settings of the devices that the project uses, where the target is a chip. It takes no memory.
    #[tactic(auto, using(crate::proofs::RuleLemmas::settings_there))]
    pub fn settings(&self) -> Option<Settings>
        ensures value { result ≡ settings_of self.now.project }
        ensures chip { is_some result ≡ is_chip self.now.project.target }
        ensures devices { IfSome result (λ s. (is_some s.baud ≡ any_uart (all_leaves self.now.project.rungs)) × (is_some s.pwm ≡ any_pwm (all_leaves self.now.project.rungs))) }
    {
        settings_of(&self.project)
    }
}

/// A project that keeps the rules, with its names, or the fault of the first rule that is broken. It takes no memory.
#[tactic(auto, using(crate::proofs::KindLemmas::kinds_kept))]
pub fn check(project: Project, names: Names) -> Result<Legal, ProjectFault>
    requires limits { IsWithinLimits project.rungs }
    requires named { names ≡ names_of project.rungs }
    ensures ok { IfOk result (λ l. (rule project ≡ None) × (l.project ≡ project) × (l.names ≡ names)) }
    ensures kinds { IfOk result (λ l. list_all (λ x. has_kind x.kind) (all_leaves l.project.rungs) ≡ true) }
    ensures err { IfErr result (λ f. rule project ≡ Some f) }
{
    keeps_all(&project)?;
    Ok(Legal { project, names })
}

/// Tries the rules in the order of their faults' numbers. It refuses with the first that is broken, at the first element
/// in file order that breaks it.
fn keeps_all(project: &Project) -> Result<(), ProjectFault>
    requires { IsWithinLimits project.now.rungs }
    ensures ok { IfOk result (λ u. rule project.now ≡ None) }
    ensures err { IfErr result (λ f. rule project.now ≡ Some f) }
{
    let ladder = ladder_of(project);
    keeps(ElementRule::NotRightmost, &ladder)?;
    keeps(ElementRule::WrongKind, &ladder)?;
    if !timers_differ(project) {
        keeps(ElementRule::TimerTwice, &ladder)?;
    }
    keeps(ElementRule::TimerShort, &ladder)?;
    keeps(ElementRule::TimerLong, &ladder)?;
    keeps(ElementRule::OnChip(ChipRule::NoAdc), &ladder)?;
    keeps(ElementRule::OnChip(ChipRule::NoPwm), &ladder)?;
    keeps(ElementRule::PwmTwoRates, &ladder)?;
    keeps(ElementRule::OnChip(ChipRule::PinUnassigned), &ladder)?;
    if let Some(fault) = pin_twice(project) {
        return Err(fault);
    }
    keeps(ElementRule::OnChip(ChipRule::NoSuchPin), &ladder)?;
    keeps(ElementRule::OnChip(ChipRule::PinTaken), &ladder)?;
    if !has_cycle(project) {
        return Err(ProjectFault::CycleRange { line: 0 });
    }
    keeps(ElementRule::OnChip(ChipRule::BaudRange), &ladder)?;
    keeps(ElementRule::OnChip(ChipRule::PwmRange), &ladder)
}

/// Whether there is a cycle time that the target can make.
fn has_cycle(project: &Project) -> bool
    ensures { cycle_range project.now ≡ then_some (not result) (fault.CycleRange 0) }
{
    let timer = timer_setting(project.target, project.cycle, project.crystal);
    project.cycle != 0 && (!is_chip(project.target) || timer.is_some())
}
