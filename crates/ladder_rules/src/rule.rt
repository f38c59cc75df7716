//! The rules for single elements.

ghost use Rattle.std.specs.Prelude.{◌≡◌, take};
ghost use Rattle.std.specs.Option.{option_map};
ghost use Rattle.ladder_tree.specs.Leaves.{all_leaves};
ghost use Rattle.ladder_tree.specs.Peripherals.{rate_of};
ghost use Rattle.ladder_rules.specs.Rules.{ends_rung, is_of_kind, earlier_timer, is_short, is_long, are_apart, fault_of};
ghost use Rattle.ladder_rules.specs.Pins.{is_chip};
ghost use Rattle.ladder_rules.specs.Rules.{first_rate as rate_in};
ghost use Rattle.ladder_rules.specs.Walk.{spot_at};

use crate::chip_rule::{ChipRule, chip_fault};
use crate::limits::LONGEST_PERIOD;
use crate::pins::is_chip;
use crate::search::{first_rate, first_timer};
use ladder_tree::element::{CounterHow, Leaf, LeafKind};
use ladder_tree::fault::ProjectFault;
use ladder_tree::names::begins_with;
use ladder_tree::peripheral::rate_of;
use ladder_tree::project::Project;

/// A rule that each element keeps or breaks. Its fault has its name.
#[derive(Clone, Copy)]
pub enum ElementRule {
    NotRightmost,
    WrongKind,
    TimerTwice,
    TimerShort,
    TimerLong,
    PwmTwoRates,
    OnChip(ChipRule),
}

/// A project whose elements are judged, and the hertz of its first SET_PWM.
#[derive(Clone, Copy)]
pub struct Ladder<'a> {
    pub project: &'a Project,
    pub first_rate: Option<u32>,
    ghost rate: { first_rate ≡ rate_in (all_leaves project.now.rungs) },
}

/// The ladder of a project.
pub fn ladder_of(project: &Project) -> Ladder<'_>
    ensures { result.project.now ≡ project.now }
{
    Ladder {
        project,
        first_rate: first_rate(project.rungs.as_slice()),
    }
}

/// The fault of an element behind `passed` others, where it breaks a rule.
pub fn fault_at(
    rule: ElementRule,
    ladder: &Ladder<'_>,
    leaf: &Leaf,
    at_right_end: bool,
    passed: u32,
) -> Option<ProjectFault>
    ensures { let p = ladder.now.project.now in result ≡ fault_of rule p (spot_at (all_leaves p.rungs) passed leaf.now at_right_end) }
{
    let project = ladder.project;
    let line = leaf.line;
    let kind = &leaf.kind;
    match rule {
        ElementRule::NotRightmost => {
            let stops_short = ends_rung(kind) && !at_right_end;
            stops_short.then_some(ProjectFault::NotRightmost { line })
        }
        ElementRule::WrongKind => (!is_of_kind(kind)).then_some(ProjectFault::WrongKind { line }),
        ElementRule::TimerTwice => {
            let first = earlier_timer(project, kind, passed)?;
            Some(ProjectFault::TimerTwice { line, first })
        }
        ElementRule::TimerShort => {
            is_short(project.cycle, kind).then_some(ProjectFault::TimerShort { line })
        }
        ElementRule::TimerLong => {
            is_long(project.cycle, kind).then_some(ProjectFault::TimerLong { line })
        }
        ElementRule::PwmTwoRates => {
            has_other_rate(ladder.first_rate, kind).then_some(ProjectFault::PwmTwoRates { line })
        }
        ElementRule::OnChip(rule) => {
            if is_chip(project.target) {
                chip_fault(rule, project, leaf)
            } else {
                None
            }
        }
    }
}

/// Whether it must stand at the right end of its rung.
fn ends_rung(kind: &LeafKind) -> bool
    ensures { result ≡ ends_rung kind.now }
{
    match kind {
        LeafKind::Counter { how, .. } => matches!(how, CounterHow::Ctc),
        LeafKind::Coil { .. }
        | LeafKind::Reset { .. }
        | LeafKind::Move { .. }
        | LeafKind::Math { .. }
        | LeafKind::Shift { .. }
        | LeafKind::Table { .. }
        | LeafKind::Persist { .. }
        | LeafKind::MasterRelay => true,
        _ => false,
    }
}

/// Whether its name begins with a letter of its kind.
fn is_of_kind(kind: &LeafKind) -> bool
    ensures { result ≡ is_of_kind kind.now }
{
    match kind {
        LeafKind::Contacts { name, .. } => {
            begins_with(name, b'X') || begins_with(name, b'Y') || begins_with(name, b'R')
        }
        LeafKind::Coil { name, .. } => begins_with(name, b'Y') || begins_with(name, b'R'),
        LeafKind::Timer { name, .. } => begins_with(name, b'T'),
        LeafKind::Counter { name, .. } => begins_with(name, b'C'),
        LeafKind::Reset { name } => begins_with(name, b'T') || begins_with(name, b'C'),
        LeafKind::ReadAdc { name } => begins_with(name, b'A'),
        LeafKind::Placeholder => false,
        _ => true,
    }
}

/// The line of the earlier timer with the name of an element behind `passed` others, where that is a timer.
fn earlier_timer(project: &Project, kind: &LeafKind, passed: u32) -> Option<u32>
    ensures { result ≡ option_map (λ l. l.line) (earlier_timer kind.now (take passed (all_leaves project.now.rungs))) }
{
    match kind {
        LeafKind::Timer { name, .. } => first_timer(name, project.rungs.as_slice(), passed),
        _ => None,
    }
}

/// Whether it is a timer whose delay has no whole cycle.
fn is_short(cycle: u32, kind: &LeafKind) -> bool
    ensures { result ≡ is_short cycle kind.now }
{
    match kind {
        LeafKind::Timer { delay, .. } => cycle != 0 && delay / cycle == 0,
        _ => false,
    }
}

/// Whether it is a timer whose delay has more cycles than a timer counts.
fn is_long(cycle: u32, kind: &LeafKind) -> bool
    ensures { result ≡ is_long cycle kind.now }
{
    match kind {
        LeafKind::Timer { delay, .. } => cycle != 0 && delay / cycle > LONGEST_PERIOD,
        _ => false,
    }
}

/// Whether it is a SET_PWM at another rate than the first.
fn has_other_rate(first: Option<u32>, kind: &LeafKind) -> bool
    ensures { result ≡ are_apart (rate_of kind.now) first }
{
    match (rate_of(kind), first) {
        (Some(hz), Some(first)) => hz != first,
        _ => false,
    }
}
