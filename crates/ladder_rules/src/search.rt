//! Searches among the elements of a project, which take no memory.

ghost use Rattle.std.specs.Prelude.{◌≡◌, take};
ghost use Rattle.std.specs.Option.{option_map};
ghost use Rattle.ladder_tree.specs.Leaves.{all_leaves};
ghost use Rattle.ladder_tree.specs.Peripherals.{rate_of};
ghost use Rattle.ladder_tree.specs.Visit.{seeks};
ghost use Rattle.ladder_rules.specs.Rules.{is_timer_of, first_timer, first_rate};
ghost use Rattle.ladder_rules.specs.Sought.{seeks_timer};

use ladder_tree::element::{Leaf, LeafKind, Name};
use ladder_tree::peripheral::rate_of;
use ladder_tree::project::Rung;
use ladder_tree::visit::{Visitor, visit_all};

/// Stops at the first timer with a name among so many elements, with its line, or behind them.
#[derive(Clone, Copy)]
struct TimerSought<'a> {
    name: &'a Name,
    left: u32,
}

impl Visitor for TimerSought<'_> {
    type Stop = Option<u32>;

    ghost at = { seeks_timer };

    fn visit(&mut self, leaf: &Leaf) -> Option<Option<u32>> {
        if self.left == 0 {
            return Some(None);
        }
        self.left -= 1;
        is_timer_of(self.name, &leaf.kind).then_some(Some(leaf.line))
    }
}

/// The line of the first timer with a name among the first so many elements.
pub fn first_timer(name: &Name, rungs: &[Rung], among: u32) -> Option<u32>
    ensures { result ≡ option_map (λ l. l.line) (first_timer name.now (take among (all_leaves rungs.now))) }
{
    match visit_all(&mut TimerSought { name, left: among }, rungs) {
        Some(line) => line,
        None => None,
    }
}

/// Whether it is a timer with a name.
fn is_timer_of(name: &Name, kind: &LeafKind) -> bool
    ensures { result ≡ is_timer_of name.now kind.now }
{
    match kind {
        LeafKind::Timer { name: other, .. } => name.as_slice() == other.as_slice(),
        _ => false,
    }
}

/// Stops at the first SET_PWM, with its hertz.
#[derive(Clone, Copy)]
struct RateSought;

impl Visitor for RateSought {
    type Stop = u32;

    ghost at = { seeks (λ v l. rate_of l.kind) };

    fn visit(&mut self, leaf: &Leaf) -> Option<u32> {
        rate_of(&leaf.kind)
    }
}

/// The hertz of the first SET_PWM.
pub fn first_rate(rungs: &[Rung]) -> Option<u32>
    ensures { result ≡ first_rate (all_leaves rungs.now) }
{
    visit_all(&mut RateSought, rungs)
}
