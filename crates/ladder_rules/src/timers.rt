//! A quick look at the names of timers, without memory: names with marks of their own differ.

ghost use Rattle.std.specs.Prelude.{◌≡◌, ◌^◌, ◌<◌, length, None, true};
ghost use Rattle.ladder_tree.specs.Leaves.{all_leaves};
ghost use Rattle.ladder_rules.specs.Timers.{mark_of, admitted, looks};
ghost use Rattle.ladder_rules.specs.Verdict.{offence};
ghost use Rattle.ladder_rules.specs.declared.limits.TheConstants.{MARKS};
ghost use Rattle.ladder_rules.specs.declared.rule.ElementRule.TheVariants.{TimerTwice};

use crate::limits::{MARK_FACTOR, MARKS};
use crate::search::first_timer;
use ladder_tree::element::{Leaf, LeafKind, Name};
use ladder_tree::project::{Project, Rung};
use ladder_tree::visit::{Visitor, visit_all};

/// The marks of the timers that were met, of all that the rungs have, and how many elements were met.
#[derive(Drop)]
struct TimersMet<'a> {
    rungs: &'a [Rung],
    passed: u32,
    marks: [bool; MARKS],
}

impl Visitor for TimersMet<'_> {
    type Stop = ();

    ghost at = { looks };

    fn visit(&mut self, leaf: &Leaf) -> Option<()> {
        let is_new = admits(&mut self.marks, self.rungs, &leaf.kind, self.passed);
        self.passed = self.passed.saturating_add(1);
        (!is_new).then_some(())
    }
}

/// Whether no two timers are found to have one name. Only where the mark of a name is set already are the elements before
/// it searched, so this takes a time in proportion to the elements, but for names that share a mark.
pub fn timers_differ(project: &Project) -> bool
    requires { length (all_leaves project.now.rungs) < 2 ^ 32 }
    ensures { result ≡ true → offence project.now TimerTwice ≡ None }
{
    let rungs = project.rungs.as_slice();
    visit_all(&mut none_met(rungs), rungs).is_none()
}

/// No timer and no element was met.
fn none_met(rungs: &[Rung]) -> TimersMet<'_>
    ensures rungs { result.rungs.now ≡ rungs.now }
    ensures passed { result.passed ≡ 0 }
    ensures marks { length result.marks ≡ MARKS }
{
    TimersMet {
        rungs,
        passed: 0,
        marks: [false; MARKS],
    }
}

/// Sets the mark of a timer's name, or says that an earlier timer has the name.
fn admits(marks: &mut [bool; MARKS], rungs: &[Rung], kind: &LeafKind, passed: u32) -> bool
    ensures { (result, marks.new) ≡ admitted (all_leaves rungs.now) passed marks.old kind.now }
{
    match kind {
        LeafKind::Timer { name, .. } => {
            let mark = mark_of(name);
            if marks[mark] && first_timer(name, rungs, passed).is_some() {
                return false;
            }
            marks[mark] = true;
            true
        }
        _ => true,
    }
}

/// A name's mark: a number that depends on its bytes alone.
fn mark_of(name: &Name) -> usize
    ensures exact { result ≡ mark_of name.now }
    ensures small { result < MARKS }
{
    let mut mark = 0;
    for byte in name.as_slice() {
        mark = (mark * MARK_FACTOR + usize::from(*byte)) % MARKS;
    }
    mark
}
