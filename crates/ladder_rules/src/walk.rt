//! The walk through the elements of a project that looks for the first to break a rule.

ghost use Rattle.std.specs.Prelude.{◌≡◌, ◌+◌, ◌^◌, ◌<◌, length};
ghost use Rattle.ladder_tree.specs.Leaves.{all_leaves};
ghost use Rattle.ladder_rules.specs.Places.{placed, placed_series, placed_parallel};
ghost use Rattle.ladder_rules.specs.Rules.{fault_of};
ghost use Rattle.ladder_rules.specs.Verdict.{offence};
ghost use Rattle.ladder_rules.specs.Walk.{walk, verdict};

use crate::rule::{ElementRule, Ladder, fault_at};
use ladder_tree::fault::ProjectFault;
use ladder_tree::project::Node;

/// Whether each element keeps a rule, or the fault of the first that does not.
pub fn keeps(rule: ElementRule, ladder: &Ladder<'_>) -> Result<(), ProjectFault>
    requires { length (all_leaves ladder.now.project.now.rungs) < 2 ^ 32 }
    ensures { result ≡ verdict (offence ladder.now.project.now rule) }
{
    let mut passed = 0;
    for rung in ladder.project.rungs.as_slice() {
        passed = walk_series(rule, ladder, rung.nodes.as_slice(), true, passed)?;
    }
    Ok(())
}

/// Nodes one after another, behind `passed` elements. Answers how many elements there are with theirs.
#[cycle(walk)]
fn walk_series(
    rule: ElementRule,
    ladder: &Ladder<'_>,
    nodes: &[Node],
    at_right_end: bool,
    passed: u32,
) -> Result<u32, ProjectFault>
    requires { passed + length (placed_series nodes.now at_right_end) < 2 ^ 32 }
    ensures { result ≡ walk (fault_of rule ladder.now.project.now) (all_leaves ladder.now.project.now.rungs) passed (placed_series nodes.now at_right_end) }
{
    let mut k = passed;
    for i in 0..nodes.len() {
        let is_last = i + 1 == nodes.len();
        k = walk_node(rule, ladder, &nodes[i], at_right_end && is_last, k)?;
    }
    Ok(k)
}

/// Nodes side by side.
#[cycle(walk)]
fn walk_parallel(
    rule: ElementRule,
    ladder: &Ladder<'_>,
    branches: &[Node],
    at_right_end: bool,
    passed: u32,
) -> Result<u32, ProjectFault>
    requires { passed + length (placed_parallel branches.now at_right_end) < 2 ^ 32 }
    ensures { result ≡ walk (fault_of rule ladder.now.project.now) (all_leaves ladder.now.project.now.rungs) passed (placed_parallel branches.now at_right_end) }
{
    let mut k = passed;
    for branch in branches {
        k = walk_node(rule, ladder, branch, at_right_end, k)?;
    }
    Ok(k)
}

#[cycle(walk)]
fn walk_node(
    rule: ElementRule,
    ladder: &Ladder<'_>,
    node: &Node,
    at_right_end: bool,
    passed: u32,
) -> Result<u32, ProjectFault>
    requires { passed + length (placed node.now at_right_end) < 2 ^ 32 }
    ensures { result ≡ walk (fault_of rule ladder.now.project.now) (all_leaves ladder.now.project.now.rungs) passed (placed node.now at_right_end) }
{
    match node {
        Node::Leaf(leaf) => {
            match fault_at(rule, ladder, leaf, at_right_end, passed) {
                None => Ok(passed + 1),
                Some(fault) => Err(fault),
            }
        }
        Node::Series(nodes) => { walk_series(rule, ladder, nodes.as_slice(), at_right_end, passed) }
        Node::Parallel(nodes) => {
            walk_parallel(rule, ladder, nodes.as_slice(), at_right_end, passed)
        }
    }
}
