//! Which wires the rungs want.

ghost use Rattle.std.specs.Prelude.{◌≡◌, ◌^◌, ◌<◌};
ghost use Rattle.ladder_tree.specs.Leaves.{all_leaves};
ghost use Rattle.ladder_tree.specs.Visit.{seeks_any};
ghost use Rattle.ladder_lower.specs.Masters.{is_master, any_master};
ghost use Rattle.ladder_lower.specs.Nesting.{nesting, nesting_in, nesting_of_all};

use ladder_tree::element::{Leaf, LeafKind};
use ladder_tree::project::{Node, Rung};
use ladder_tree::visit::{Visitor, visit_all};

/// Stops at the first MASTER_RELAY.
#[derive(Drop)]
struct MasterSought;

impl Visitor for MasterSought {
    type Stop = ();

    ghost at = { seeks_any (λ v l. is_master l.kind) };

    fn visit(&mut self, leaf: &Leaf) -> Option<()> {
        is_master(&leaf.kind).then_some(())
    }
}

/// Whether there is a MASTER_RELAY.
pub fn has_master(rungs: &[Rung]) -> bool
    ensures { result ≡ any_master (all_leaves rungs.now) }
{
    visit_all(&mut MasterSought, rungs).is_some()
}

fn is_master(kind: &LeafKind) -> bool
    ensures { result ≡ is_master kind.now }
{
    matches!(kind, LeafKind::MasterRelay)
}

/// How deep PARALLELs of two branches or more stand in one another.
pub fn nesting(rungs: &[Rung]) -> u32
    requires { nesting_of_all rungs.now < 2 ^ 32 }
    ensures { result ≡ nesting_of_all rungs.now }
{
    let mut deepest = 0;
    for rung in rungs {
        deepest = deepest.max(nesting_in(rung.nodes.as_slice()));
    }
    deepest
}

#[cycle(nest)]
fn nesting_in(nodes: &[Node]) -> u32
    requires { nesting_in nodes.now < 2 ^ 32 }
    ensures { result ≡ nesting_in nodes.now }
{
    let mut deepest = 0;
    for node in nodes {
        let deep = nesting_at(node);
        deepest = deepest.max(deep);
    }
    deepest
}

#[cycle(nest)]
fn nesting_at(node: &Node) -> u32
    requires { nesting node.now < 2 ^ 32 }
    ensures { result ≡ nesting node.now }
{
    match node {
        Node::Leaf(_) => 0,
        Node::Series(nodes) => nesting_in(nodes.as_slice()),
        Node::Parallel(nodes) => {
            let deepest = nesting_in(nodes.as_slice());
            if nodes.len() < 2 {
                deepest
            } else {
                deepest + 1
            }
        }
    }
}
