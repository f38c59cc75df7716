//! The visit to the elements of a project, in file order.

ghost use Rattle.std.specs.Prelude.{◌≡◌, Option};
ghost use Rattle.ladder_tree.specs.Leaves.{leaves, leaves_in, all_leaves};
ghost use Rattle.ladder_tree.specs.Visit.{visits};
ghost use Rattle.ladder_tree.specs.declared.element.Leaf as element;

use crate::element::Leaf;
use crate::project::{Node, Rung};

/// What meets elements one after another, and may stop at one.
pub trait Visitor {
    /// What it stops with.
    type Stop;

    /// What it does at an element: what it stops with, if it stops, and what it is from then on.
    ghost at: { Self → element.Leaf → Option Self.Stop × Self };

    /// Meets an element.
    fn visit(&mut self, leaf: &Leaf) -> Option<Self::Stop>
        ensures { (result, self.new) ≡ at self.old leaf.now };
}

/// Visits the elements of rungs in file order, up to the one where the visitor stops. It takes no memory.
pub fn visit_all<V: Visitor>(visitor: &mut V, rungs: &[Rung]) -> Option<V::Stop>
    ensures { (result, visitor.new) ≡ visits V.at visitor.old (all_leaves rungs.now) }
{
    for rung in rungs {
        if let Some(stop) = visit_nodes(visitor, rung.nodes.as_slice()) {
            return Some(stop);
        }
    }
    None
}

#[cycle(visit)]
fn visit_nodes<V: Visitor>(visitor: &mut V, nodes: &[Node]) -> Option<V::Stop>
    ensures { (result, visitor.new) ≡ visits V.at visitor.old (leaves_in nodes.now) }
{
    for node in nodes {
        if let Some(stop) = visit_node(visitor, node) {
            return Some(stop);
        }
    }
    None
}

#[cycle(visit)]
fn visit_node<V: Visitor>(visitor: &mut V, node: &Node) -> Option<V::Stop>
    ensures { (result, visitor.new) ≡ visits V.at visitor.old (leaves node.now) }
{
    match node {
        Node::Leaf(leaf) => visitor.visit(leaf),
        Node::Series(nodes) | Node::Parallel(nodes) => visit_nodes(visitor, nodes.as_slice()),
    }
}
