//! The elements of a project in file order.

ghost use Rattle.std.specs.Prelude.{◌≡◌, ◌++◌, map, OnOk, IfOk};
ghost use Rattle.ladder_tree.specs.Leaves.{leaves, leaves_in, all_leaves};

use crate::element::Leaf;
use crate::project::{Node, Project};
use std::alloc::{AllocError, Global};

/// The elements of a project in file order.
pub fn leaves_in_order<'a>(alloc: Global, project: &'a Project) -> Result<Vec<&'a Leaf>, AllocError>
    ensures { IfOk result (λ v. map (λ l. l.now) v.items ≡ all_leaves project.now.rungs) }
{
    let mut all = Vec::new(alloc);
    for rung in project.rungs.as_slice() {
        push_series(&mut all, rung.nodes.as_slice())?;
    }
    Ok(all)
}

#[cycle(leaves)]
fn push_node<'a>(all: &mut Vec<&'a Leaf>, node: &'a Node) -> Result<(), AllocError>
    ensures { OnOk result (map (λ l. l.now) all.new.items ≡ map (λ l. l.now) all.old.items ++ leaves node.now) }
{
    match node {
        Node::Leaf(leaf) => {
            all.push(leaf)?;
            Ok(())
        }
        Node::Series(nodes) => push_series(all, nodes.as_slice()),
        Node::Parallel(nodes) => push_series(all, nodes.as_slice()),
    }
}

#[cycle(leaves)]
fn push_series<'a>(all: &mut Vec<&'a Leaf>, nodes: &'a [Node]) -> Result<(), AllocError>
    ensures { OnOk result (map (λ l. l.now) all.new.items ≡ map (λ l. l.now) all.old.items ++ leaves_in nodes.now) }
{
    for node in nodes {
        push_node(all, node)?;
    }
    Ok(())
}
