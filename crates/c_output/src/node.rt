//! The C text of nodes. A node finds its input in `f`, and leaves its output there.

ghost use Rattle.std.specs.Prelude.{◌≡◌, ◌≢◌, ◌+◌, ◌≤◌, ◌<◌, ◌^◌, ◌++◌, IfOk, OnOk};
ghost use Rattle.ladder_tree.specs.declared.limits.TheConstants.{DEPTH};
ghost use Rattle.ladder_tree.specs.Leaves.{depth_of, depth_in};
ghost use Rattle.ladder_lower.specs.Wires.{Fits};
ghost use Rattle.c_output.specs.Laid.{terms_of};
ghost use Rattle.c_output.specs.Node.{part, series_of, branches_of, parallel_of};

use crate::element::push_element;
use crate::filled::push_numbered;
use ladder_lower::layout::Layout;
use ladder_tree::names::memories;
use ladder_tree::project::Node;
use std::alloc::{AllocError, Global};

/// Appends the text of a node inside `depth` PARALLELs and behind `memory` memories. Answers how many there are behind it.
#[cycle(nodes)]
fn push_node(
    alloc: Global,
    text: &mut Vec<u8>,
    layout: &Layout<'_>,
    node: &Node,
    depth: usize,
    memory: usize,
) -> Result<usize, AllocError>
    requires fits { Fits layout.now 0 }
    requires cycle { layout.now.cycle ≢ 0 }
    requires depth { depth + depth_of node.now ≤ DEPTH }
    requires room { memory + (part (terms_of layout.now) node.now).memories < 2 ^ 32 }
    ensures text { OnOk result (text.new.items ≡ text.old.items ++ (part (terms_of layout.now) node.now).text depth memory) }
    ensures memories { IfOk result (λ k. k ≡ memory + (part (terms_of layout.now) node.now).memories) }
{
    match node {
        Node::Leaf(leaf) => {
            push_element(alloc, text, layout, &leaf.kind, memory)?;
            Ok(memory + memories(&leaf.kind) as usize)
        }
        Node::Series(nodes) => push_series(alloc, text, layout, nodes.as_slice(), depth, memory),
        Node::Parallel(nodes) => {
            push_parallel(alloc, text, layout, nodes.as_slice(), depth, memory)
        }
    }
}

/// Appends the text of nodes one after another: each finds the power that the one before it left.
#[cycle(nodes)]
pub fn push_series(
    alloc: Global,
    text: &mut Vec<u8>,
    layout: &Layout<'_>,
    nodes: &[Node],
    depth: usize,
    memory: usize,
) -> Result<usize, AllocError>
    requires fits { Fits layout.now 0 }
    requires cycle { layout.now.cycle ≢ 0 }
    requires depth { depth + depth_in nodes.now ≤ DEPTH }
    requires room { memory + (series_of (terms_of layout.now) nodes.now).memories < 2 ^ 32 }
    ensures text { OnOk result (text.new.items ≡ text.old.items ++ (series_of (terms_of layout.now) nodes.now).text depth memory) }
    ensures memories { IfOk result (λ k. k ≡ memory + (series_of (terms_of layout.now) nodes.now).memories) }
{
    let mut k = memory;
    for node in nodes {
        k = push_node(alloc, text, layout, node, depth, k)?;
    }
    Ok(k)
}

/// Appends the text of nodes side by side: the input is kept, and the outputs of the branches are joined.
#[cycle(nodes)]
fn push_parallel(
    alloc: Global,
    text: &mut Vec<u8>,
    layout: &Layout<'_>,
    nodes: &[Node],
    depth: usize,
    memory: usize,
) -> Result<usize, AllocError>
    requires fits { Fits layout.now 0 }
    requires cycle { layout.now.cycle ≢ 0 }
    requires depth { depth + depth_in nodes.now < DEPTH }
    requires room { memory + (parallel_of (terms_of layout.now) nodes.now).memories < 2 ^ 32 }
    ensures text { OnOk result (text.new.items ≡ text.old.items ++ (parallel_of (terms_of layout.now) nodes.now).text depth memory) }
    ensures memories { IfOk result (λ k. k ≡ memory + (parallel_of (terms_of layout.now) nodes.now).memories) }
{
    push_numbered(alloc, text, "i_# = f; o_# = 0;\n", depth)?;
    let k = push_branches(alloc, text, layout, nodes, depth, memory)?;
    push_numbered(alloc, text, "f = o_#;\n", depth)?;
    Ok(k)
}

/// Appends the text of branches. Each begins on the kept input.
#[cycle(nodes)]
fn push_branches(
    alloc: Global,
    text: &mut Vec<u8>,
    layout: &Layout<'_>,
    nodes: &[Node],
    depth: usize,
    memory: usize,
) -> Result<usize, AllocError>
    requires fits { Fits layout.now 0 }
    requires cycle { layout.now.cycle ≢ 0 }
    requires depth { depth + depth_in nodes.now < DEPTH }
    requires room { memory + (branches_of (terms_of layout.now) nodes.now).memories < 2 ^ 32 }
    ensures text { OnOk result (text.new.items ≡ text.old.items ++ (branches_of (terms_of layout.now) nodes.now).text depth memory) }
    ensures memories { IfOk result (λ k. k ≡ memory + (branches_of (terms_of layout.now) nodes.now).memories) }
{
    let mut k = memory;
    for node in nodes {
        push_numbered(alloc, text, "f = i_#;\n", depth)?;
        k = push_node(alloc, text, layout, node, depth + 1, k)?;
        push_numbered(alloc, text, "if (f) o_# = 1;\n", depth)?;
    }
    Ok(k)
}
