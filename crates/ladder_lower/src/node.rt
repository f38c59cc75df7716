//! The operations of nodes. A node finds its input on the power wire, and leaves its output there.

ghost use Rattle.std.specs.Prelude.{◌≡◌, ◌≢◌, ◌+◌, ◌≤◌, ◌++◌, true, length, drop, IfOk, OnOk};
ghost use Rattle.ladder_tree.specs.Leaves.{leaves, leaves_in};
ghost use Rattle.ladder_lower.specs.Fit.{all_fit};
ghost use Rattle.ladder_lower.specs.Nesting.{nesting, nesting_in, nesting_of_parallel};
ghost use Rattle.ladder_lower.specs.NodeCode.{piece, nodes_piece, others_of, join, parallel_of};
ghost use Rattle.ladder_lower.specs.Wires.{Fits};

use crate::element::emit_element;
use crate::layout::Layout;
use crate::push::push_all;
use int_code::op::{BitDest, BitSource, IntOp, Ops};
use ladder_tree::project::Node;
use std::alloc::{AllocError, Global};

/// A node inside `depth` PARALLELs and behind `memory` memories. Answers how many there are behind it.
#[cycle(emit)]
fn emit_node(
    alloc: Global,
    ops: &mut Ops,
    layout: &Layout<'_>,
    node: &Node,
    depth: u32,
    memory: u32,
) -> Result<u32, AllocError>
    requires fits { Fits layout.now (depth + nesting node.now) }
    requires room { memory + (piece layout.now node.now).memories ≤ layout.now.memories }
    requires cycle { layout.now.cycle ≢ 0 }
    requires fit { all_fit layout.now.cycle (leaves node.now) ≡ true }
    ensures code { OnOk result (ops.new ≡ ops.old ++ (piece layout.now node.now).code depth memory) }
    ensures memories { IfOk result (λ k. k ≡ memory + (piece layout.now node.now).memories) }
{
    match node {
        Node::Leaf(leaf) => emit_element(alloc, ops, layout, &leaf.kind, memory),
        Node::Series(nodes) => emit_series(alloc, ops, layout, nodes.as_slice(), depth, memory),
        Node::Parallel(nodes) => emit_parallel(alloc, ops, layout, nodes.as_slice(), depth, memory),
    }
}

/// Nodes one after another: each finds the power that the one before it left.
#[cycle(emit)]
pub fn emit_series(
    alloc: Global,
    ops: &mut Ops,
    layout: &Layout<'_>,
    nodes: &[Node],
    depth: u32,
    memory: u32,
) -> Result<u32, AllocError>
    requires fits { Fits layout.now (depth + nesting_in nodes.now) }
    requires room { memory + (nodes_piece layout.now nodes.now).memories ≤ layout.now.memories }
    requires cycle { layout.now.cycle ≢ 0 }
    requires fit { all_fit layout.now.cycle (leaves_in nodes.now) ≡ true }
    ensures code { OnOk result (ops.new ≡ ops.old ++ (nodes_piece layout.now nodes.now).code depth memory) }
    ensures memories { IfOk result (λ k. k ≡ memory + (nodes_piece layout.now nodes.now).memories) }
{
    let mut k = memory;
    for node in nodes {
        k = emit_node(alloc, ops, layout, node, depth, k)?;
    }
    Ok(k)
}

/// No branch switches the power off, and one branch is as if it stood alone. Before more of them the input is kept on a
/// wire, and behind the first its output on another, where those of the others join it.
#[cycle(emit)]
fn emit_parallel(
    alloc: Global,
    ops: &mut Ops,
    layout: &Layout<'_>,
    branches: &[Node],
    depth: u32,
    memory: u32,
) -> Result<u32, AllocError>
    requires fits { Fits layout.now (depth + nesting_of_parallel branches.now) }
    requires room { memory + (parallel_of layout.now branches.now).memories ≤ layout.now.memories }
    requires cycle { layout.now.cycle ≢ 0 }
    requires fit { all_fit layout.now.cycle (leaves_in branches.now) ≡ true }
    ensures code { OnOk result (ops.new ≡ ops.old ++ (parallel_of layout.now branches.now).code depth memory) }
    ensures memories { IfOk result (λ k. k ≡ memory + (parallel_of layout.now branches.now).memories) }
{
    match branches {
        [] => {
            let b = BitDest::B(layout.power());
            ops.push(IntOp::Clr { b })?;
            Ok(memory)
        }
        [first, others @ ..] => {
            if others.is_empty() {
                return emit_node(alloc, ops, layout, first, depth, memory);
            }
            let s = BitSource::B(layout.power());
            ops.push(IntOp::Cpy {
                b: BitDest::B(layout.in_wire(depth)),
                s,
            })?;
            let k = emit_node(alloc, ops, layout, first, depth + 1, memory)?;
            ops.push(IntOp::Cpy {
                b: BitDest::B(layout.or_wire(depth)),
                s,
            })?;
            emit_others(alloc, ops, layout, branches, depth, k)
        }
    }
}

/// The branches behind the first. Each begins on the kept input.
#[cycle(emit)]
fn emit_others(
    alloc: Global,
    ops: &mut Ops,
    layout: &Layout<'_>,
    branches: &[Node],
    depth: u32,
    memory: u32,
) -> Result<u32, AllocError>
    requires some { 1 ≤ length branches.now }
    requires fits { Fits layout.now (depth + 1 + nesting_in branches.now) }
    requires room { memory + (others_of layout.now (drop 1 branches.now)).memories ≤ layout.now.memories }
    requires cycle { layout.now.cycle ≢ 0 }
    requires fit { all_fit layout.now.cycle (leaves_in branches.now) ≡ true }
    ensures code { OnOk result (ops.new ≡ ops.old ++ (others_of layout.now (drop 1 branches.now)).code depth memory) }
    ensures memories { IfOk result (λ k. k ≡ memory + (others_of layout.now (drop 1 branches.now)).memories) }
{
    let power = layout.power();
    let input = layout.in_wire(depth);
    let mut k = memory;
    for i in 1..branches.len() {
        ops.push(IntOp::Cpy {
            b: BitDest::B(power),
            s: BitSource::B(input),
        })?;
        k = emit_node(alloc, ops, layout, &branches[i], depth + 1, k)?;
        emit_join(ops, layout, depth, i + 1 == branches.len())?;
    }
    Ok(k)
}

/// The branch's output joins the OR of those before it: on the power wire behind the last branch, else on the OR wire.
fn emit_join(
    ops: &mut Ops,
    layout: &Layout<'_>,
    depth: u32,
    is_last: bool,
) -> Result<(), AllocError>
    requires { Fits layout.now (depth + 1) }
    ensures { OnOk result (ops.new ≡ ops.old ++ join is_last layout.now depth) }
{
    let power = layout.power();
    let or = layout.or_wire(depth);
    let (from, to) = if is_last { (or, power) } else { (power, or) };
    let s = BitSource::B(from);
    let b = BitDest::B(to);
    push_all(ops, [IntOp::Ifs { s }, IntOp::Set { b }, IntOp::Fi])
}
