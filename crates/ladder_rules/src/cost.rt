//! Costs summed over a project.

ghost use Rattle.std.specs.Prelude.{◌≡◌, ◌*◌, ◌^◌, ◌<◌, length};
ghost use Rattle.ladder_rules.specs.Limits.{extent};
ghost use Rattle.ladder_rules.specs.Needs.{timer_row, math_row, row_of_element, steps, fixed, each, times, field_bytes, growing, element_cost, node_cost, nodes_cost, rungs_cost, total};

use crate::formatted;
use crate::formatted::sent_length;
use chip_tables::{CostKind, Target, cost};
use ladder_tree::element::{LeafKind, MathHow, TimerHow};
use ladder_tree::project::{Node, Rung};

/// A column of the table of costs.
#[derive(Clone, Copy)]
pub enum Column {
    /// Words of program flash.
    Words,
    /// Instruction cycles in a cycle of the ladder.
    Cycles,
    /// Operations of the interpreter.
    Ops,
}

/// What counts once.
pub fn fixed(column: Column, target: Target, row: CostKind) -> u32
    ensures { result ≡ fixed column target row }
{
    let cost = cost(target, row);
    match column {
        Column::Words => cost.words,
        Column::Cycles => cost.cycles,
        Column::Ops => cost.ops,
    }
}

/// What counts for each place, value, point or byte.
fn each(column: Column, target: Target, row: CostKind) -> u32
    ensures { result ≡ each column target row }
{
    let cost = cost(target, row);
    match column {
        Column::Words => cost.words_each,
        Column::Cycles => cost.cycles_each,
        Column::Ops => cost.ops_each,
    }
}

/// How often it counts.
fn times(column: Column, kind: &LeafKind) -> usize
    ensures { result ≡ times column kind.now }
{
    match column {
        Column::Words | Column::Cycles => steps(kind),
        Column::Ops => extent(kind),
    }
}

/// What counts for the places, values, points or bytes of an element, and for its field.
fn growing(column: Column, target: Target, kind: &LeafKind) -> u32
    requires { growing column target kind.now < 2 ^ 32 }
    ensures { result ≡ growing column target kind.now }
{
    let row = row_of_element(kind);
    product(each(column, target, row), times(column, kind))
        + product(
            each(column, target, CostKind::FormattedField),
            field_bytes(kind),
        )
}

fn product(each: u32, count: usize) -> u32
    requires { each * count < 2 ^ 32 }
    ensures { result ≡ each * count }
{
    (each as usize * count) as u32
}

/// A column's sum over the base, the rungs, the PARALLELs, their branches and the elements.
pub fn total(column: Column, target: Target, rungs: &[Rung]) -> u32
    requires { total column target rungs.now < 2 ^ 32 }
    ensures { result ≡ total column target rungs.now }
{
    let each = fixed(column, target, CostKind::Rung);
    let mut sum = fixed(column, target, CostKind::Base);
    for rung in rungs {
        sum += each + nodes_cost(column, target, rung.nodes.as_slice());
    }
    sum
}

#[cycle(cost)]
fn nodes_cost(column: Column, target: Target, nodes: &[Node]) -> u32
    requires { nodes_cost column target nodes.now < 2 ^ 32 }
    ensures { result ≡ nodes_cost column target nodes.now }
{
    let mut sum = 0;
    for node in nodes {
        sum += node_cost(column, target, node);
    }
    sum
}

/// The nodes of a SERIES cost what they cost alone, those of a PARALLEL are branches.
#[cycle(cost)]
fn node_cost(column: Column, target: Target, node: &Node) -> u32
    requires { node_cost column target node.now < 2 ^ 32 }
    ensures { result ≡ node_cost column target node.now }
{
    match node {
        Node::Leaf(leaf) => {
            let kind = &leaf.kind;
            fixed(column, target, row_of_element(kind)) + growing(column, target, kind)
        }
        Node::Series(nodes) => nodes_cost(column, target, nodes.as_slice()),
        Node::Parallel(branches) => {
            let once = fixed(column, target, CostKind::Parallel);
            let each = fixed(column, target, CostKind::Branch);
            let inside = nodes_cost(column, target, branches.as_slice());
            once + (product(each, branches.len()) + inside)
        }
    }
}

/// An element's row in the table of costs.
fn row_of_element(kind: &LeafKind) -> CostKind
    ensures { result ≡ row_of_element kind.now }
{
    match kind {
        LeafKind::Contacts { .. } => CostKind::Contacts,
        LeafKind::Coil { .. } => CostKind::Coil,
        LeafKind::Osr | LeafKind::Osf => CostKind::OneShot,
        LeafKind::Open => CostKind::Open,
        LeafKind::MasterRelay => CostKind::MasterRelay,
        LeafKind::Timer { how, .. } => timer_row(*how),
        LeafKind::Counter { .. } => CostKind::Count,
        LeafKind::Reset { .. } => CostKind::Reset,
        LeafKind::Move { .. } => CostKind::Move,
        LeafKind::Math { how, .. } => math_row(*how),
        LeafKind::Compare { .. } => CostKind::Compare,
        LeafKind::Shift { .. } => CostKind::Shift,
        LeafKind::Table { .. } => CostKind::Table,
        LeafKind::ReadAdc { .. } => CostKind::ReadAdc,
        LeafKind::SetPwm { .. } => CostKind::SetPwm,
        LeafKind::Recv { .. } | LeafKind::Send { .. } => CostKind::Uart,
        LeafKind::Persist { .. } => CostKind::Persist,
        LeafKind::Linear { .. } => CostKind::Linear,
        LeafKind::Formatted { .. } => CostKind::Formatted,
        LeafKind::Short | LeafKind::Placeholder | LeafKind::Comment { .. } => CostKind::Still,
    }
}

fn timer_row(how: TimerHow) -> CostKind
    ensures { result ≡ timer_row how }
{
    match how {
        TimerHow::Ton | TimerHow::Rto => CostKind::TonRto,
        TimerHow::Tof => CostKind::Tof,
    }
}

fn math_row(how: MathHow) -> CostKind
    ensures { result ≡ math_row how }
{
    match how {
        MathHow::Add | MathHow::Sub => CostKind::AddSub,
        MathHow::Mul => CostKind::Mul,
        MathHow::Div => CostKind::Div,
    }
}

/// How many places, values or points an element has, or bytes it sends.
fn extent(kind: &LeafKind) -> usize
    ensures { result ≡ extent kind.now }
{
    match kind {
        LeafKind::Shift { places, .. } => usize::from(*places),
        LeafKind::Table { values, .. } => values.len(),
        LeafKind::Linear { points, .. } => points.len() / 2,
        LeafKind::Formatted { text, .. } => sent_length(text.as_slice()),
        _ => 0,
    }
}

/// How many bytes are sent for the field of a formatted string.
fn field_bytes(kind: &LeafKind) -> usize
    ensures { result ≡ field_bytes kind.now }
{
    match kind {
        LeafKind::Formatted { text, .. } => formatted::field_bytes(text.as_slice()),
        _ => 0,
    }
}

/// How often the growing part of words and cycles counts.
fn steps(kind: &LeafKind) -> usize
    ensures { result ≡ steps kind.now }
{
    match kind {
        LeafKind::Shift { places, .. } => usize::from(*places).saturating_sub(1),
        _ => extent(kind),
    }
}
