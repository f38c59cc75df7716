//! The program of a project.

ghost use Rattle.std.specs.Prelude.{◌≡◌, ◌≢◌, ◌+◌, ◌≤◌, true, [], ◌∷◌, ◌++◌, map, IfOk, OnOk};
ghost use Rattle.ladder_tree.specs.Leaves.{all_leaves};
ghost use Rattle.ladder_tree.specs.declared.project.Project.{Project};
ghost use Rattle.ladder_meaning.specs.Cycle.{start_number};
ghost use Rattle.ladder_lower.specs.Fit.{all_fit};
ghost use Rattle.ladder_lower.specs.Masters.{any_master};
ghost use Rattle.ladder_lower.specs.Nesting.{nesting_of_all};
ghost use Rattle.ladder_lower.specs.NodeCode.{rung_start, rungs_code, program_code, memories_of};
ghost use Rattle.ladder_lower.specs.Outcome.{CanLower, IsLowered, HasSizes, IsSmall};
ghost use Rattle.ladder_lower.specs.Wires.{Fits};

use crate::layout::Layout;
use crate::node::emit_series;
use crate::starts::start_values;
use crate::survey::{has_master, nesting};
use int_code::op::{BitDest, BitSource, IntOp, IntProgram, Ops};
use ladder_tree::element::Nums;
use ladder_tree::names::Names;
use ladder_tree::project::{Project, Rung};
use std::alloc::{AllocError, Global};

/// The program of a project. Its operations keep the ladder's history.
pub fn lower(alloc: Global, project: &Project, names: &Names) -> Result<IntProgram, AllocError>
    requires { CanLower names.now project.now }
    ensures { IfOk result (IsLowered names.now project.now) }
{
    let has_master = has_master(project.rungs.as_slice());
    let mut layout = Layout::empty(alloc, project.cycle, has_master);
    lower_by(alloc, project, names, &mut layout)
}

/// The program of a project by a layout, which gets its names.
fn lower_by<'n>(
    alloc: Global,
    project: &Project,
    names: &'n Names,
    layout: &mut Layout<'n>,
) -> Result<IntProgram, AllocError>
    requires project { CanLower names.now project.now }
    requires cycle { layout.old.cycle ≡ project.now.cycle }
    requires master { layout.old.has_master ≡ any_master (all_leaves project.now.rungs) }
    ensures { IfOk result (IsLowered names.now project.now) }
{
    layout.hold(names)?;
    let rungs = project.rungs.as_slice();
    let mut ops = Ops::new(alloc);
    emit_program(alloc, &mut ops, layout, rungs)?;
    let starts = start_values(alloc, project, layout)?;
    let wires = layout.wires(nesting(rungs));
    Ok(assemble(names, ops, wires, starts))
}

/// The program with its sizes: the bits are those of the names, and behind them the wires.
fn assemble(names: &Names, ops: Ops, wires: u32, starts: Nums) -> IntProgram
    requires small { IsSmall names.now }
    requires wires { wires ≤ 48 }
    ensures ops { result.ops ≡ ops }
    ensures sizes { (q : Project) → starts ≡ map (start_number q.cycle (all_leaves q.rungs)) names.now.variables → HasSizes names.now q result }
    ensures bits { result.bits ≡ result.kept_bits + wires }
{
    let kept_bits = names.relays.len() as u32 + (names.memories + names.persistent.len() as u32);
    IntProgram {
        ops,
        inputs: names.inputs.len() as u32,
        outputs: names.outputs.len() as u32,
        analogs: names.analog.len() as u32,
        variables: names.variables.len() as u32,
        kept_bits,
        bits: kept_bits + wires,
        persistent: names.persistent.len() as u32,
        starts,
    }
}

/// The rungs in order, behind the master relay's start where there is one.
fn emit_program(
    alloc: Global,
    ops: &mut Ops,
    layout: &Layout<'_>,
    rungs: &[Rung],
) -> Result<(), AllocError>
    requires fits { Fits layout.now (nesting_of_all rungs.now) }
    requires room { memories_of layout.now rungs.now ≤ layout.now.memories }
    requires cycle { layout.now.cycle ≢ 0 }
    requires fit { all_fit layout.now.cycle (all_leaves rungs.now) ≡ true }
    ensures { OnOk result (ops.new ≡ ops.old ++ program_code layout.now rungs.now) }
{
    if layout.has_master {
        ops.push(IntOp::Set {
            b: BitDest::B(layout.master()),
        })?;
    }
    emit_rungs(alloc, ops, layout, rungs)
}

fn emit_rungs(
    alloc: Global,
    ops: &mut Ops,
    layout: &Layout<'_>,
    rungs: &[Rung],
) -> Result<(), AllocError>
    requires fits { Fits layout.now (nesting_of_all rungs.now) }
    requires room { memories_of layout.now rungs.now ≤ layout.now.memories }
    requires cycle { layout.now.cycle ≢ 0 }
    requires fit { all_fit layout.now.cycle (all_leaves rungs.now) ≡ true }
    ensures { OnOk result (ops.new ≡ ops.old ++ rungs_code layout.now rungs.now 0) }
{
    let mut k = 0;
    for rung in rungs {
        emit_rung_start(ops, layout)?;
        k = emit_series(alloc, ops, layout, rung.nodes.as_slice(), 0, k)?;
    }
    Ok(())
}

/// The power is the master relay bit, which is true where nothing changes it.
fn emit_rung_start(ops: &mut Ops, layout: &Layout<'_>) -> Result<(), AllocError>
    requires { Fits layout.now 0 }
    ensures { OnOk result (ops.new ≡ ops.old ++ rung_start layout.now ∷ []) }
{
    let b = BitDest::B(layout.power());
    let start = if layout.has_master {
        let s = BitSource::B(layout.master());
        IntOp::Cpy { b, s }
    } else {
        IntOp::Set { b }
    };
    ops.push(start)
}
