//! The code of a program.

ghost use Rattle.std.specs.Prelude.{◌≡◌, ◌≤◌, ◌<◌, ◌^◌, ◌+◌, ◌++◌, [], length, reverse, true, All, IfOk, OnOk};
ghost use Rattle.std.specs.List.{list_all};
ghost use Rattle.int_code.specs.WellFormed.{IsInRange};
ghost use Rattle.byte_code.specs.Admitted.{admits};
ghost use Rattle.byte_code.specs.Lowered.{IsListed};
ghost use Rattle.byte_lower.specs.Outfit.{outfit_of};
ghost use Rattle.byte_lower.specs.Uses.{Uses};
ghost use Rattle.byte_lower.specs.Layout.{room_of};
ghost use Rattle.byte_lower.specs.Listed.{operations, routines_in, starts_in};
ghost use Rattle.byte_lower.specs.Whole.{HasLabels};
ghost use Rattle.byte_lower.specs.Emitted.{Goes};
ghost use Rattle.byte_lower.specs.Lists.{is_built, labels_behind, lists_of, top_of};
ghost use Rattle.byte_lower.specs.Code as spec;
ghost use Rattle.byte_lower.specs.Code.{CanPlace, Carries, code_of, start_values};

use crate::calls::push_routines;
use crate::guard::guard_at;
use crate::layout::Layout;
use crate::numbers::{number, put};
use crate::operation::{emit, put_where};
use crate::push::paced;
use byte_code::prim::{BytePrim, Paced, Prims};
use int_code::op::{IntOp, IntProgram, Shape};
use std::alloc::{AllocError, Global};

/// The number of the first operation: the labels up to it are those of the loop and of the routines.
const FIRST: u32 = 5;

fn booted(prim: BytePrim) -> Paced
    ensures { result ≡ spec.booted prim }
{
    Paced {
        prim,
        boot: 1,
        turns: 0,
    }
}

fn polling(prim: BytePrim) -> Paced
    ensures { result ≡ spec.polling prim }
{
    Paced {
        prim,
        boot: 1,
        turns: 1,
    }
}

/// The label of the innermost open if.
fn top_of(labels: &[u32]) -> u32
    ensures { result ≡ top_of (reverse labels.now) }
{
    match labels.last() {
        Some(label) => *label,
        None => 0,
    }
}

/// The labels of the open ifs, the innermost last, behind an operation with the label `label`.
fn follow(labels: &mut Vec<u32>, shape: Shape, k: u32) -> Result<(), AllocError>
    requires { k + 1 < 2 ^ 32 }
    ensures { OnOk result (reverse labels.new.items ≡ labels_behind shape k (reverse labels.old.items)) }
{
    match shape {
        Shape::Opens => labels.push(k + 1)?,
        Shape::Turns => {
            if labels.pop().is_some() {
                labels.push(k + 1)?;
            }
        }
        Shape::Closes => {
            labels.pop();
        }
        Shape::Plain => {}
    }
    Ok(())
}

/// Appends the list of operation `k`, or of the if that it begins where that is one primitive. It says how many operations behind it are in the list
/// too. The labels are those of the open ifs, the innermost last.
fn emit_next(
    code: &mut Prims,
    alloc: Global,
    layout: &Layout,
    ops: &[IntOp],
    k: usize,
    labels: &mut Vec<u32>,
) -> Result<u32, AllocError>
    requires some { k < length ops.now }
    requires built { All (λ op. is_built op ≡ true) ops.now }
    requires range { All (IsInRange (room_of layout.now)) ops.now }
    requires few { length ops.now ≤ 1000000 }
    ensures { IfOk result (λ passed. Goes layout.now ops.now k (reverse labels.old.items) (reverse labels.new.items) passed code.old code.new) }
{
    match guard_at(ops, k) {
        Some(guard) => {
            code.push(put_where(layout, guard))?;
            Ok(2)
        }
        None => {
            let op = &ops[k];
            let top = top_of(labels.as_slice());
            emit(code, alloc, layout, op, k as u32 + 1 + FIRST, top)?;
            follow(labels, op.shape(), k as u32 + FIRST)?;
            Ok(0)
        }
    }
}

/// Appends the lists of operations.
#[tactic(auto, using(crate::proofs::ListLemmas::pass_step))]
fn emit_all(
    code: &mut Prims,
    alloc: Global,
    layout: &Layout,
    ops: &[IntOp],
) -> Result<(), AllocError>
    requires built { All (λ op. is_built op ≡ true) ops.now }
    requires range { All (IsInRange (room_of layout.now)) ops.now }
    requires few { length ops.now ≤ 1000000 }
    ensures { OnOk result (code.new ≡ code.old ++ lists_of layout.now 0 ops.now 5 []) }
{
    let mut labels: Vec<u32> = Vec::new(alloc);
    let mut passed = 0;
    for k in 0..ops.len() {
        if passed == 0 {
            passed = emit_next(code, alloc, layout, ops, k, &mut labels)?;
        } else {
            passed -= 1;
        }
    }
    Ok(())
}

/// Appends the start values of variables, of which 0 takes no primitive.
fn emit_starts(code: &mut Prims, layout: &Layout, starts: &[i16]) -> Result<(), AllocError>
    requires { length starts.now ≤ layout.now.plan.sizes.variables }
    ensures { OnOk result (code.new ≡ code.old ++ start_values layout.now starts.now 0) }
{
    for v in 0..starts.len() {
        if starts[v] != 0 {
            let prim = put(layout, v as u32, number(starts[v])).prim;
            code.push(booted(prim))?;
        }
    }
    Ok(())
}

/// The start, the start values, the cycle, and the routines behind it.
fn emit_program(alloc: Global, layout: &Layout, program: &IntProgram) -> Result<Prims, AllocError>
    requires { CanPlace layout.now program.now }
    ensures { IfOk result (λ code. code ≡ code_of layout.now program.now) }
{
    let cells = layout.cells();
    let mut code = Prims::new(alloc);
    code.push(booted(BytePrim::Start { cells }))?;
    emit_starts(&mut code, layout, program.starts.as_slice())?;
    code.push(polling(BytePrim::Label { label: 0 }))?;
    code.push(polling(BytePrim::CyclePoll { label: 0 }))?;
    emit_all(&mut code, alloc, layout, program.ops.as_slice())?;
    code.push(paced(BytePrim::Jump { label: 0 }))?;
    push_routines(&mut code, layout, program.ops.as_slice())?;
    Ok(code)
}

/// The code of a program: it clears the cells of the variables and kept bits, sets the start values, and in each cycle does what the operations do,
/// on the levels at the inputs' pins.
pub fn lower_bytes(
    alloc: Global,
    layout: &Layout,
    program: &IntProgram,
) -> Result<Prims, AllocError>
    requires { CanPlace layout.now program.now }
    ensures code { IfOk result (λ code. code ≡ code_of layout.now program.now) }
    ensures runs { IfOk result (λ code. Carries layout.now program.now code) }
    ensures whole { IfOk result (λ code. HasLabels code) }
    ensures listed { IfOk result (λ code. IsListed layout.now.plan.target (starts_in program.now.starts) (routines_in program.now.ops) (operations layout.now program.now) code) }
    ensures admitted { IfOk result (λ code. list_all (λ p. admits (outfit_of layout.now) p.prim) code ≡ true) }
    ensures uses { IfOk result (λ code. All (λ p. Uses layout.now p.prim) code) }
{
    match emit_program(alloc, layout, program) {
        Ok(code) => Ok(code),
        Err(e) => Err(e),
    }
}
