//! The lists of products and quotients, which call routines, and the routines behind the cycle.

ghost use Rattle.std.specs.Prelude.{◌≡◌, ◌≤◌, ◌++◌, count_by, length, OnOk};
ghost use Rattle.ladder_meaning.specs.Numbers.{computed};
ghost use Rattle.ladder_tree.specs.declared.element.MathHow.TheVariants.{Div, Mul};
ghost use Rattle.int_code.specs.WellFormed.{IsComputed, IsNumSource};
ghost use Rattle.byte_routines.specs.Routines.{multiply, divide};
ghost use Rattle.byte_lower.specs.Code.{if_called, routines_of};
ghost use Rattle.byte_lower.specs.Layout.{room_of};
ghost use Rattle.byte_lower.specs.Lists as lists;

use crate::layout::Layout;
use crate::numbers::{number, put, word};
use crate::push::paced;
use byte_code::prim::{BytePrim, Prims, WordOp, WordSource};
use byte_routines::push::push_all;
use byte_routines::routines::{DIVIDE, MULTIPLY, push_divide, push_multiply};
use chip_tables::Scratch;
use int_code::op::{IntOp, NumSource};
use ld_base::wrap::wrap16;
use std::alloc::AllocError;

fn known_product(n: i16, m: i16) -> i16
    ensures { result ≡ computed Mul n m }
{
    wrap16(i64::from(n) * i64::from(m))
}

/// It is truncated toward zero, and by zero it is 0.
fn known_quotient(n: i16, m: i16) -> i16
    ensures { result ≡ computed Div n m }
{
    let (n, m) = (i64::from(n), i64::from(m));
    if m == 0 {
        return 0;
    }
    wrap16(n / m)
}

fn number_word(layout: &Layout, w: NumSource) -> WordSource
    requires { IsNumSource (room_of layout.now) w }
    ensures { result ≡ lists.word_of_source layout.now w }
{
    match w {
        NumSource::V(a) => word(layout, a),
        NumSource::N(n) => number(n),
    }
}

/// Moves the numbers to the words of the routine with the label, calls it, and moves its result, which is in the word `outcome`.
fn call(
    into: &mut Prims,
    layout: &Layout,
    label: u32,
    outcome: u16,
    v: u32,
    w: NumSource,
    u: NumSource,
) -> Result<(), AllocError>
    requires { IsComputed (room_of layout.now) v w u }
    ensures { OnOk result (into.new ≡ into.old ++ lists.called layout.now label outcome v w u) }
{
    let own = layout.own_cells();
    let left = WordOp::Move {
        to: own.left,
        from: number_word(layout, w),
    };
    let right = WordOp::Move {
        to: own.right,
        from: number_word(layout, u),
    };
    push_all(
        into,
        [
            paced(BytePrim::Word(left)),
            paced(BytePrim::Word(right)),
            paced(BytePrim::Call { label }),
            put(layout, v, WordSource::Cells(outcome)),
        ],
    )
}

/// The variable becomes the product; that of two numbers is known.
pub(crate) fn product(
    into: &mut Prims,
    layout: &Layout,
    v: u32,
    w: NumSource,
    u: NumSource,
) -> Result<(), AllocError>
    requires { IsComputed (room_of layout.now) v w u }
    ensures { OnOk result (into.new ≡ into.old ++ lists.product layout.now v w u) }
{
    match (w, u) {
        (NumSource::N(n), NumSource::N(m)) => into.push(put(
            layout,
            v,
            number(known_product(n, m)),
        )),
        (NumSource::N(_), NumSource::V(_)) | (NumSource::V(_), _) => call(
            into,
            layout,
            MULTIPLY,
            layout.own_cells().outcome,
            v,
            w,
            u,
        ),
    }
}

/// The variable becomes the quotient; that of two numbers is known.
pub(crate) fn quotient(
    into: &mut Prims,
    layout: &Layout,
    v: u32,
    w: NumSource,
    u: NumSource,
) -> Result<(), AllocError>
    requires { IsComputed (room_of layout.now) v w u }
    ensures { OnOk result (into.new ≡ into.old ++ lists.quotient layout.now v w u) }
{
    match (w, u) {
        (NumSource::N(n), NumSource::N(m)) => into.push(put(
            layout,
            v,
            number(known_quotient(n, m)),
        )),
        (NumSource::N(_), NumSource::V(_)) | (NumSource::V(_), _) => call(
            into,
            layout,
            DIVIDE,
            layout.own_cells().left,
            v,
            w,
            u,
        ),
    }
}

fn are_known(w: NumSource, u: NumSource) -> bool
    ensures { result ≡ lists.are_known w u }
{
    matches!((w, u), (NumSource::N(_), NumSource::N(_)))
}

fn calls_product(op: &IntOp) -> bool
    ensures { result ≡ lists.calls_product op.now }
{
    match op {
        IntOp::Mul { w, u, .. } => !are_known(*w, *u),
        _ => false,
    }
}

fn calls_quotient(op: &IntOp) -> bool
    ensures { result ≡ lists.calls_quotient op.now }
{
    match op {
        IntOp::Div { w, u, .. } => !are_known(*w, *u),
        _ => false,
    }
}

/// How many of the operations call the routine of products.
fn product_calls(ops: &[IntOp]) -> u32
    requires { length ops.now ≤ 1000000 }
    ensures { result ≡ count_by lists.calls_product ops.now }
{
    let mut calls = 0;
    for k in 0..ops.len() {
        if calls_product(&ops[k]) {
            calls += 1;
        }
    }
    calls
}

/// How many of the operations call the routine of quotients.
fn quotient_calls(ops: &[IntOp]) -> u32
    requires { length ops.now ≤ 1000000 }
    ensures { result ≡ count_by lists.calls_quotient ops.now }
{
    let mut calls = 0;
    for k in 0..ops.len() {
        if calls_quotient(&ops[k]) {
            calls += 1;
        }
    }
    calls
}

/// Appends the routine of products, if it is called.
#[tactic(auto, using(crate::proofs::ListLemmas::none_called, crate::proofs::ListLemmas::some_called))]
fn push_products(into: &mut Prims, own: &Scratch, calls: u32) -> Result<(), AllocError>
    requires { calls ≤ 1000000 }
    ensures { OnOk result (into.new ≡ into.old ++ if_called (multiply own.now) calls) }
{
    if calls > 0 {
        push_multiply(into, own, calls)?;
    }
    Ok(())
}

/// Appends the routine of quotients, if it is called.
#[tactic(auto, using(crate::proofs::ListLemmas::none_called, crate::proofs::ListLemmas::some_called))]
fn push_quotients(into: &mut Prims, own: &Scratch, calls: u32) -> Result<(), AllocError>
    requires range { calls ≤ 1000000 }
    requires left { own.now.left ≤ 1000 }
    requires right { own.now.right ≤ 1000 }
    ensures { OnOk result (into.new ≡ into.old ++ if_called (divide own.now) calls) }
{
    if calls > 0 {
        push_divide(into, own, calls)?;
    }
    Ok(())
}

/// Appends the routines that the operations call, each once.
pub(crate) fn push_routines(
    into: &mut Prims,
    layout: &Layout,
    ops: &[IntOp],
) -> Result<(), AllocError>
    requires { length ops.now ≤ 1000000 }
    ensures { OnOk result (into.new ≡ into.old ++ routines_of layout.now ops.now) }
{
    let own = layout.own_cells();
    push_products(into, &own, product_calls(ops))?;
    push_quotients(into, &own, quotient_calls(ops))
}
