//! The list of primitives of each operation.

ghost use Rattle.std.specs.Prelude.{◌≡◌, ◌<◌, ◌++◌, true, OnOk};
ghost use Rattle.int_code.specs.WellFormed.{IsDest, IsInRange, IsSource};
ghost use Rattle.byte_lower.specs.Layout.{room_of};
ghost use Rattle.byte_lower.specs.Lists as lists;

use crate::calls::{product, quotient};
use crate::guard::Guard;
use crate::layout::Layout;
use crate::numbers::{difference, number, put, sum, unless_equal, unless_less, word};
use crate::push::paced;
use crate::table::look_up;
use byte_code::prim::{BitOp, BytePrim, Paced, Prims, Test, WordOp};
use byte_routines::push::push_all;
use int_code::op::{BitDest, BitSource, IntOp};
use std::alloc::{AllocError, Global};

/// Whether the operation is lowered.
pub fn is_built(op: &IntOp) -> bool
    ensures { result ≡ lists.is_built op.now }
{
    match op {
        IntOp::Set { .. } | IntOp::Clr { .. } | IntOp::Cpy { .. } | IntOp::Not { .. } => true,
        IntOp::Ifs { .. } | IntOp::Ifc { .. } | IntOp::Iflt { .. } | IntOp::Ifeq { .. } => true,
        IntOp::Els | IntOp::Fi => true,
        IntOp::Lit { .. } | IntOp::Mov { .. } | IntOp::Add { .. } | IntOp::Sub { .. } => true,
        IntOp::Mul { .. } | IntOp::Div { .. } => true,
        IntOp::Inc { .. } | IntOp::Dec { .. } => true,
        IntOp::Ifee { .. } => false,
        IntOp::Adc { .. } | IntOp::Pwm { .. } | IntOp::Rx { .. } | IntOp::Tx { .. } => false,
        IntOp::Eebusy { .. } | IntOp::Eerd { .. } | IntOp::Eewr { .. } => false,
        IntOp::Tab { .. } => true,
    }
}

fn put_bit(layout: &Layout, b: BitDest, value: bool) -> Paced
    requires { IsDest (room_of layout.now) b }
    ensures { result ≡ lists.put_bit layout.now b value }
{
    let to = layout.dest(b);
    paced(BytePrim::Bit(BitOp::Put { to, value }))
}

fn copy_bit(layout: &Layout, b: BitDest, s: BitSource, inverted: bool) -> Paced
    requires to { IsDest (room_of layout.now) b }
    requires from { IsSource (room_of layout.now) s }
    ensures { result ≡ lists.copy_bit layout.now b s inverted }
{
    let to = layout.dest(b);
    let from = layout.source(s);
    paced(BytePrim::Bit(BitOp::Copy { to, from, inverted }))
}

fn jump_where(layout: &Layout, s: BitSource, is: bool, label: u32) -> Paced
    requires { IsSource (room_of layout.now) s }
    ensures { result ≡ lists.jump_where_bit layout.now s is label }
{
    let from = layout.source(s);
    let test = Test::Bit { from, is };
    paced(BytePrim::JumpWhere { test, label })
}

/// A bit takes a value where another is so.
pub(crate) fn put_where(layout: &Layout, guard: Guard) -> Paced
    requires from { IsSource (room_of layout.now) guard.from }
    requires to { IsDest (room_of layout.now) guard.to }
    ensures { result ≡ lists.put_where layout.now guard }
{
    let test = layout.source(guard.from);
    let to = layout.dest(guard.to);
    paced(BytePrim::Bit(BitOp::PutIf {
        test,
        is: guard.is,
        to,
        value: guard.value,
    }))
}

fn count_up(layout: &Layout, v: u32) -> Paced
    requires { v < layout.now.plan.sizes.variables }
    ensures { result ≡ lists.count_up layout.now v }
{
    let to = layout.word_cell(v);
    paced(BytePrim::Word(WordOp::Increment { to }))
}

fn count_down(layout: &Layout, v: u32) -> Paced
    requires { v < layout.now.plan.sizes.variables }
    ensures { result ≡ lists.count_down layout.now v }
{
    let to = layout.word_cell(v);
    paced(BytePrim::Word(WordOp::Decrement { to }))
}

/// A jump over the second branch to the label, and the label in front of that.
fn turn(into: &mut Prims, label: u32, top: u32) -> Result<(), AllocError>
    ensures { OnOk result (into.new ≡ into.old ++ lists.turn label top) }
{
    let jump = BytePrim::Jump { label };
    let second = BytePrim::Label { label: top };
    push_all(into, [paced(jump), paced(second)])
}

/// Appends the list of an operation. `label` is its own, and `top` that of the innermost open if.
pub(crate) fn emit(
    into: &mut Prims,
    alloc: Global,
    layout: &Layout,
    op: &IntOp,
    label: u32,
    top: u32,
) -> Result<(), AllocError>
    requires built { lists.is_built op.now ≡ true }
    requires range { IsInRange (room_of layout.now) op.now }
    ensures { OnOk result (into.new ≡ into.old ++ lists.list_of layout.now op.now label top) }
{
    let prim = match op {
        IntOp::Set { b } => put_bit(layout, *b, true),
        IntOp::Clr { b } => put_bit(layout, *b, false),
        IntOp::Cpy { b, s } => copy_bit(layout, *b, *s, false),
        IntOp::Not { b, s } => copy_bit(layout, *b, *s, true),
        IntOp::Ifs { s } => jump_where(layout, *s, false, label),
        IntOp::Ifc { s } => jump_where(layout, *s, true, label),
        IntOp::Iflt { w, u } => return unless_less(into, layout, *w, *u, label),
        IntOp::Ifeq { w, u } => return unless_equal(into, layout, *w, *u, label),
        IntOp::Els => return turn(into, label, top),
        IntOp::Fi => paced(BytePrim::Label { label: top }),
        IntOp::Lit { v, n } => put(layout, *v, number(*n)),
        IntOp::Mov { v, from } => put(layout, *v, word(layout, *from)),
        IntOp::Add { v, w, u } => sum(layout, *v, *w, *u),
        IntOp::Sub { v, w, u } => difference(layout, *v, *w, *u),
        IntOp::Mul { v, w, u } => return product(into, layout, *v, *w, *u),
        IntOp::Div { v, w, u } => return quotient(into, layout, *v, *w, *u),
        IntOp::Inc { v } => count_up(layout, *v),
        IntOp::Dec { v } => count_down(layout, *v),
        IntOp::Tab { v, w, values } => {
            let values = values.as_slice();
            return look_up(into, alloc, layout, *v, *w, values, label);
        }
        IntOp::Ifee { .. } => unreachable!(),
        IntOp::Adc { .. } | IntOp::Pwm { .. } | IntOp::Rx { .. } | IntOp::Tx { .. } =>
            unreachable!(),
        IntOp::Eebusy { .. } | IntOp::Eerd { .. } | IntOp::Eewr { .. } => unreachable!(),
    };
    into.push(prim)
}
