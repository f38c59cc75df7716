//! Operations that hang on the power wire.

ghost use Rattle.std.specs.Prelude.{◌≡◌, ◌<◌, [], ◌∷◌, ◌++◌, OnOk};
ghost use Rattle.ladder_lower.specs.ElementCode.{where_power, cut_where, cut_unless};
ghost use Rattle.ladder_lower.specs.Wires.{Fits, power, memory_bit};
ghost use Rattle.int_code.specs.declared.op.BitDest.{BitDest};
ghost use Rattle.int_code.specs.declared.op.BitSource.{BitSource};
ghost use Rattle.int_code.specs.declared.op.IntOp.{IntOp};

use crate::layout::Layout;
use crate::push::push_all;
use int_code::op::{BitDest, BitSource, IntOp, Ops};
use std::alloc::AllocError;

/// The operation is executed where there is power.
pub fn emit_where_power(ops: &mut Ops, layout: &Layout<'_>, op: IntOp) -> Result<(), AllocError>
    requires { Fits layout.now 0 }
    ensures { OnOk result (ops.new ≡ ops.old ++ where_power layout.now op) }
{
    let s = BitSource::B(layout.power());
    push_all(ops, [IntOp::Ifs { s }, op, IntOp::Fi])
}

/// The power is switched off where the test's if runs.
pub fn emit_cut_where(ops: &mut Ops, layout: &Layout<'_>, test: IntOp) -> Result<(), AllocError>
    requires { Fits layout.now 0 }
    ensures { OnOk result (ops.new ≡ ops.old ++ cut_where layout.now test) }
{
    let b = BitDest::B(layout.power());
    push_all(ops, [test, IntOp::Clr { b }, IntOp::Fi])
}

/// The power is switched off where the test's if does not run.
pub fn emit_cut_unless(ops: &mut Ops, layout: &Layout<'_>, test: IntOp) -> Result<(), AllocError>
    requires { Fits layout.now 0 }
    ensures { OnOk result (ops.new ≡ ops.old ++ cut_unless layout.now test) }
{
    let b = BitDest::B(layout.power());
    push_all(ops, [test, IntOp::Els, IntOp::Clr { b }, IntOp::Fi])
}

/// What follows, up to the end of the rise, is executed where there is power and the memory has none.
pub fn emit_rise_start(ops: &mut Ops, layout: &Layout<'_>, memory: u32) -> Result<(), AllocError>
    requires fits { Fits layout.now 0 }
    requires room { memory < layout.now.memories }
    ensures { OnOk result (ops.new ≡ ops.old ++ IntOp.Ifs (BitSource.B (power layout.now)) ∷ IntOp.Ifc (BitSource.B (memory_bit layout.now memory)) ∷ []) }
{
    let power = BitSource::B(layout.power());
    let kept = BitSource::B(layout.memory_bit(memory));
    push_all(ops, [IntOp::Ifs { s: power }, IntOp::Ifc { s: kept }])
}

/// The memory becomes the power.
pub fn emit_rise_end(ops: &mut Ops, layout: &Layout<'_>, memory: u32) -> Result<(), AllocError>
    requires fits { Fits layout.now 0 }
    requires room { memory < layout.now.memories }
    ensures { OnOk result (ops.new ≡ ops.old ++ IntOp.Fi ∷ IntOp.Fi ∷ IntOp.Cpy (BitDest.B (memory_bit layout.now memory)) (BitSource.B (power layout.now)) ∷ []) }
{
    let s = BitSource::B(layout.power());
    let b = BitDest::B(layout.memory_bit(memory));
    push_all(ops, [IntOp::Fi, IntOp::Fi, IntOp::Cpy { b, s }])
}
