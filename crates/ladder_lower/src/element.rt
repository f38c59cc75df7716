//! The operations of elements. An element finds its input on the power wire, and leaves its output there.

ghost use Rattle.std.specs.Prelude.{◌≡◌, ◌≢◌, ◌+◌, ◌<◌, ◌≤◌, ◌++◌, true, false, IfOk, OnOk};
ghost use Rattle.ladder_tree.specs.Names.{memories};
ghost use Rattle.ladder_tree.specs.declared.element.LeafKind.{LeafKind};
ghost use Rattle.ladder_lower.specs.ElementCode.{coil_code, contact_code, edge_code, element_code};
ghost use Rattle.ladder_lower.specs.Fit.{is_fit};
ghost use Rattle.ladder_lower.specs.Wires.{Fits};

use crate::devices::{emit_adc, emit_persist, emit_pwm, emit_recv, emit_send};
use crate::layout::Layout;
use crate::numbers::{
    emit_compare, emit_counter, emit_math, emit_move, emit_reset, emit_shift, emit_table,
    emit_timer,
};
use crate::power::{emit_cut_where, emit_where_power};
use crate::push::push_all;
use int_code::op::{BitDest, BitSource, IntOp, Ops};
use ladder_tree::element::{CoilMode, LeafKind, Name};
use ladder_tree::names::memories;
use std::alloc::{AllocError, Global};

/// An element behind `memory` memories. Answers how many there are behind it.
pub fn emit_element(
    alloc: Global,
    ops: &mut Ops,
    layout: &Layout<'_>,
    kind: &LeafKind,
    memory: u32,
) -> Result<u32, AllocError>
    requires fits { Fits layout.now 0 }
    requires room { memory + memories kind.now ≤ layout.now.memories }
    requires cycle { layout.now.cycle ≢ 0 }
    requires fit { is_fit layout.now.cycle kind.now ≡ true }
    ensures code { OnOk result (ops.new ≡ ops.old ++ element_code layout.now kind.now memory) }
    ensures memories { IfOk result (λ k. k ≡ memory + memories kind.now) }
{
    emit_kind(alloc, ops, layout, kind, memory)?;
    Ok(memory + memories(kind))
}

/// The operations of an element. Those that do nothing have none.
fn emit_kind(
    alloc: Global,
    ops: &mut Ops,
    layout: &Layout<'_>,
    kind: &LeafKind,
    memory: u32,
) -> Result<(), AllocError>
    requires fits { Fits layout.now 0 }
    requires room { memory + memories kind.now ≤ layout.now.memories }
    requires cycle { layout.now.cycle ≢ 0 }
    requires fit { is_fit layout.now.cycle kind.now ≡ true }
    ensures { OnOk result (ops.new ≡ ops.old ++ element_code layout.now kind.now memory) }
{
    match kind {
        LeafKind::Contacts { name, neg } => emit_contact(ops, layout, *neg, name),
        LeafKind::Coil { name, mode } => emit_coil(ops, layout, *mode, name),
        LeafKind::Osr => emit_rising(ops, layout, memory),
        LeafKind::Osf => emit_falling(ops, layout, memory),
        LeafKind::Open => emit_open(ops, layout),
        LeafKind::MasterRelay => emit_master(ops, layout),
        LeafKind::Timer { how, name, delay } => {
            emit_timer(ops, layout, *how, name, layout.period(*delay))
        }
        LeafKind::Counter { how, name, max } => {
            emit_counter(ops, layout, *how, name, *max, memory)
        }
        LeafKind::Reset { name } => emit_reset(ops, layout, name),
        LeafKind::Move { dest, src } => emit_move(ops, layout, dest, src),
        LeafKind::Math { how, dest, a, b } => emit_math(ops, layout, *how, dest, a, b),
        LeafKind::Compare { how, a, b } => emit_compare(ops, layout, *how, a, b),
        LeafKind::Shift { name, places } => emit_shift(alloc, ops, layout, name, *places, memory),
        LeafKind::Table {
            dest,
            index,
            values,
            ..
        } => emit_table(alloc, ops, layout, dest, index, values),
        LeafKind::ReadAdc { name } => emit_adc(ops, layout, name),
        LeafKind::SetPwm { name, hz } => emit_pwm(ops, layout, name, *hz),
        LeafKind::Recv { name } => emit_recv(ops, layout, name),
        LeafKind::Send { name } => emit_send(ops, layout, name),
        LeafKind::Persist { name } => emit_persist(ops, layout, name),
        LeafKind::Short | LeafKind::Placeholder | LeafKind::Comment { .. } => Ok(()),
        LeafKind::Linear { .. } | LeafKind::Formatted { .. } => Ok(()),
    }
}

/// A contact switches the power off where it is open.
fn emit_contact(
    ops: &mut Ops,
    layout: &Layout<'_>,
    neg: bool,
    name: &Name,
) -> Result<(), AllocError>
    requires { Fits layout.now 0 }
    ensures { OnOk result (ops.new ≡ ops.old ++ contact_code layout.now neg name.now) }
{
    let s = layout.source_of(name);
    if neg {
        emit_cut_where(ops, layout, IntOp::Ifs { s })
    } else {
        emit_cut_where(ops, layout, IntOp::Ifc { s })
    }
}

/// A coil leaves the power as it is. Its bit follows it, or changes where there is power.
fn emit_coil(
    ops: &mut Ops,
    layout: &Layout<'_>,
    mode: CoilMode,
    name: &Name,
) -> Result<(), AllocError>
    requires { Fits layout.now 0 }
    ensures { OnOk result (ops.new ≡ ops.old ++ coil_code layout.now mode name.now) }
{
    let b = layout.dest_of(name);
    let s = BitSource::B(layout.power());
    match mode {
        CoilMode::Plain => ops.push(IntOp::Cpy { b, s }),
        CoilMode::Negated => ops.push(IntOp::Not { b, s }),
        CoilMode::Set => emit_where_power(ops, layout, IntOp::Set { b }),
        CoilMode::Reset => emit_where_power(ops, layout, IntOp::Clr { b }),
    }
}

/// The power is kept on the spare wire as it came, and becomes the memory. It is switched off where the memory is true.
fn emit_rising(ops: &mut Ops, layout: &Layout<'_>, memory: u32) -> Result<(), AllocError>
    requires fits { Fits layout.now 0 }
    requires room { memory < layout.now.memories }
    ensures { OnOk result (ops.new ≡ ops.old ++ edge_code false layout.now memory) }
{
    let power = layout.power();
    let spare = layout.spare();
    let kept = layout.memory_bit(memory);
    push_all(
        ops,
        [
            IntOp::Cpy {
                b: BitDest::B(spare),
                s: BitSource::B(power),
            },
            IntOp::Ifs {
                s: BitSource::B(kept),
            },
            IntOp::Clr {
                b: BitDest::B(power),
            },
            IntOp::Fi,
            IntOp::Cpy {
                b: BitDest::B(kept),
                s: BitSource::B(spare),
            },
        ],
    )
}

/// The power is kept on the spare wire as it came, and becomes the memory. It is turned round, and switched off where the
/// memory is false.
fn emit_falling(ops: &mut Ops, layout: &Layout<'_>, memory: u32) -> Result<(), AllocError>
    requires fits { Fits layout.now 0 }
    requires room { memory < layout.now.memories }
    ensures { OnOk result (ops.new ≡ ops.old ++ edge_code true layout.now memory) }
{
    let power = layout.power();
    let spare = layout.spare();
    let kept = layout.memory_bit(memory);
    let s = BitSource::B(power);
    let b = BitDest::B(power);
    push_all(
        ops,
        [
            IntOp::Cpy {
                b: BitDest::B(spare),
                s,
            },
            IntOp::Not { b, s },
            IntOp::Ifc {
                s: BitSource::B(kept),
            },
            IntOp::Clr { b },
            IntOp::Fi,
            IntOp::Cpy {
                b: BitDest::B(kept),
                s: BitSource::B(spare),
            },
        ],
    )
}

/// OPEN switches the power off.
fn emit_open(ops: &mut Ops, layout: &Layout<'_>) -> Result<(), AllocError>
    requires { Fits layout.now 0 }
    ensures { OnOk result (ops.new ≡ ops.old ++ element_code layout.now LeafKind.Open 0) }
{
    ops.push(IntOp::Clr {
        b: BitDest::B(layout.power()),
    })
}

/// The master relay bit becomes the power where it is true, and true where it is false: true where there is power, and its
/// opposite where there is none. The power stays.
fn emit_master(ops: &mut Ops, layout: &Layout<'_>) -> Result<(), AllocError>
    requires { Fits layout.now 0 }
    ensures { OnOk result (ops.new ≡ ops.old ++ element_code layout.now LeafKind.MasterRelay 0) }
{
    let s = BitSource::B(layout.power());
    let master = layout.master();
    let b = BitDest::B(master);
    push_all(
        ops,
        [
            IntOp::Ifs { s },
            IntOp::Clr { b },
            IntOp::Fi,
            IntOp::Not {
                b,
                s: BitSource::B(master),
            },
        ],
    )
}
