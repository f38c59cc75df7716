//! The operations of elements that work on variables: timers, counters, arithmetic, comparisons and shift registers.

ghost use Rattle.std.specs.Prelude.{◌≡◌, ◌<◌, [], ◌∷◌, ◌++◌, pos, OnOk, IfOk};
ghost use Rattle.std.specs.Fmt.{decimal};
ghost use Rattle.ladder_lower.specs.ElementCode.{timer_code, reached, counter_code, on_rise, where_power, move_op, math_op, compare_code, moves};
ghost use Rattle.ladder_lower.specs.Wires.{Fits, variable_of, number_of};
ghost use Rattle.ladder_tree.specs.declared.element.CounterHow.{CounterHow};
ghost use Rattle.ladder_tree.specs.declared.element.TimerHow.{TimerHow};
ghost use Rattle.int_code.specs.declared.op.IntOp.{IntOp};

use crate::layout::Layout;
use crate::power::{
    emit_cut_unless, emit_cut_where, emit_rise_end, emit_rise_start, emit_where_power,
};
use crate::push::push_all;
use int_code::op::{BitDest, BitSource, IntOp, NumSource, Ops};
use ladder_tree::element::{CompareHow, CounterHow, MathHow, Name, Nums, Operand, TimerHow};
use ladder_tree::names::numbered_name;
use std::alloc::{AllocError, Global};

/// A timer that comes to its end behind `limit` cycles.
pub fn emit_timer(
    ops: &mut Ops,
    layout: &Layout<'_>,
    how: TimerHow,
    name: &Name,
    limit: i16,
) -> Result<(), AllocError>
    requires { Fits layout.now 0 }
    ensures { OnOk result (ops.new ≡ ops.old ++ timer_code layout.now how (variable_of layout.now name.now) limit) }
{
    let v = layout.variable_of(name);
    match how {
        TimerHow::Ton => emit_on_delay(ops, layout, v, limit),
        TimerHow::Tof => emit_off_delay(ops, layout, v, limit),
        TimerHow::Rto => emit_kept_delay(ops, layout, v, limit),
    }
}

/// TON counts where there is power and it is not at its limit, and then switches it off. Without power it begins anew.
fn emit_on_delay(ops: &mut Ops, layout: &Layout<'_>, v: u32, limit: i16) -> Result<(), AllocError>
    requires { Fits layout.now 0 }
    ensures { OnOk result (ops.new ≡ ops.old ++ timer_code layout.now TimerHow.Ton v limit) }
{
    let s = BitSource::B(layout.power());
    let b = BitDest::B(layout.power());
    let w = NumSource::V(v);
    let u = NumSource::N(limit);
    push_all(
        ops,
        [
            IntOp::Ifs { s },
            IntOp::Iflt { w, u },
            IntOp::Inc { v },
            IntOp::Clr { b },
            IntOp::Fi,
            IntOp::Els,
            IntOp::Lit { v, n: 0 },
            IntOp::Fi,
        ],
    )
}

/// TOF begins anew where there is power. Without it, it counts and switches the power on until it is at its limit.
fn emit_off_delay(ops: &mut Ops, layout: &Layout<'_>, v: u32, limit: i16) -> Result<(), AllocError>
    requires { Fits layout.now 0 }
    ensures { OnOk result (ops.new ≡ ops.old ++ timer_code layout.now TimerHow.Tof v limit) }
{
    let s = BitSource::B(layout.power());
    let b = BitDest::B(layout.power());
    let w = NumSource::V(v);
    let u = NumSource::N(limit);
    push_all(
        ops,
        [
            IntOp::Ifs { s },
            IntOp::Lit { v, n: 0 },
            IntOp::Els,
            IntOp::Iflt { w, u },
            IntOp::Inc { v },
            IntOp::Set { b },
            IntOp::Fi,
            IntOp::Fi,
        ],
    )
}

/// RTO counts and switches the power off where it is not at its limit, and else switches it on. It never begins anew.
fn emit_kept_delay(ops: &mut Ops, layout: &Layout<'_>, v: u32, limit: i16) -> Result<(), AllocError>
    requires { Fits layout.now 0 }
    ensures { OnOk result (ops.new ≡ ops.old ++ timer_code layout.now TimerHow.Rto v limit) }
{
    let s = BitSource::B(layout.power());
    let b = BitDest::B(layout.power());
    let w = NumSource::V(v);
    let u = NumSource::N(limit);
    push_all(
        ops,
        [
            IntOp::Iflt { w, u },
            IntOp::Ifs { s },
            IntOp::Inc { v },
            IntOp::Clr { b },
            IntOp::Fi,
            IntOp::Els,
            IntOp::Set { b },
            IntOp::Fi,
        ],
    )
}

/// A counter. It counts where the power becomes true.
pub fn emit_counter(
    ops: &mut Ops,
    layout: &Layout<'_>,
    how: CounterHow,
    name: &Name,
    max: i16,
    memory: u32,
) -> Result<(), AllocError>
    requires fits { Fits layout.now 0 }
    requires room { memory < layout.now.memories }
    ensures { OnOk result (ops.new ≡ ops.old ++ counter_code layout.now how (variable_of layout.now name.now) max memory) }
{
    let v = layout.variable_of(name);
    match how {
        CounterHow::Ctu => emit_to_limit(ops, layout, IntOp::Inc { v }, v, max, memory),
        CounterHow::Ctd => emit_to_limit(ops, layout, IntOp::Dec { v }, v, max, memory),
        CounterHow::Ctc => emit_round(ops, layout, v, max, memory),
    }
}

/// CTU and CTD count where the power becomes true. It is then whether the variable is at the limit or past it.
fn emit_to_limit(
    ops: &mut Ops,
    layout: &Layout<'_>,
    count: IntOp,
    v: u32,
    limit: i16,
    memory: u32,
) -> Result<(), AllocError>
    requires fits { Fits layout.now 0 }
    requires room { memory < layout.now.memories }
    ensures { OnOk result (ops.new ≡ ops.old ++ (on_rise layout.now memory (count ∷ []) ++ reached layout.now v limit)) }
{
    let s = BitSource::B(layout.power());
    let b = BitDest::B(layout.power());
    let kept = layout.memory_bit(memory);
    let w = NumSource::V(v);
    let u = NumSource::N(limit);
    push_all(
        ops,
        [
            IntOp::Ifs { s },
            IntOp::Ifc {
                s: BitSource::B(kept),
            },
            count,
            IntOp::Fi,
            IntOp::Fi,
            IntOp::Cpy {
                b: BitDest::B(kept),
                s,
            },
            IntOp::Set { b },
            IntOp::Iflt { w, u },
            IntOp::Clr { b },
            IntOp::Fi,
        ],
    )
}

/// CTC counts one more, and 0 behind `max`, where the power becomes true.
fn emit_round(
    ops: &mut Ops,
    layout: &Layout<'_>,
    v: u32,
    max: i16,
    memory: u32,
) -> Result<(), AllocError>
    requires fits { Fits layout.now 0 }
    requires room { memory < layout.now.memories }
    ensures { OnOk result (ops.new ≡ ops.old ++ counter_code layout.now CounterHow.Ctc v max memory) }
{
    let s = BitSource::B(layout.power());
    let kept = layout.memory_bit(memory);
    let w = NumSource::V(v);
    let u = NumSource::N(max);
    push_all(
        ops,
        [
            IntOp::Ifs { s },
            IntOp::Ifc {
                s: BitSource::B(kept),
            },
            IntOp::Iflt { w, u },
            IntOp::Inc { v },
            IntOp::Els,
            IntOp::Lit { v, n: 0 },
            IntOp::Fi,
            IntOp::Fi,
            IntOp::Fi,
            IntOp::Cpy {
                b: BitDest::B(kept),
                s,
            },
        ],
    )
}

/// RES sets a variable to 0 where there is power.
pub fn emit_reset(ops: &mut Ops, layout: &Layout<'_>, name: &Name) -> Result<(), AllocError>
    requires { Fits layout.now 0 }
    ensures { OnOk result (ops.new ≡ ops.old ++ where_power layout.now (IntOp.Lit (variable_of layout.now name.now) (pos 0))) }
{
    let v = layout.variable_of(name);
    emit_where_power(ops, layout, IntOp::Lit { v, n: 0 })
}

/// MOVE sets a variable where there is power.
pub fn emit_move(
    ops: &mut Ops,
    layout: &Layout<'_>,
    dest: &Name,
    src: &Operand,
) -> Result<(), AllocError>
    requires { Fits layout.now 0 }
    ensures { OnOk result (ops.new ≡ ops.old ++ where_power layout.now (move_op (variable_of layout.now dest.now) (number_of layout.now src.now))) }
{
    let v = layout.variable_of(dest);
    match layout.number_of(src) {
        NumSource::V(from) => emit_where_power(ops, layout, IntOp::Mov { v, from }),
        NumSource::N(n) => emit_where_power(ops, layout, IntOp::Lit { v, n }),
    }
}

/// ADD, SUB, MUL and DIV set a variable where there is power.
pub fn emit_math(
    ops: &mut Ops,
    layout: &Layout<'_>,
    how: MathHow,
    dest: &Name,
    a: &Operand,
    b: &Operand,
) -> Result<(), AllocError>
    requires { Fits layout.now 0 }
    ensures { OnOk result (ops.new ≡ ops.old ++ where_power layout.now (math_op how (variable_of layout.now dest.now) (number_of layout.now a.now) (number_of layout.now b.now))) }
{
    let v = layout.variable_of(dest);
    let w = layout.number_of(a);
    let u = layout.number_of(b);
    match how {
        MathHow::Add => emit_where_power(ops, layout, IntOp::Add { v, w, u }),
        MathHow::Sub => emit_where_power(ops, layout, IntOp::Sub { v, w, u }),
        MathHow::Mul => emit_where_power(ops, layout, IntOp::Mul { v, w, u }),
        MathHow::Div => emit_where_power(ops, layout, IntOp::Div { v, w, u }),
    }
}

/// A comparison switches the power off where it does not hold.
pub fn emit_compare(
    ops: &mut Ops,
    layout: &Layout<'_>,
    how: CompareHow,
    a: &Operand,
    b: &Operand,
) -> Result<(), AllocError>
    requires { Fits layout.now 0 }
    ensures { OnOk result (ops.new ≡ ops.old ++ compare_code layout.now how (number_of layout.now a.now) (number_of layout.now b.now)) }
{
    let w = layout.number_of(a);
    let u = layout.number_of(b);
    match how {
        CompareHow::Equ => emit_cut_unless(ops, layout, IntOp::Ifeq { w, u }),
        CompareHow::Neq => emit_cut_where(ops, layout, IntOp::Ifeq { w, u }),
        CompareHow::Grt => emit_cut_unless(ops, layout, IntOp::Iflt { w: u, u: w }),
        CompareHow::Geq => emit_cut_where(ops, layout, IntOp::Iflt { w, u }),
        CompareHow::Les => emit_cut_unless(ops, layout, IntOp::Iflt { w, u }),
        CompareHow::Leq => emit_cut_where(ops, layout, IntOp::Iflt { w: u, u: w }),
    }
}

/// A shift register moves its numbers one place up where the power becomes true.
pub fn emit_shift(
    alloc: Global,
    ops: &mut Ops,
    layout: &Layout<'_>,
    name: &Name,
    places: u16,
    memory: u32,
) -> Result<(), AllocError>
    requires fits { Fits layout.now 0 }
    requires room { memory < layout.now.memories }
    ensures { OnOk result (ops.new ≡ ops.old ++ on_rise layout.now memory (moves layout.now name.now places)) }
{
    emit_rise_start(ops, layout, memory)?;
    emit_moves(alloc, ops, layout, name, places)?;
    emit_rise_end(ops, layout, memory)
}

/// From the last place to the first, each gets the number of the one before it.
fn emit_moves(
    alloc: Global,
    ops: &mut Ops,
    layout: &Layout<'_>,
    name: &Name,
    places: u16,
) -> Result<(), AllocError>
    requires { Fits layout.now 0 }
    ensures { OnOk result (ops.new ≡ ops.old ++ moves layout.now name.now places) }
{
    for place in (1..places).rev() {
        let v = numbered_variable(alloc, layout, name, place)?;
        let from = numbered_variable(alloc, layout, name, place - 1)?;
        ops.push(IntOp::Mov { v, from })?;
    }
    Ok(())
}

/// The number of a shift register's variable at a place.
fn numbered_variable(
    alloc: Global,
    layout: &Layout<'_>,
    name: &Name,
    place: u16,
) -> Result<u32, AllocError>
    requires { Fits layout.now 0 }
    ensures { IfOk result (λ v. v ≡ variable_of layout.now (name.now ++ decimal place)) }
{
    let numbered = numbered_name(alloc, name, place)?;
    Ok(layout.variable_of(&numbered))
}

/// A variable gets the value at an index where there is power and a value.
pub fn emit_table(
    alloc: Global,
    ops: &mut Ops,
    layout: &Layout<'_>,
    dest: &Name,
    index: &Operand,
    values: &Nums,
) -> Result<(), AllocError>
    requires { Fits layout.now 0 }
    ensures { OnOk result (ops.new ≡ ops.old ++ where_power layout.now (IntOp.Tab (variable_of layout.now dest.now) (number_of layout.now index.now) values.now)) }
{
    let v = layout.variable_of(dest);
    let w = layout.number_of(index);
    let values = Nums::from_vec(Vec::from_slice(alloc, values.as_slice())?);
    emit_where_power(ops, layout, IntOp::Tab { v, w, values })
}
