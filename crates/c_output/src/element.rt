//! The C text of elements. An element finds its input in `f`, and leaves its output there.

ghost use Rattle.std.specs.Prelude.{◌≡◌, ◌≢◌, ◌++◌, OnOk};
ghost use Rattle.ladder_lower.specs.Wires.{Fits};
ghost use Rattle.c_output.specs.Element.{contact_template, coil_template, timer_template, counter_template};
ghost use Rattle.c_output.specs.Element.{moves_text, shift_text, cases_text, table_text, element_text};
ghost use Rattle.c_output.specs.Laid.{terms_of};
ghost use Rattle.c_output.specs.Operand.{operand_text};

use crate::device::{push_adc, push_persist, push_pwm, push_recv, push_send};
use crate::filled::{push_filled, push_limited, push_named, push_numbered, push_pair, push_sized};
use crate::operand::{operand_text, push_compare, push_math, push_move};
use ladder_lower::layout::Layout;
use ladder_tree::element::{CoilMode, CounterHow, LeafKind, Name, Operand, TimerHow};
use std::alloc::{AllocError, Global};

fn contact_template(neg: bool) -> &'static str
    ensures { result.now ≡ contact_template neg }
{
    if neg {
        "if (b_@) f = 0;\n"
    } else {
        "if (!b_@) f = 0;\n"
    }
}

fn coil_template(mode: CoilMode) -> &'static str
    ensures { result.now ≡ coil_template mode }
{
    match mode {
        CoilMode::Plain => "b_@ = f;\n",
        CoilMode::Negated => "b_@ = !f;\n",
        CoilMode::Set => "if (f) b_@ = 1;\n",
        CoilMode::Reset => "if (f) b_@ = 0;\n",
    }
}

fn timer_template(how: TimerHow) -> &'static str
    ensures { result.now ≡ timer_template how }
{
    match how {
        TimerHow::Ton => "if (f) { if (v_@ < #) { v_@ = v_@ + 1; f = 0; } } else v_@ = 0;\n",
        TimerHow::Tof => "if (f) v_@ = 0; else if (v_@ < #) { v_@ = v_@ + 1; f = 1; }\n",
        TimerHow::Rto => "if (v_@ < #) { if (f) v_@ = v_@ + 1; f = 0; } else f = 1;\n",
    }
}

fn counter_template(how: CounterHow) -> &'static str
    ensures { result.now ≡ counter_template how }
{
    match how {
        CounterHow::Ctu => "if (f && !k_#) v_@ = w16((long)v_@ + 1); k_# = f; f = v_@ >= ($L);\n",
        CounterHow::Ctd => "if (f && !k_#) v_@ = w16((long)v_@ - 1); k_# = f; f = v_@ >= ($L);\n",
        CounterHow::Ctc => "if (f && !k_#) v_@ = v_@ >= ($L) ? 0 : v_@ + 1; k_# = f;\n",
    }
}

/// Appends the moves of a shift register, from its last place on.
fn push_moves(alloc: Global, text: &mut Vec<u8>, name: &Name, places: u16) -> Result<(), AllocError>
    ensures { OnOk result (text.new.items ≡ text.old.items ++ moves_text name.now places) }
{
    for place in (1..places).rev() {
        let to = place as usize;
        push_pair(alloc, text, " v_@# = v_@$;", name, to, to - 1)?;
    }
    Ok(())
}

/// Appends the text of a shift register.
fn push_shift(
    alloc: Global,
    text: &mut Vec<u8>,
    name: &Name,
    places: u16,
    memory: usize,
) -> Result<(), AllocError>
    ensures { OnOk result (text.new.items ≡ text.old.items ++ shift_text name.now places memory) }
{
    push_numbered(alloc, text, "if (f && !k_#) {", memory)?;
    push_moves(alloc, text, name, places)?;
    push_numbered(alloc, text, " } k_# = f;\n", memory)
}

/// Appends the cases of a look-up table, from index 0 on.
fn push_cases(
    alloc: Global,
    text: &mut Vec<u8>,
    dest: &Name,
    values: &[i16],
) -> Result<(), AllocError>
    ensures { OnOk result (text.new.items ≡ text.old.items ++ cases_text dest.now 0 values.now) }
{
    let template = " case #: v_@ = w16($L); break;";
    for index in 0..values.len() {
        push_limited(alloc, text, template, dest, index, values[index])?;
    }
    Ok(())
}

/// Appends the text of a look-up table.
fn push_table(
    alloc: Global,
    text: &mut Vec<u8>,
    dest: &Name,
    index: &Operand,
    values: &[i16],
) -> Result<(), AllocError>
    ensures { OnOk result (text.new.items ≡ text.old.items ++ table_text dest.now (operand_text index.now) values.now) }
{
    let index = operand_text(alloc, index)?;
    push_filled(text, "if (f) switch (#) {", b"", &index, b"")?;
    push_cases(alloc, text, dest, values)?;
    text.extend_from_slice(b" }\n")?;
    Ok(())
}

/// Appends the text of an element behind `memory` memories. Those that do nothing have none.
pub fn push_element(
    alloc: Global,
    text: &mut Vec<u8>,
    layout: &Layout<'_>,
    kind: &LeafKind,
    memory: usize,
) -> Result<(), AllocError>
    requires fits { Fits layout.now 0 }
    requires cycle { layout.now.cycle ≢ 0 }
    ensures { OnOk result (text.new.items ≡ text.old.items ++ element_text (terms_of layout.now) kind.now memory) }
{
    match kind {
        LeafKind::Contacts { name, neg } => push_named(text, contact_template(*neg), name),
        LeafKind::Coil { name, mode } => push_named(text, coil_template(*mode), name),
        LeafKind::Osr => push_numbered(alloc, text, "x = f; f = f && !k_#; k_# = x;\n", memory),
        LeafKind::Osf => push_numbered(alloc, text, "x = f; f = !f && k_#; k_# = x;\n", memory),
        LeafKind::Open => text.extend_from_slice(b"f = 0;\n"),
        LeafKind::MasterRelay => text.extend_from_slice(b"if (m) m = f; else m = 1;\n"),
        LeafKind::Timer { how, name, delay } => {
            let period = (*delay / layout.cycle) as usize;
            push_sized(alloc, text, timer_template(*how), name, period)
        }
        LeafKind::Counter { how, name, max } => {
            push_limited(alloc, text, counter_template(*how), name, memory, *max)
        }
        LeafKind::Move { dest, src } => push_move(alloc, text, dest, src),
        LeafKind::Math { how, dest, a, b } => push_math(alloc, text, *how, dest, a, b),
        LeafKind::Compare { how, a, b } => push_compare(alloc, text, *how, a, b),
        LeafKind::Shift { name, places } => push_shift(alloc, text, name, *places, memory),
        LeafKind::Table {
            dest,
            index,
            values,
            ..
        } => push_table(alloc, text, dest, index, values.as_slice()),
        LeafKind::Reset { name } => push_named(text, "if (f) v_@ = 0;\n", name),
        LeafKind::ReadAdc { name } => push_adc(alloc, text, layout, name),
        LeafKind::SetPwm { name, hz } => push_pwm(alloc, text, name, *hz),
        LeafKind::Recv { name } => push_recv(text, name),
        LeafKind::Send { name } => push_send(text, name),
        LeafKind::Persist { name } => push_persist(alloc, text, layout, name),
        LeafKind::Short
        | LeafKind::Placeholder
        | LeafKind::Comment { .. }
        | LeafKind::Linear { .. }
        | LeafKind::Formatted { .. } => Ok(()),
    }
}
