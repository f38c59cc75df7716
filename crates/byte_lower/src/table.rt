//! The list of a look-up in a table.

ghost use Rattle.std.specs.Prelude.{◌≡◌, ◌<◌, ◌≤◌, ◌++◌, ◌∷◌, [], length, map, IfOk, OnOk};
ghost use Rattle.ladder_meaning.specs.Device.{word_of};
ghost use Rattle.ladder_meaning.specs.Numbers.{value_at};
ghost use Rattle.ladder_tree.specs.declared.limits.TheConstants.{TABLE_VALUES};
ghost use Rattle.int_code.specs.WellFormed.{IsNumSource};
ghost use Rattle.int_code.specs.declared.op.NumSource.TheVariants.{V};
ghost use Rattle.byte_lower.specs.Layout.{room_of};
ghost use Rattle.byte_lower.specs.Lists as lists;

use crate::layout::Layout;
use crate::numbers::{compare_equal, jump_where, number, put, word};
use crate::push::paced;
use byte_code::prim::{BytePrim, CompareOp, FlagKind, Paced, Prims, WordOp, WordSource};
use byte_routines::push::push_all;
use int_code::op::NumSource;
use ld_base::list::List;
use std::alloc::{AllocError, Global};

/// The value at an index, if there is one.
fn known_value(values: &[i16], index: i16) -> Option<i16>
    ensures { result ≡ value_at values.now index }
{
    if index >= 0 && (index as usize) < values.len() {
        Some(values[index as usize])
    } else {
        None
    }
}

/// The words of a table's values.
fn words_of(alloc: Global, values: &[i16]) -> Result<List<u16>, AllocError>
    ensures { IfOk result (λ words. words ≡ map word_of values.now) }
{
    let mut words = List::new(alloc);
    for place in 0..values.len() {
        words.push(values[place].cast_unsigned())?;
    }
    Ok(words)
}

fn compare_below(layout: &Layout, a: u32, number: u8) -> Paced
    requires { a < layout.now.plan.sizes.variables }
    ensures { result ≡ lists.compare_below layout.now a number }
{
    let a = layout.word_cell(a);
    paced(BytePrim::Compare(CompareOp::Below { a, number }))
}

fn put_index(layout: &Layout, w: u32) -> Paced
    requires { w < layout.now.plan.sizes.variables }
    ensures { result ≡ lists.put_index layout.now w }
{
    let to = layout.own_cells().outcome;
    let from = word(layout, w);
    paced(BytePrim::Word(WordOp::Move { to, from }))
}

fn put_taken(layout: &Layout, v: u32) -> Paced
    requires { v < layout.now.plan.sizes.variables }
    ensures { result ≡ lists.put_taken layout.now v }
{
    put(layout, v, WordSource::Cells(layout.own_cells().left))
}

/// Where the index is 0 the variable becomes the only value.
fn look_up_one(
    into: &mut Prims,
    layout: &Layout,
    v: u32,
    w: u32,
    value: i16,
    label: u32,
) -> Result<(), AllocError>
    requires to { v < layout.now.plan.sizes.variables }
    requires from { w < layout.now.plan.sizes.variables }
    ensures { OnOk result (into.new ≡ into.old ++ lists.look_up layout.now v (V w) (value ∷ []) label) }
{
    let test = compare_equal(layout, w, number(0));
    let over = jump_where(FlagKind::Equal, false, label);
    let taken = put(layout, v, number(value));
    let behind = paced(BytePrim::Label { label });
    push_all(into, [test, over, taken, behind])
}

/// Where the index is below the number of values the variable becomes the value there.
fn look_up_some(
    into: &mut Prims,
    alloc: Global,
    layout: &Layout,
    v: u32,
    w: u32,
    values: &[i16],
    label: u32,
) -> Result<(), AllocError>
    requires to { v < layout.now.plan.sizes.variables }
    requires from { w < layout.now.plan.sizes.variables }
    requires some { 1 < length values.now }
    requires few { length values.now ≤ TABLE_VALUES }
    ensures { OnOk result (into.new ≡ into.old ++ lists.look_up layout.now v (V w) values.now label) }
{
    let words = words_of(alloc, values)?;
    let table = BytePrim::Table {
        values: words,
        label,
    };
    push_all(
        into,
        [
            compare_below(layout, w, values.len() as u8),
            jump_where(FlagKind::Below, false, label),
            put_index(layout, w),
            paced(table),
            put_taken(layout, v),
            paced(BytePrim::Label { label }),
        ],
    )
}

/// The variable becomes the value at the index, and stays where there is none. The label is the operation's own.
pub(crate) fn look_up(
    into: &mut Prims,
    alloc: Global,
    layout: &Layout,
    v: u32,
    w: NumSource,
    values: &[i16],
    label: u32,
) -> Result<(), AllocError>
    requires to { v < layout.now.plan.sizes.variables }
    requires from { IsNumSource (room_of layout.now) w }
    requires few { length values.now ≤ TABLE_VALUES }
    ensures { OnOk result (into.new ≡ into.old ++ lists.look_up layout.now v w values.now label) }
{
    match (w, values) {
        (NumSource::N(index), _) => match known_value(values, index) {
            Some(value) => into.push(put(layout, v, number(value))),
            None => Ok(()),
        },
        (NumSource::V(_), []) => Ok(()),
        (NumSource::V(w), [value]) => look_up_one(into, layout, v, w, *value, label),
        (NumSource::V(w), _) => look_up_some(into, alloc, layout, v, w, values, label),
    }
}
