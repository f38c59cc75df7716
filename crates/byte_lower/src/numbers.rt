//! The lists of sums, differences and comparisons.

ghost use Rattle.std.specs.Prelude.{◌≡◌, ◌<◌, ◌++◌, OnOk};
ghost use Rattle.ladder_meaning.specs.Numbers.{computed};
ghost use Rattle.ladder_tree.specs.declared.element.MathHow.TheVariants.{Add, Sub};
ghost use Rattle.int_code.specs.WellFormed.{IsComputed, IsNumSource};
ghost use Rattle.byte_lower.specs.Layout.{room_of};
ghost use Rattle.byte_lower.specs.Lists as lists;

use crate::layout::Layout;
use crate::push::paced;
use byte_code::prim::{BytePrim, CompareOp, FlagKind, Paced, Prims, Test, WordOp, WordSource};
use byte_routines::push::push_all;
use int_code::op::NumSource;
use ld_base::wrap::wrap16;
use std::alloc::AllocError;

/// A number that stands in an operation, as two bytes.
pub(crate) fn number(n: i16) -> WordSource
    ensures { result ≡ lists.number n }
{
    let [low, high] = n.to_le_bytes();
    WordSource::Number { low, high }
}

fn known_sum(n: i16, m: i16) -> WordSource
    ensures { result ≡ lists.number (computed Add n m) }
{
    number(wrap16(i64::from(n) + i64::from(m)))
}

fn known_difference(n: i16, m: i16) -> WordSource
    ensures { result ≡ lists.number (computed Sub n m) }
{
    number(wrap16(i64::from(n) - i64::from(m)))
}

/// A variable becomes a word.
pub(crate) fn put(layout: &Layout, v: u32, from: WordSource) -> Paced
    requires { v < layout.now.plan.sizes.variables }
    ensures { result ≡ lists.put layout.now v from }
{
    let to = layout.word_cell(v);
    paced(BytePrim::Word(WordOp::Move { to, from }))
}

/// The word of a variable.
pub(crate) fn word(layout: &Layout, v: u32) -> WordSource
    requires { v < layout.now.plan.sizes.variables }
    ensures { result ≡ lists.word_in layout.now v }
{
    WordSource::Cells(layout.word_cell(v))
}

fn added(layout: &Layout, v: u32, a: u32, b: WordSource) -> Paced
    requires to { v < layout.now.plan.sizes.variables }
    requires from { a < layout.now.plan.sizes.variables }
    ensures { result ≡ lists.added layout.now v a b }
{
    let to = layout.word_cell(v);
    let a = layout.word_cell(a);
    paced(BytePrim::Word(WordOp::Add { to, a, b }))
}

fn taken_from(layout: &Layout, v: u32, a: WordSource, b: u32) -> Paced
    requires to { v < layout.now.plan.sizes.variables }
    requires from { b < layout.now.plan.sizes.variables }
    ensures { result ≡ lists.taken_from layout.now v a b }
{
    let to = layout.word_cell(v);
    let b = word(layout, b);
    paced(BytePrim::Word(WordOp::Subtract { to, a, b }))
}

/// The variable becomes the sum; that of two numbers is known.
pub(crate) fn sum(layout: &Layout, v: u32, w: NumSource, u: NumSource) -> Paced
    requires { IsComputed (room_of layout.now) v w u }
    ensures { result ≡ lists.sum layout.now v w u }
{
    match (w, u) {
        (NumSource::V(a), NumSource::V(b)) => added(layout, v, a, word(layout, b)),
        (NumSource::V(a), NumSource::N(m)) => added(layout, v, a, number(m)),
        (NumSource::N(n), NumSource::V(b)) => added(layout, v, b, number(n)),
        (NumSource::N(n), NumSource::N(m)) => put(layout, v, known_sum(n, m)),
    }
}

/// The variable becomes the difference. A number is taken away by the sum with its opposite.
pub(crate) fn difference(layout: &Layout, v: u32, w: NumSource, u: NumSource) -> Paced
    requires { IsComputed (room_of layout.now) v w u }
    ensures { result ≡ lists.difference layout.now v w u }
{
    match (w, u) {
        (NumSource::V(a), NumSource::V(b)) => taken_from(layout, v, word(layout, a), b),
        (NumSource::V(a), NumSource::N(m)) => added(layout, v, a, number(wrap16(-i64::from(m)))),
        (NumSource::N(n), NumSource::V(b)) => taken_from(layout, v, number(n), b),
        (NumSource::N(n), NumSource::N(m)) => put(layout, v, known_difference(n, m)),
    }
}

/// Goes to the label where the flag, which is of this kind, is so.
pub(crate) fn jump_where(kind: FlagKind, is: bool, label: u32) -> Paced
    ensures { result ≡ lists.jump_where kind is label }
{
    let test = Test::Flag { kind, is };
    paced(BytePrim::JumpWhere { test, label })
}

fn compare_less(layout: &Layout, a: u32, b: WordSource) -> Paced
    requires { a < layout.now.plan.sizes.variables }
    ensures { result ≡ lists.compare_less layout.now a b }
{
    let a = layout.word_cell(a);
    paced(BytePrim::Compare(CompareOp::Less { a, b }))
}

/// Whether the word of a variable is equal to another.
pub(crate) fn compare_equal(layout: &Layout, a: u32, b: WordSource) -> Paced
    requires { a < layout.now.plan.sizes.variables }
    ensures { result ≡ lists.compare_equal layout.now a b }
{
    let a = layout.word_cell(a);
    paced(BytePrim::Compare(CompareOp::Equal { a, b }))
}

/// Goes to the label where the first is not less than the second. Of two numbers it is known whether it is, and no number is less than one past
/// the greatest.
pub(crate) fn unless_less(
    into: &mut Prims,
    layout: &Layout,
    w: NumSource,
    u: NumSource,
    label: u32,
) -> Result<(), AllocError>
    requires left { IsNumSource (room_of layout.now) w }
    requires right { IsNumSource (room_of layout.now) u }
    ensures { OnOk result (into.new ≡ into.old ++ lists.unless_less layout.now w u label) }
{
    let (test, is) = match (w, u) {
        (NumSource::V(a), NumSource::V(b)) => (compare_less(layout, a, word(layout, b)), false),
        (NumSource::V(a), NumSource::N(m)) => (compare_less(layout, a, number(m)), false),
        (NumSource::N(n), NumSource::V(b)) if n < 32767 => (
            compare_less(layout, b, number(n + 1)),
            true,
        ),
        (NumSource::N(n), NumSource::N(m)) if n < m => return Ok(()),
        (NumSource::N(_), _) => return into.push(paced(BytePrim::Jump { label })),
    };
    push_all(into, [test, jump_where(FlagKind::Less, is, label)])
}

/// Goes to the label where the numbers are not equal.
pub(crate) fn unless_equal(
    into: &mut Prims,
    layout: &Layout,
    w: NumSource,
    u: NumSource,
    label: u32,
) -> Result<(), AllocError>
    requires left { IsNumSource (room_of layout.now) w }
    requires right { IsNumSource (room_of layout.now) u }
    ensures { OnOk result (into.new ≡ into.old ++ lists.unless_equal layout.now w u label) }
{
    let test = match (w, u) {
        (NumSource::V(a), NumSource::V(b)) => compare_equal(layout, a, word(layout, b)),
        (NumSource::V(a), NumSource::N(m)) => compare_equal(layout, a, number(m)),
        (NumSource::N(n), NumSource::V(b)) => compare_equal(layout, b, number(n)),
        (NumSource::N(n), NumSource::N(m)) if n == m => return Ok(()),
        (NumSource::N(_), NumSource::N(_)) => return into.push(paced(BytePrim::Jump { label })),
    };
    push_all(into, [test, jump_where(FlagKind::Equal, false, label)])
}
