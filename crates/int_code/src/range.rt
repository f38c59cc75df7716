//! The test that the numbers of an operation are in range.

ghost use Rattle.std.specs.Prelude.{◌↔◌, ◌<◌, IsTrue};
ghost use Rattle.int_code.specs.Held.{counted};
ghost use Rattle.int_code.specs.WellFormed.{IsDest, IsSource, IsNumSource, IsComputed, IsInRange};

use crate::op::{BitDest, BitSource, IntOp, NumSource};
use ladder_tree::limits::TABLE_VALUES;

/// How many there are of what operations name by numbers.
#[derive(Clone, Copy)]
pub struct Counts {
    pub bits: usize,
    pub outputs: usize,
    pub inputs: usize,
    pub analogs: usize,
    pub variables: usize,
    pub persistent: usize,
}

fn is_dest(n: Counts, b: BitDest) -> bool
    ensures { IsTrue result ↔ IsDest (counted n) b }
{
    match b {
        BitDest::B(k) => (k as usize) < n.bits,
        BitDest::Y(k) => (k as usize) < n.outputs,
    }
}

fn is_source(n: Counts, s: BitSource) -> bool
    ensures { IsTrue result ↔ IsSource (counted n) s }
{
    match s {
        BitSource::B(k) => (k as usize) < n.bits,
        BitSource::X(k) => (k as usize) < n.inputs,
        BitSource::Y(k) => (k as usize) < n.outputs,
    }
}

fn is_variable(n: Counts, v: u32) -> bool
    ensures { IsTrue result ↔ (v < n.variables) }
{
    (v as usize) < n.variables
}

fn is_persistent(n: Counts, a: u32) -> bool
    ensures { IsTrue result ↔ (a < n.persistent) }
{
    (a as usize) < n.persistent
}

fn is_number(n: Counts, w: NumSource) -> bool
    ensures { IsTrue result ↔ IsNumSource (counted n) w }
{
    match w {
        NumSource::V(k) => is_variable(n, k),
        NumSource::N(_) => true,
    }
}

/// Whether a variable and the two numbers that it becomes the result of are in range.
fn is_computed(n: Counts, v: u32, w: NumSource, u: NumSource) -> bool
    ensures { IsTrue result ↔ IsComputed (counted n) v w u }
{
    is_variable(n, v) && is_number(n, w) && is_number(n, u)
}

/// Whether each number of an operation is below the count of what it names.
pub fn is_in_range(n: Counts, op: &IntOp) -> bool
    ensures { IsTrue result ↔ IsInRange (counted n) op.now }
{
    match op {
        IntOp::Els | IntOp::Fi => true,
        IntOp::Set { b } | IntOp::Clr { b } | IntOp::Eebusy { b } => is_dest(n, *b),
        IntOp::Cpy { b, s } | IntOp::Not { b, s } => is_dest(n, *b) && is_source(n, *s),
        IntOp::Ifs { s } | IntOp::Ifc { s } => is_source(n, *s),
        IntOp::Rx { v, b } => is_variable(n, *v) && is_dest(n, *b),
        IntOp::Tx { w, s, b } => is_number(n, *w) && is_source(n, *s) && is_dest(n, *b),
        IntOp::Lit { v, .. } | IntOp::Inc { v } | IntOp::Dec { v } => is_variable(n, *v),
        IntOp::Mov { v, from } => is_variable(n, *v) && is_variable(n, *from),
        IntOp::Add { v, w, u } | IntOp::Sub { v, w, u } => is_computed(n, *v, *w, *u),
        IntOp::Mul { v, w, u } | IntOp::Div { v, w, u } => is_computed(n, *v, *w, *u),
        IntOp::Iflt { w, u } | IntOp::Ifeq { w, u } => is_number(n, *w) && is_number(n, *u),
        IntOp::Adc { v, k } => is_variable(n, *v) && (*k as usize) < n.analogs,
        IntOp::Pwm { w, .. } => is_number(n, *w),
        IntOp::Ifee { v, a } | IntOp::Eerd { v, a } => is_variable(n, *v) && is_persistent(n, *a),
        IntOp::Eewr { w, a } => is_number(n, *w) && is_persistent(n, *a),
        IntOp::Tab { v, w, values } => {
            is_variable(n, *v) && is_number(n, *w) && values.len() <= TABLE_VALUES as usize
        }
    }
}
