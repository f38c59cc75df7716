//! Executes operations that are no part of an if.

ghost use Rattle.std.specs.Prelude.{◌≡◌, ◌<◌, length, true};
ghost use Rattle.ladder_meaning.specs.Numbers.{computed, value_at};
ghost use Rattle.int_code.specs.Groups.{is_computing};
ghost use Rattle.int_code.specs.Held.{store_of, held_sizes, state_sizes, SameSizes};
ghost use Rattle.int_code.specs.Meaning.{store_after};
ghost use Rattle.int_code.specs.Shapes.{shape_of};
ghost use Rattle.int_code.specs.Stands.{IsIdle};
ghost use Rattle.int_code.specs.Store.{with, with_number, number_of};
ghost use Rattle.int_code.specs.WellFormed.{IsDest, IsComputed, IsInRange};
ghost use Rattle.int_code.specs.declared.op.Shape.TheVariants.{Plain};

use crate::device::use_device;
use crate::op::{BitDest, IntOp, NumSource};
use crate::operand::{number, value};
use crate::state::State;
use ladder_meaning::reading::Reading;
use ladder_tree::element::{MathHow, Nums};
use ld_base::wrap::wrap16;

impl State {
    /// The bit becomes the level.
    pub(crate) fn set_bit(&mut self, b: BitDest, level: bool)
        requires { IsDest (state_sizes self.old) b }
        ensures store { store_of self.new ≡ with (store_of self.old) b level }
        ensures devices { self.new.devices ≡ self.old.devices }
        ensures sizes { SameSizes self.old self.new }
    {
        match b {
            BitDest::B(k) => self.bits[k as usize] = level,
            BitDest::Y(k) => self.outputs[k as usize] = level,
        }
    }

    /// The variable becomes the number.
    pub(crate) fn set_number(&mut self, v: u32, n: i16)
        requires { v < length self.old.numbers.items }
        ensures store { store_of self.new ≡ with_number (store_of self.old) v n }
        ensures devices { self.new.devices ≡ self.old.devices }
        ensures sizes { SameSizes self.old self.new }
    {
        self.numbers[v as usize] = n;
    }

    /// The variable becomes what two numbers give.
    fn set_computed(&mut self, how: MathHow, v: u32, w: NumSource, u: NumSource)
        requires { IsComputed (state_sizes self.old) v w u }
        ensures store { store_of self.new ≡ with_number (store_of self.old) v (computed how (number_of (store_of self.old) w) (number_of (store_of self.old) u)) }
        ensures devices { self.new.devices ≡ self.old.devices }
        ensures sizes { SameSizes self.old self.new }
    {
        let n = computed(how, number(self, w), number(self, u));
        self.set_number(v, n);
    }
}

/// What two numbers give. It wraps round, a quotient is truncated toward zero, and by zero it is 0.
fn computed(how: MathHow, a: i16, b: i16) -> i16
    ensures { result ≡ computed how a b }
{
    let (a, b) = (i64::from(a), i64::from(b));
    match how {
        MathHow::Add => wrap16(a + b),
        MathHow::Sub => wrap16(a - b),
        MathHow::Mul => wrap16(a * b),
        MathHow::Div if b == 0 => 0,
        MathHow::Div => wrap16(a / b),
    }
}

/// The value at an index, if there is one.
fn value_at(values: &Nums, index: i16) -> Option<i16>
    ensures { result ≡ value_at values.now index }
{
    if index >= 0 && (index as usize) < values.len() {
        Some(*values.get(index as usize))
    } else {
        None
    }
}

/// Executes an operation that computes a number from numbers.
fn compute(op: &IntOp, reading: &Reading, state: &mut State)
    requires group { is_computing op.now ≡ true }
    requires range { IsInRange (held_sizes reading.now state.old) op.now }
    ensures store { store_of state.new ≡ store_after reading.now op.now (store_of state.old) }
    ensures devices { state.new.devices ≡ state.old.devices }
    ensures sizes { SameSizes state.old state.new }
{
    match op {
        IntOp::Lit { v, n } => state.set_number(*v, *n),
        IntOp::Mov { v, from } => {
            let n = state.numbers[*from as usize];
            state.set_number(*v, n);
        }
        IntOp::Add { v, w, u } => state.set_computed(MathHow::Add, *v, *w, *u),
        IntOp::Sub { v, w, u } => state.set_computed(MathHow::Sub, *v, *w, *u),
        IntOp::Mul { v, w, u } => state.set_computed(MathHow::Mul, *v, *w, *u),
        IntOp::Div { v, w, u } => state.set_computed(MathHow::Div, *v, *w, *u),
        IntOp::Inc { v } => {
            state.set_computed(MathHow::Add, *v, NumSource::V(*v), NumSource::N(1));
        }
        IntOp::Dec { v } => {
            state.set_computed(MathHow::Sub, *v, NumSource::V(*v), NumSource::N(1));
        }
        IntOp::Tab { v, w, values } => {
            if let Some(n) = value_at(values, number(state, *w)) {
                state.set_number(*v, n);
            }
        }
        _ => unreachable!(),
    }
}

/// Executes an operation that is no part of an if.
pub fn execute(op: &IntOp, reading: &Reading, state: &mut State)
    requires plain { shape_of op.now ≡ Plain }
    requires range { IsInRange (held_sizes reading.now state.old) op.now }
    requires idle { IsIdle state.old }
    ensures store { store_of state.new ≡ store_after reading.now op.now (store_of state.old) }
    ensures idle { IsIdle state.new }
    ensures sizes { SameSizes state.old state.new }
{
    match op {
        IntOp::Set { b } => state.set_bit(*b, true),
        IntOp::Clr { b } => state.set_bit(*b, false),
        IntOp::Cpy { b, s } => {
            let level = value(reading, state, *s);
            state.set_bit(*b, level);
        }
        IntOp::Not { b, s } => {
            let level = value(reading, state, *s);
            state.set_bit(*b, !level);
        }
        IntOp::Adc { .. } | IntOp::Pwm { .. } => use_device(op, reading, state),
        IntOp::Rx { .. } | IntOp::Tx { .. } => use_device(op, reading, state),
        IntOp::Eebusy { .. } | IntOp::Eerd { .. } => use_device(op, reading, state),
        IntOp::Eewr { .. } => use_device(op, reading, state),
        IntOp::Lit { .. } | IntOp::Mov { .. } => compute(op, reading, state),
        IntOp::Add { .. } | IntOp::Sub { .. } => compute(op, reading, state),
        IntOp::Mul { .. } | IntOp::Div { .. } => compute(op, reading, state),
        IntOp::Inc { .. } | IntOp::Dec { .. } => compute(op, reading, state),
        IntOp::Tab { .. } => compute(op, reading, state),
        IntOp::Ifs { .. } | IntOp::Ifc { .. } => unreachable!(),
        IntOp::Iflt { .. } | IntOp::Ifeq { .. } | IntOp::Ifee { .. } => unreachable!(),
        IntOp::Els | IntOp::Fi => unreachable!(),
    }
}
