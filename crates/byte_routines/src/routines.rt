//! The routines of products and quotients: each is called with its numbers in the left and the right word.

ghost use Rattle.std.specs.Prelude.{◌≡◌, ◌≤◌, ◌++◌, OnOk};
ghost use Rattle.byte_routines.specs.Routines as spec;

use crate::push::push_all;
use byte_code::prim::{
    ByteOp, BytePrim, CompareOp, FlagKind, Paced, Prims, Test, WordOp, WordSource,
};
use chip_tables::Scratch;
use std::alloc::AllocError;

/// The label of the routine of products.
pub const MULTIPLY: u32 = 1;

pub const MULTIPLY_LOOP: u32 = 2;
/// The label of the routine of quotients.
pub const DIVIDE: u32 = 3;

pub const DIVIDE_LOOP: u32 = 4;

pub const DIVIDE_BY_ZERO: u32 = 5;

/// A primitive that is begun so often in a cycle, and not in front of the first.
fn begun(turns: u32, prim: BytePrim) -> Paced
    ensures { result ≡ spec.begun turns prim }
{
    Paced {
        prim,
        boot: 0,
        turns,
    }
}

/// Appends the routine of products, which is called so often in a cycle.
pub fn push_multiply(into: &mut Prims, scratch: &Scratch, calls: u32) -> Result<(), AllocError>
    requires { calls ≤ 1000000 }
    ensures { OnOk result (into.new ≡ into.old ++ spec.multiply scratch.now calls) }
{
    let zero = WordSource::Number { low: 0, high: 0 };
    let clear = WordOp::Move {
        to: scratch.outcome,
        from: zero,
    };
    let many = ByteOp::Put {
        to: scratch.count,
        value: 8,
    };
    let again = BytePrim::JumpWhere {
        test: Test::LoopsOn,
        label: MULTIPLY_LOOP,
    };
    push_all(
        into,
        [
            begun(calls, BytePrim::Label { label: MULTIPLY }),
            begun(calls, BytePrim::Word(clear)),
            begun(calls, BytePrim::Byte(many)),
            begun(
                calls * 8,
                BytePrim::Label {
                    label: MULTIPLY_LOOP,
                },
            ),
            begun(calls * 8, BytePrim::Word(WordOp::MultiplyStep)),
            begun(calls * 8, again),
            begun(calls, BytePrim::Return),
        ],
    )
}

/// Appends what the routine of quotients does first: the sign of the quotient, the numbers without their signs, and the jump of a quotient by 0.
fn push_divide_front(into: &mut Prims, scratch: &Scratch, calls: u32) -> Result<(), AllocError>
    requires range { calls ≤ 1000000 }
    requires left { scratch.now.left ≤ 1000 }
    requires right { scratch.now.right ≤ 1000 }
    ensures { OnOk result (into.new ≡ into.old ++ spec.divide_front scratch.now calls) }
{
    let (left, right) = (scratch.left, scratch.right);
    let zero = WordSource::Number { low: 0, high: 0 };
    let sign = ByteOp::Xor {
        to: scratch.sign,
        a: left + 1,
        b: right + 1,
    };
    let left_size = WordOp::NegateIf {
        to: left,
        sign: left + 1,
    };
    let right_size = WordOp::NegateIf {
        to: right,
        sign: right + 1,
    };
    let clear = WordOp::Move {
        to: scratch.outcome,
        from: zero,
    };
    let many = ByteOp::Put {
        to: scratch.count,
        value: 16,
    };
    let by_zero = BytePrim::JumpWhere {
        test: Test::Flag {
            kind: FlagKind::Equal,
            is: true,
        },
        label: DIVIDE_BY_ZERO,
    };
    push_all(
        into,
        [
            begun(calls, BytePrim::Label { label: DIVIDE }),
            begun(calls, BytePrim::Byte(sign)),
            begun(calls, BytePrim::Word(left_size)),
            begun(calls, BytePrim::Word(right_size)),
            begun(calls, BytePrim::Word(clear)),
            begun(calls, BytePrim::Byte(many)),
            begun(
                calls,
                BytePrim::Compare(CompareOp::Equal { a: right, b: zero }),
            ),
            begun(calls, by_zero),
        ],
    )
}

/// Appends the sixteen steps of a quotient and its sign, and what is done where it is by 0.
fn push_divide_steps(into: &mut Prims, scratch: &Scratch, calls: u32) -> Result<(), AllocError>
    requires { calls ≤ 1000000 }
    ensures { OnOk result (into.new ≡ into.old ++ spec.divide_steps scratch.now calls) }
{
    let left = scratch.left;
    let again = BytePrim::JumpWhere {
        test: Test::LoopsOn,
        label: DIVIDE_LOOP,
    };
    let signed = WordOp::NegateIf {
        to: left,
        sign: scratch.sign,
    };
    let zero = WordOp::Move {
        to: left,
        from: WordSource::Number { low: 0, high: 0 },
    };
    push_all(
        into,
        [
            begun(calls * 16, BytePrim::Label { label: DIVIDE_LOOP }),
            begun(calls * 16, BytePrim::Word(WordOp::DivideStep)),
            begun(calls * 16, again),
            begun(calls, BytePrim::Word(signed)),
            begun(calls, BytePrim::Return),
            begun(
                calls,
                BytePrim::Label {
                    label: DIVIDE_BY_ZERO,
                },
            ),
            begun(calls, BytePrim::Word(zero)),
            begun(calls, BytePrim::Return),
        ],
    )
}

/// Appends the routine of quotients, which is called so often in a cycle.
pub fn push_divide(into: &mut Prims, scratch: &Scratch, calls: u32) -> Result<(), AllocError>
    requires range { calls ≤ 1000000 }
    requires left { scratch.now.left ≤ 1000 }
    requires right { scratch.now.right ≤ 1000 }
    ensures { OnOk result (into.new ≡ into.old ++ spec.divide scratch.now calls) }
{
    push_divide_front(into, scratch, calls)?;
    push_divide_steps(into, scratch, calls)?;
    Ok(())
}
