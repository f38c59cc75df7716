//! A cycle of a program: one run of its operations, which needs no stack and no memory.

ghost use Rattle.std.specs.Prelude.{◌≡◌, ◌+◌, ◌^◌, ◌<◌, ◌≤◌, [], true, length, All};
ghost use Rattle.int_code.specs.Meaning.{Moment, step};
ghost use Rattle.int_code.specs.Meaning as meaning;
ghost use Rattle.int_code.specs.WellFormed.{nests, IsInRange};
ghost use Rattle.int_code.specs.Held.{store_of, held_sizes, SameSizes};
ghost use Rattle.int_code.specs.Stands.{Stands, IsIdle, IsOpenFor, skipped};

use crate::execute::execute;
use crate::op::{IntOp, Shape};
use crate::operand::holds;
use crate::state::State;
use ladder_meaning::reading::Reading;

/// How far a run has come. Where a branch does not run its operations are passed one by one, and only the ifs that
/// open inside it are counted: one flag and one number stand for all the open ifs.
#[derive(Clone, Copy, Debug, PartialEq, Eq)]
struct Progress {
    /// Whether a branch is being passed.
    skips: bool,
    /// How many ifs are open inside that branch.
    depth: u32,
    /// How many operations were executed.
    count: u32,
}

/// Passes an operation of a branch that does not run.
fn skip(op: &IntOp, p: Progress) -> Progress
    requires small { p.depth < 2 ^ 31 }
    requires counted { p.count < 2 ^ 31 }
    ensures { result ≡ skipped op.now p }
{
    match op.shape() {
        Shape::Opens => Progress {
            depth: p.depth + 1,
            ..p
        },
        Shape::Turns if p.depth == 0 => Progress { skips: false, ..p },
        Shape::Closes if p.depth == 0 => Progress {
            skips: false,
            count: p.count + 1,
            ..p
        },
        Shape::Closes => Progress {
            depth: p.depth - 1,
            ..p
        },
        Shape::Turns | Shape::Plain => p,
    }
}

/// Executes an operation, or passes it.
fn advance(op: &IntOp, reading: &Reading, state: &mut State, p: Progress) -> Progress
    requires range { IsInRange (held_sizes reading.now state.old) op.now }
    requires idle { IsIdle state.old }
    requires small { p.depth < 2 ^ 31 }
    requires counted { p.count < 2 ^ 31 }
    ensures stands { (m : Moment) → Stands m p state.old → IsOpenFor op.now m.ifs → Stands (step reading.now op.now m) result state.new }
    ensures idle { IsIdle state.new }
    ensures sizes { SameSizes state.old state.new }
    ensures depth { result.depth ≤ p.depth + 1 }
    ensures count { result.count ≤ p.count + 1 }
{
    if p.skips {
        return skip(op, p);
    }
    let skips = match op.shape() {
        Shape::Opens => !holds(op, reading, state),
        Shape::Turns => true,
        Shape::Closes => false,
        Shape::Plain => {
            execute(op, reading, state);
            false
        }
    };
    Progress {
        skips,
        depth: 0,
        count: p.count + 1,
    }
}

/// Runs the operations once. The answer is how many of them were executed.
pub fn cycle(ops: &[IntOp], reading: &Reading, state: &mut State) -> u32
    requires length { length ops.now < 2 ^ 31 }
    requires nests { nests ops.now [] ≡ true }
    requires range { All (IsInRange (held_sizes reading.now state.old)) ops.now }
    ensures sizes { SameSizes state.old state.new }
    ensures store { store_of state.new ≡ (meaning.cycle reading.now ops.now (store_of state.old)).store }
    ensures count { result ≡ (meaning.cycle reading.now ops.now (store_of state.old)).count }
{
    state.open(reading);
    let mut p = Progress {
        skips: false,
        depth: 0,
        count: 0,
    };
    for op in ops {
        p = advance(op, reading, state, p);
    }
    p.count
}
