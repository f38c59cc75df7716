//! The test that a program is well formed.

ghost use Rattle.std.specs.Prelude.{◌≡◌, ◌↔◌, [], IsTrue, false};
ghost use Rattle.int_code.specs.WellFormed.{nests, IsWellFormed};
ghost use Rattle.int_code.specs.Closes as closing;

use crate::op::{IntOp, IntProgram, Shape};
use crate::range::{Counts, is_in_range};

/// Whether the operations behind an if's test come to its `Fi`, with at most one `Els` of its own before.
fn closes(ops: &[IntOp]) -> bool
    ensures { result ≡ closing.closes ops.now 0 false }
{
    let mut depth: usize = 0;
    let mut had_els = false;
    for op in ops {
        match op.shape() {
            Shape::Opens => depth += 1,
            Shape::Turns if depth == 0 => {
                if had_els {
                    return false;
                }
                had_els = true;
            }
            Shape::Closes => {
                if depth == 0 {
                    return true;
                }
                depth -= 1;
            }
            Shape::Turns | Shape::Plain => {}
        }
    }
    false
}

/// Whether each if closes. Each operation that opens one is followed to its `Fi`.
fn all_close(ops: &[IntOp]) -> bool
    ensures { result ≡ closing.all_close ops.now }
{
    for k in 0..ops.len() {
        if ops[k].shape() == Shape::Opens {
            if !closes(&ops[k + 1..]) {
                return false;
            }
        }
    }
    true
}

/// Whether each `Els` and `Fi` has an open if, and none is open at the end.
fn balances(ops: &[IntOp]) -> bool
    ensures { result ≡ closing.balances ops.now 0 }
{
    let mut depth: usize = 0;
    for op in ops {
        match op.shape() {
            Shape::Opens => depth += 1,
            Shape::Turns | Shape::Closes if depth == 0 => return false,
            Shape::Closes => depth -= 1,
            Shape::Turns | Shape::Plain => {}
        }
    }
    depth == 0
}

/// Whether ifs nest and close, each with at most one `Els`.
#[tactic(auto, using(crate::proofs::CloseLemmas::nests_closes))]
fn ifs_nest(ops: &[IntOp]) -> bool
    ensures { result ≡ nests ops.now [] }
{
    balances(ops) && all_close(ops)
}

/// Whether ifs nest, numbers are in range, the kept bits are among the bits, and each variable has a start value.
/// It takes no memory: each if is followed to its `Fi`, so the time grows with how deep ifs stand in one another.
pub fn well_formed(p: &IntProgram) -> bool
    ensures { IsTrue result ↔ IsWellFormed p.now }
{
    let ops = p.ops.as_slice();
    let counts = Counts {
        bits: p.bits as usize,
        outputs: p.outputs as usize,
        inputs: p.inputs as usize,
        analogs: p.analogs as usize,
        variables: p.variables as usize,
        persistent: p.persistent as usize,
    };
    p.kept_bits <= p.bits
        && p.starts.len() == p.variables as usize
        && ops.iter().all(|op| is_in_range(counts, op))
        && ifs_nest(ops)
}
