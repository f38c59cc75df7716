//! Appends operations.

ghost use Rattle.std.specs.Prelude.{◌≡◌, ◌≤◌, ◌++◌, OnOk};

use int_code::op::{IntOp, Ops};
use std::alloc::AllocError;

/// Appends operations in order. There are 16 at most.
pub fn push_all<const N: usize>(ops: &mut Ops, more: [IntOp; N]) -> Result<(), AllocError>
    requires { N ≤ 16 }
    ensures { OnOk result (ops.new ≡ ops.old ++ more.entry) }
{
    for op in more {
        ops.push(op)?;
    }
    Ok(())
}
