//! Appends primitives.

ghost use Rattle.std.specs.Prelude.{◌≡◌, ◌≤◌, ◌++◌, OnOk};

use byte_code::prim::{Paced, Prims};
use std::alloc::AllocError;

/// Appends primitives in order. There are 16 at most.
pub fn push_all<const N: usize>(into: &mut Prims, more: [Paced; N]) -> Result<(), AllocError>
    requires { N ≤ 16 }
    ensures { OnOk result (into.new ≡ into.old ++ more.entry) }
{
    for prim in more {
        into.push(prim)?;
    }
    Ok(())
}
