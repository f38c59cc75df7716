//! Ifs on a bit whose block is one operation that writes a bit.

ghost use Rattle.std.specs.Prelude.{◌≡◌, ◌<◌, drop, length};
ghost use Rattle.byte_lower.specs.Lists as lists;

use int_code::op::{BitDest, BitSource, IntOp};

/// Where the bit `from` is so, the bit `to` takes the value.
#[derive(Clone, Copy)]
pub struct Guard {
    pub from: BitSource,
    pub is: bool,
    pub to: BitDest,
    pub value: bool,
}

/// The one that begins with operation `k`.
pub(crate) fn guard_at(ops: &[IntOp], k: usize) -> Option<Guard>
    requires { k < length ops.now }
    ensures { result ≡ lists.guard_of (drop k ops.now) }
{
    guard_of(&ops[k..])
}

/// The one in front of operations: an if on a bit whose block is one `set` or `clr`.
fn guard_of(ops: &[IntOp]) -> Option<Guard>
    ensures { result ≡ lists.guard_of ops.now }
{
    let (from, is, to, value) = match ops {
        [IntOp::Ifs { s }, IntOp::Set { b }, IntOp::Fi, ..] => (*s, true, *b, true),
        [IntOp::Ifs { s }, IntOp::Clr { b }, IntOp::Fi, ..] => (*s, true, *b, false),
        [IntOp::Ifc { s }, IntOp::Set { b }, IntOp::Fi, ..] => (*s, false, *b, true),
        [IntOp::Ifc { s }, IntOp::Clr { b }, IntOp::Fi, ..] => (*s, false, *b, false),
        _ => return None,
    };
    Some(Guard {
        from,
        is,
        to,
        value,
    })
}
