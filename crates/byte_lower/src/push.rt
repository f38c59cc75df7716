//! Single primitives of a cycle.

ghost use Rattle.std.specs.Prelude.{◌≡◌};
ghost use Rattle.byte_lower.specs.Lists as lists;

use byte_code::prim::{BytePrim, Paced};

/// A primitive that is begun once at most in a cycle, and not in front of the first.
pub(crate) fn paced(prim: BytePrim) -> Paced
    ensures { result ≡ lists.paced prim }
{
    Paced {
        prim,
        boot: 0,
        turns: 1,
    }
}
