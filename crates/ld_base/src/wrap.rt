//! Numbers of 16 bits with a sign.

ghost use Rattle.std.specs.Prelude.{◌≡◌};
ghost use Rattle.ld_base.specs.Wrap.{wrap, IsWrapped};

/// The number of 16 bits that is left of a sum, a difference or a product.
pub fn wrap16(n: i64) -> i16
    ensures value { result ≡ wrap n }
    ensures wrapped { IsWrapped n result }
{
    (n.rem_euclid(1 << 16) as u16).cast_signed()
}
