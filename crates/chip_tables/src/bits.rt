//! Bits of a byte.

ghost use Rattle.std.specs.Prelude.{◌≡◌, ◌-◌, ◌^◌, ◌<◌, ◌≤◌};
ghost use Rattle.chip_tables.specs.Bits.{bit_of, as_bit};

/// Whether a bit of a byte is 1; bit 0 is the lowest.
pub fn bit_of(byte: u8, b: u8) -> bool
    requires { b < 8 }
    ensures { result ≡ bit_of byte b }
{
    (byte >> b) % 2 == 1
}

/// A byte whose only 1 is the bit.
pub fn bit_mask(b: u8) -> u8
    requires { b < 8 }
    ensures { result ≡ 2 ^ b }
{
    match b {
        0 => 1,
        1 => 2,
        2 => 4,
        3 => 8,
        4 => 16,
        5 => 32,
        6 => 64,
        _ => 128,
    }
}

/// A bit as a number.
pub fn as_bit(b: bool) -> u8
    ensures value { result ≡ as_bit b }
    ensures below { result < 2 }
{
    if b { 1 } else { 0 }
}
