//! Records: their types and their sum.

ghost use Rattle.std.specs.Prelude.{◌≡◌, ◌%◌, sum};

/// The type of a record of data.
pub const DATA_TYPE: u8 = 0;

/// The type of the last record.
pub const END_TYPE: u8 = 1;

/// The type of a record that sets the upper sixteen bits of the addresses behind it.
pub const UPPER_TYPE: u8 = 4;

/// The sum of the bytes modulo 256.
pub fn sum_of(bytes: &[u8]) -> u8
    ensures { result ≡ sum bytes.now % 256 }
{
    let mut sum = 0u8;
    for byte in bytes {
        sum = sum.wrapping_add(*byte);
    }
    sum
}
