//! Numbers that decimal digits write.

ghost use Rattle.std.specs.Prelude.{◌≡◌, ◌≤◌, IfSome};
ghost use Rattle.texts.specs.Digits.{digits_to};

/// The number that digits write, where there is a digit and the number is at most so much. Leading zeros are digits.
pub fn digits_to(most: u32, digits: &[u8]) -> Option<u32>
    ensures value { result ≡ digits_to most digits.now }
    ensures within { IfSome result (λ number. number ≤ most) }
{
    if digits.is_empty() {
        return None;
    }
    let mut value: u64 = 0;
    for digit in digits {
        if !digit.is_ascii_digit() {
            return None;
        }
        value = 10 * value + u64::from(*digit - b'0');
        if value > u64::from(most) {
            return None;
        }
    }
    Some(value as u32)
}
