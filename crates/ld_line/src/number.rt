//! Numbers of a project text.

ghost use Rattle.std.specs.Prelude.{◌≡◌, ◌≤◌, ◌<◌, ◌-◌, ◌^◌, min, ℤ, pos, neg_ℤ, unsigned_abs, Option, MatchOption};
ghost use Rattle.std.specs.Option.{option_map};
ghost use Rattle.ld_line.specs.Said.{IfIs, said_map};
ghost use Rattle.ld_line.specs.Numbers.{signed, number, in_range, natural_in, integer};
ghost use Rattle.ld_line.specs.Steps.{IsSized};
ghost use Rattle.texts.specs.Digits.{digits};

use crate::said::Said;

/// The greatest cycle time, crystal frequency, rate of the serial line and PWM frequency.
pub const MOST_SETTING: u32 = 999_999_999;

/// The longest delay of a timer, in microseconds.
pub const MOST_DELAY: u32 = 2_147_483_647;

/// The greatest number of a pin.
pub const MOST_PIN: u32 = 255;

/// A number's sign and its size, which stays at `u32::MAX` where it is greater.
#[derive(Clone, Copy)]
struct Number {
    is_negative: bool,
    size: u32,
}

/// The size of the number that digits write, or `u32::MAX` where it is greater. Leading zeros are digits.
fn size_of_digits(token: &[u8]) -> Option<u32>
    ensures { result ≡ option_map (min (2 ^ 32 - 1)) (digits token.now) }
{
    if token.is_empty() {
        return None;
    }
    let mut size = 0;
    for digit in token {
        if !digit.is_ascii_digit() {
            return None;
        }
        size = (10 * size + u64::from(*digit - b'0')).min(u64::from(u32::MAX));
    }
    Some(size as u32)
}

/// The number that digits write behind a sign.
fn with_sign(is_negative: bool, token: &[u8]) -> Option<Number>
    ensures { MatchOption result (signed is_negative (digits token.now) ≡ None) (λ n. IsSized n.is_negative n.size (signed is_negative (digits token.now))) }
{
    match size_of_digits(token) {
        Some(size) => Some(Number { is_negative, size }),
        None => None,
    }
}

/// The number that the token is.
fn number_of(token: &[u8]) -> Option<Number>
    ensures { MatchOption result (number token.now ≡ None) (λ n. IsSized n.is_negative n.size (number token.now)) }
{
    let [sign, digits @ ..] = token else {
        return None;
    };
    if *sign == b'-' {
        with_sign(true, digits)
    } else {
        with_sign(false, token)
    }
}

/// The number of 16 bits with this sign and this size.
fn to_integer(number: Number) -> Said<i16>
    ensures { (n : Option ℤ) → IsSized number.is_negative number.size n → result ≡ in_range (neg_ℤ (pos 32768)) (pos 32767) n }
{
    if number.is_negative {
        if number.size > 32768 {
            return Said::Range;
        }
        return Said::Is((-(number.size as i32)) as i16);
    }
    if number.size > 32767 {
        return Said::Range;
    }
    Said::Is(number.size as i16)
}

/// The number from `low` to `high` with this sign and this size.
fn to_natural(low: u32, high: u32, number: Number) -> Said<u32>
    requires { high < 2 ^ 32 - 1 }
    ensures value { (n : Option ℤ) → IsSized number.is_negative number.size n → result ≡ said_map unsigned_abs (in_range (pos low) (pos high) n) }
    ensures range { IfIs result (λ n. n ≤ high) }
{
    if number.is_negative && number.size > 0 {
        return Said::Range;
    }
    if number.size < low || number.size > high {
        return Said::Range;
    }
    Said::Is(number.size)
}

/// The number from `low` to `high` that the token is, digits of any length. A negative number is below `low`, and -0 is 0.
/// `high` is below `u32::MAX`, which stands for each greater number while a token is read.
#[tactic(auto, unfolding(crate::specs::Numbers::natural_in))]
pub fn natural_in(low: u32, high: u32, token: &[u8]) -> Said<u32>
    requires { high < 2 ^ 32 - 1 }
    ensures value { result ≡ natural_in low high token.now }
    ensures range { IfIs result (λ n. n ≤ high) }
{
    match number_of(token) {
        Some(number) => to_natural(low, high, number),
        None => Said::Bad,
    }
}

/// The number of 16 bits with its sign that the token is.
#[tactic(auto, unfolding(crate::specs::Numbers::integer))]
pub fn integer(token: &[u8]) -> Said<i16>
    ensures { result ≡ integer token.now }
{
    match number_of(token) {
        Some(number) => to_integer(number),
        None => Said::Bad,
    }
}
