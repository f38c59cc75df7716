//! The words of the wait for the cycle's end, and of tables.

ghost use Rattle.std.specs.Prelude.{◌≡◌, ◌≤◌, ◌/◌, ◌%◌, ◌++◌, ◌∷◌, [], OnOk, length};
ghost use Rattle.avr_code.specs.Code.{poll_code, next_value, table_code, words_of};

use crate::insns::{ldi, put};
use avr_mach::AvrInsn;
use ld_base::list::List;
use std::alloc::AllocError;
use target_core::words::Words;

/// Appends the words that wait until the cycle timer's flag is in TIFR, and clear it there. Where memory is refused some of them may be appended.
pub(crate) fn poll(words: &mut Words) -> Result<(), AllocError>
    ensures { OnOk result (words.new ≡ words.old ++ words_of poll_code) }
{
    put(
        words,
        &[
            AvrInsn::In { d: 16, a: 0x38 },
            AvrInsn::Sbrs { r: 16, b: 4 },
            AvrInsn::Rjmp { k: 4093 },
            AvrInsn::Out { a: 0x38, r: 16 },
        ],
    )
}

/// Appends the words by which the left word becomes the value whose index R30 is. Where memory is refused some of them may be appended.
pub(crate) fn table(words: &mut Words, values: &List<u16>) -> Result<(), AllocError>
    requires { length values.now ≤ 256 }
    ensures { OnOk result (words.new ≡ words.old ++ words_of (table_code values.now)) }
{
    if values.is_empty() {
        return Ok(());
    }
    let mut before = *values.get(0);
    first_value(words, before)?;
    for i in 1..values.len() {
        let x = *values.get(i);
        value_behind(words, i as u8, before, x)?;
        before = x;
    }
    Ok(())
}

/// The left word becomes the first value of a table.
fn first_value(words: &mut Words, x: u16) -> Result<(), AllocError>
    ensures { OnOk result (words.new ≡ words.old ++ words_of (table_code (x ∷ []))) }
{
    let (low, high) = bytes_of(x);
    put(words, &[ldi(24, low), ldi(25, high)])
}

/// Where the index R30 is `i` or more, the left word, which is the value `before`, becomes `x`.
fn value_behind(words: &mut Words, i: u8, before: u16, x: u16) -> Result<(), AllocError>
    ensures { OnOk result (words.new ≡ words.old ++ words_of (next_value i before x [])) }
{
    let (low, high) = bytes_of(x);
    let (low_before, high_before) = bytes_of(before);
    let ask = AvrInsn::Cpi { d: 30, k: i };
    if low == low_before {
        if high == high_before {
            Ok(())
        } else {
            put(words, &[ask, AvrInsn::Brbs { s: 0, k: 1 }, ldi(25, high)])
        }
    } else if high == high_before {
        put(words, &[ask, AvrInsn::Brbs { s: 0, k: 1 }, ldi(24, low)])
    } else {
        put(
            words,
            &[
                ask,
                AvrInsn::Brbs { s: 0, k: 2 },
                ldi(24, low),
                ldi(25, high),
            ],
        )
    }
}

/// The two bytes of a value.
fn bytes_of(x: u16) -> (u8, u8)
    ensures low { result.0 ≡ x % 256 }
    ensures high { result.1 ≡ x / 256 % 256 }
{
    ((x % 256) as u8, (x / 256 % 256) as u8)
}
