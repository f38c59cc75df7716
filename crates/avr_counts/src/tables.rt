//! The words of tables.

ghost use Rattle.std.specs.Prelude.{◌≡◌, ◌≤◌, ◌+◌, ℕ, List, take};
ghost use Rattle.avr_code.specs.Code.{Piece, next_value, table_code, size_in};

use ld_base::list::List;

/// The words by which the left word becomes a value of a table, of which the first 256 have code.
pub(crate) fn table_words(values: &List<u16>) -> u32
    ensures value { size_in (table_code (take 256 values.now)) ≡ result }
    ensures few { result ≤ 1024 }
{
    let end = values.len().min(256);
    if end == 0 {
        return 0;
    }
    let mut before = *values.get(0);
    let mut count = 2;
    for i in 1..end {
        let x = *values.get(i);
        count += next_words(before, x);
        before = x;
    }
    count
}

/// The words by which a value follows another one.
fn next_words(before: u16, x: u16) -> u32
    ensures value { (i : ℕ) (rest : List Piece) → size_in (next_value i before x rest) ≡ result + size_in rest }
    ensures few { result ≤ 4 }
{
    let low = x % 256 == before % 256;
    let high = x / 256 % 256 == before / 256 % 256;
    if low && high {
        0
    } else if low || high {
        3
    } else {
        4
    }
}
