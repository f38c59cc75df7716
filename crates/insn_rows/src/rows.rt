//! Rows of a table of instructions.

ghost use Rattle.std.specs.Prelude.{◌≡◌, ℕ, ◌<◌, ◌↔◌, Some, IsTrue, IfSome, AllPairs, position, slice_get};
ghost use Rattle.std.specs.List.{list_all};
ghost use Rattle.insn_rows.specs.declared.rows.InsnRow.{InsnRow};
ghost use Rattle.insn_rows.specs.Rows.{is_match, Apart, are_apart, all_apart};

/// A row of a table of instructions. A word matches the row where its bits under `mask` are `bits`.
#[derive(Clone, Copy, Debug, PartialEq, Eq)]
pub struct InsnRow {
    pub mask: u16,
    pub bits: u16,
    /// Which instruction it is, by a number of the table's own.
    pub kind: u8,
}

/// The place of the first row that the word matches.
pub fn find_row<const N: usize>(rows: &[InsnRow; N], word: u16) -> Option<usize>
    ensures first { result ≡ position (is_match word) rows.now }
    ensures within { IfSome result (λ place. place < N) }

    // In a table whose rows are apart, a row that the word matches is the one that is found.
    ensures only { AllPairs Apart rows.now → (place : ℕ) (row : InsnRow) → slice_get rows.now place ≡ Some row → IsTrue (is_match word row) → result ≡ Some place }
{
    first_match(rows, word)
}

fn first_match<const N: usize>(rows: &[InsnRow; N], word: u16) -> Option<usize>
    ensures { result ≡ position (is_match word) rows.now }
{
    rows.iter().position(|row| word & row.mask == row.bits)
}

/// Whether no word matches two of the rows.
pub fn rows_apart<const N: usize>(rows: &[InsnRow; N]) -> bool
    ensures { IsTrue result ↔ AllPairs Apart rows.now }
{
    all_rows_apart(&rows[..])
}

/// The test of each row with each later one.
fn all_rows_apart(rows: &[InsnRow]) -> bool
    ensures { result ≡ all_apart rows.now }
{
    match rows {
        [] => true,
        [row, later @ ..] => row_apart_from(row, later) && all_rows_apart(later),
    }
}

/// The test of a row with each of the others.
fn row_apart_from(row: &InsnRow, others: &[InsnRow]) -> bool
    ensures { result ≡ list_all (are_apart row.now) others.now }
{
    others.iter().all(|other| two_apart(row, other))
}

/// The test of two rows: one of them has a bit outside its mask, so that no word matches it, or they
/// ask for different bits where both masks are.
fn two_apart(a: &InsnRow, b: &InsnRow) -> bool
    ensures { result ≡ are_apart a.now b.now }
{
    a.bits & a.mask != a.bits || b.bits & b.mask != b.bits || a.bits & b.mask != b.bits & a.mask
}
