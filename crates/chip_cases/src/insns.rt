//! Cases of instructions, with all numbers in hexadecimal digits.

use crate::words::{CaseError, hex_words, shown};
use avr_mach::{AvrInsn, decode, encode, size_of};
use insn_rows::{InsnRow, avr_kind, find_row, rows_apart};
use std::alloc::Global;

/// `kind WORD` gives the instruction's name. `decode WORD NEXT` gives its name, its fields, its words and how many it has. Rows
/// are given by a mask and bits each: `find WORD ROWS` gives the place of the row that the word matches, and `apart ROWS` whether
/// no word matches two.
pub fn answer(alloc: Global, words: &[&str]) -> Result<String, CaseError> {
    match words {
        [what, digits @ ..] => told(alloc, what, hex_words(alloc, digits)?.as_slice()),
        [] => Err(CaseError::NoCase),
    }
}

fn told(alloc: Global, what: &str, numbers: &[u16]) -> Result<String, CaseError> {
    match (what, numbers) {
        ("kind", [word]) => shown(alloc, &avr_kind(*word)),
        ("decode", [word, next]) => decoded(alloc, *word, *next),
        ("find", [word, a, b]) => shown(alloc, &find_row(&[row(*a, *b)], *word)),
        ("find", [word, rows @ ..]) => shown(alloc, &find_row(&three(rows)?, *word)),
        ("apart", [a, b, c, d]) => shown(alloc, &rows_apart(&[row(*a, *b), row(*c, *d)])),
        ("apart", rows) => shown(alloc, &rows_apart(&three(rows)?)),
        _ => Err(CaseError::NoCase),
    }
}

fn three(numbers: &[u16]) -> Result<[InsnRow; 3], CaseError> {
    match numbers {
        [a, b, c, d, e, f] => Ok([row(*a, *b), row(*c, *d), row(*e, *f)]),
        _ => Err(CaseError::NoCase),
    }
}

fn row(mask: u16, bits: u16) -> InsnRow {
    InsnRow {
        mask,
        bits,
        kind: 0,
    }
}

fn decoded(alloc: Global, word: u16, next: u16) -> Result<String, CaseError> {
    let (Some(kind), Some(insn)) = (avr_kind(word), decode(word, next)) else {
        return Ok(format!(in alloc; "None")?);
    };
    let (one, other) = fields(insn);
    let [first, second] = encode(&insn);
    let size = size_of(&insn);
    Ok(format!(in alloc; "{kind:?} {one:x} {other:x}, {first:04x} {second:04x}, {size}")?)
}

/// The fields of an instruction in their order; 0 where it has fewer than two.
fn fields(insn: AvrInsn) -> (u32, u32) {
    match insn {
        AvrInsn::Add { d, r } | AvrInsn::Adc { d, r } => both(d, r),
        AvrInsn::Sub { d, r } | AvrInsn::Sbc { d, r } => both(d, r),
        AvrInsn::Cp { d, r } | AvrInsn::Cpc { d, r } => both(d, r),
        AvrInsn::And { d, r } | AvrInsn::Eor { d, r } => both(d, r),
        AvrInsn::Or { d, r } | AvrInsn::Mov { d, r } => both(d, r),
        AvrInsn::Cpi { d, k } | AvrInsn::Ldi { d, k } => both(d, k),
        AvrInsn::Com { d } | AvrInsn::Inc { d } | AvrInsn::Dec { d } => both(d, 0),
        AvrInsn::Lsr { d } | AvrInsn::Ror { d } => both(d, 0),
        AvrInsn::Brbs { s, k } | AvrInsn::Brbc { s, k } => both(s, k),
        AvrInsn::Bset { s } | AvrInsn::Bclr { s } => both(s, 0),
        AvrInsn::Rjmp { k } | AvrInsn::Rcall { k } => (u32::from(k), 0),
        AvrInsn::Jmp { place } | AvrInsn::Call { place } => (place, 0),
        AvrInsn::In { d, a } => both(d, a),
        AvrInsn::Out { a, r } => both(a, r),
        AvrInsn::Cbi { a, b } | AvrInsn::Sbi { a, b } => both(a, b),
        AvrInsn::Sbic { a, b } | AvrInsn::Sbis { a, b } => both(a, b),
        AvrInsn::Sbrc { r, b } | AvrInsn::Sbrs { r, b } => both(r, b),
        AvrInsn::Lds { d, address } => (u32::from(d), u32::from(address)),
        AvrInsn::Sts { address, r } => (u32::from(address), u32::from(r)),
        AvrInsn::Ldd { d, q } => both(d, q),
        AvrInsn::Std { q, r } => both(q, r),
        AvrInsn::St { r } => both(r, 0),
        AvrInsn::Ret | AvrInsn::Nop => (0, 0),
    }
}

fn both(one: u8, other: u8) -> (u32, u32) {
    (u32::from(one), u32::from(other))
}
