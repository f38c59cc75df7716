//! The words of what is done to bytes and words, and of comparisons.

ghost use Rattle.std.specs.Prelude.{◌≡◌, ◌+◌, ◌<◌, ◌≤◌, [], ◌∷◌, ◌++◌, OnOk};
ghost use Rattle.avr_mach.specs.declared.insn.AvrInsn.TheVariants as insn;
ghost use Rattle.byte_code.specs.declared.prim.ByteOp.TheVariants as xors;
ghost use Rattle.byte_code.specs.declared.prim.WordOp.TheVariants as ops;
ghost use Rattle.avr_mach.specs.Insn.{FieldsFit};
ghost use Rattle.avr_code.specs.Code.{Plain, takes_number, byte_set, byte_moved, byte_code, move_code, word_code, word_loaded, added, negate_code, multiply_code, divide_code, compare_code, compared, against, is_nothing, words_of};
ghost use Rattle.avr_code.specs.Target.{IsWord, ReadsWord, AdmitsWord, AdmitsCompare};
ghost use Rattle.avr_emit.specs.Emit.{changed_by, negated, negated_by};

use crate::insns::{ldi, loads, put, stores};
use avr_counts::cells::{is_nothing, takes_number};
use avr_mach::AvrInsn;
use byte_code::prim::{ByteOp, CompareOp, WordOp, WordSource};
use chip_tables::mega16::IO_FIRST;
use std::alloc::AllocError;
use target_core::words::Words;

/// Appends the words of what is done to a byte. Where memory is refused some of them may be appended.
pub(crate) fn byte_op(words: &mut Words, op: ByteOp) -> Result<(), AllocError>
    ensures { OnOk result (words.new ≡ words.old ++ words_of (byte_code op)) }
{
    match op {
        ByteOp::Put { to, value } => set_cell(words, to, value),
        ByteOp::Copy { to, from } => move_cell(words, to, from),
        ByteOp::Xor { to, a, b } => mix_cells(words, to, a, b),
    }
}

/// A cell becomes a number; R1 holds 0.
fn set_cell(words: &mut Words, a: u16, x: u8) -> Result<(), AllocError>
    ensures { OnOk result (words.new ≡ words.old ++ words_of (byte_set a x [])) }
{
    if x == 0 {
        put(words, &[stores(a, 1)])
    } else if takes_number(u32::from(a)) {
        put(words, &[ldi(a as u8, x)])
    } else {
        put(words, &[ldi(16, x), stores(a, 16)])
    }
}

/// A cell becomes another, by R16 where none of the two is a register.
fn move_cell(words: &mut Words, to: u16, from: u16) -> Result<(), AllocError>
    ensures { OnOk result (words.new ≡ words.old ++ words_of (byte_moved to from [])) }
{
    if to < IO_FIRST {
        put(words, &[loads(to as u8, from)])
    } else if from < IO_FIRST {
        put(words, &[stores(to, from as u8)])
    } else {
        put(words, &[loads(16, from), stores(to, 16)])
    }
}

/// A cell becomes what two cells differ in, in its place where it is a register and not the second of them.
fn mix_cells(words: &mut Words, to: u16, a: u16, b: u16) -> Result<(), AllocError>
    ensures { OnOk result (words.new ≡ words.old ++ words_of (byte_code (xors.Xor to a b))) }
{
    if to < IO_FIRST && (b < IO_FIRST && b != to) {
        let xor = AvrInsn::Eor {
            d: to as u8,
            r: b as u8,
        };
        put(words, &[loads(to as u8, a), xor])
    } else {
        let xor = AvrInsn::Eor { d: 16, r: 17 };
        put(words, &[loads(16, a), loads(17, b), xor, stores(to, 16)])
    }
}

/// A word becomes another, its low byte first, but its high one where the low one would take its place.
fn move_word(words: &mut Words, to: u16, from: WordSource) -> Result<(), AllocError>
    requires to { IsWord to }
    requires from { ReadsWord from }
    ensures { OnOk result (words.new ≡ words.old ++ words_of (move_code to from)) }
{
    match from {
        WordSource::Number { low, high } => {
            set_cell(words, to, low)?;
            set_cell(words, high_of(to), high)
        }
        WordSource::Cells(a) => {
            let high = high_of(a);
            if to == high {
                move_cell(words, high_of(to), high)?;
                move_cell(words, to, a)
            } else {
                move_cell(words, to, a)?;
                move_cell(words, high_of(to), high)
            }
        }
    }
}

/// The address of a word's high byte.
fn high_of(a: u16) -> u16
    requires { IsWord a }
    ensures { result ≡ a + 1 }
{
    a + 1
}

/// The registers `r` and `r + 1` take a word.
fn load_word(words: &mut Words, r: u8, from: WordSource) -> Result<(), AllocError>
    requires low { 16 ≤ r }
    requires high { r < 31 }
    requires from { ReadsWord from }
    ensures { OnOk result (words.new ≡ words.old ++ words_of (word_loaded r from)) }
{
    match from {
        WordSource::Cells(a) => put(words, &[loads(r, a), loads(r + 1, high_of(a))]),
        WordSource::Number { low, high } => put(words, &[ldi(r, low), ldi(r + 1, high)]),
    }
}

/// Appends the words of what is done to a word. Where memory is refused some of them may be appended.
pub(crate) fn word_op(words: &mut Words, op: WordOp) -> Result<(), AllocError>
    requires { AdmitsWord op }
    ensures { OnOk result (words.new ≡ words.old ++ words_of (word_code op)) }
{
    match op {
        WordOp::Move { to, from } => move_word(words, to, from),
        WordOp::Increment { to } => by_one(
            words,
            to,
            AvrInsn::Adc { d: 16, r: 1 },
            AvrInsn::Adc { d: 17, r: 1 },
        ),
        WordOp::Decrement { to } => by_one(
            words,
            to,
            AvrInsn::Sbc { d: 16, r: 1 },
            AvrInsn::Sbc { d: 17, r: 1 },
        ),
        WordOp::Add { to, a, b } => add(words, to, a, b),
        WordOp::Subtract { to, a, b } => subtract(words, to, a, b),
        WordOp::NegateIf { to, sign } => negate_if(words, to, sign),
        WordOp::MultiplyStep => multiply_step(words),
        WordOp::DivideStep => divide_step(words),
    }
}

fn add(words: &mut Words, to: u16, a: u16, b: WordSource) -> Result<(), AllocError>
    requires { AdmitsWord (ops.Add to a b) }
    ensures { OnOk result (words.new ≡ words.old ++ words_of (word_code (ops.Add to a b))) }
{
    load_word(words, 16, WordSource::Cells(a))?;
    add_word(words, b)?;
    put(words, &[stores(to, 16), stores(high_of(to), 17)])
}

/// A word is added to R16 and R17.
fn add_word(words: &mut Words, b: WordSource) -> Result<(), AllocError>
    requires { ReadsWord b }
    ensures { OnOk result (words.new ≡ words.old ++ words_of (added b)) }
{
    let low = AvrInsn::Add { d: 16, r: 18 };
    let high = AvrInsn::Adc { d: 17, r: 19 };
    match b {
        WordSource::Cells(a) => put(words, &[loads(18, a), loads(19, high_of(a)), low, high]),
        WordSource::Number {
            low: first,
            high: 0,
        } => { put(words, &[ldi(18, first), low, AvrInsn::Adc { d: 17, r: 1 }]) }
        WordSource::Number {
            low: first,
            high: second,
        } => { put(words, &[ldi(18, first), ldi(19, second), low, high]) }
    }
}

fn subtract(words: &mut Words, to: u16, a: WordSource, b: WordSource) -> Result<(), AllocError>
    requires { AdmitsWord (ops.Subtract to a b) }
    ensures { OnOk result (words.new ≡ words.old ++ words_of (word_code (ops.Subtract to a b))) }
{
    load_word(words, 16, a)?;
    load_word(words, 18, b)?;
    let low = AvrInsn::Sub { d: 16, r: 18 };
    let high = AvrInsn::Sbc { d: 17, r: 19 };
    put(words, &[low, high, stores(to, 16), stores(high_of(to), 17)])
}

/// The word takes what two instructions make of R16 and R17 and the carry, which is 1.
fn by_one(words: &mut Words, to: u16, low: AvrInsn, high: AvrInsn) -> Result<(), AllocError>
    requires to { IsWord to }
    requires low { FieldsFit low }
    requires high { FieldsFit high }
    ensures { OnOk result (words.new ≡ words.old ++ words_of (changed_by to low high)) }
{
    put(
        words,
        &[
            loads(16, to),
            loads(17, high_of(to)),
            AvrInsn::Bset { s: 0 },
            low,
            high,
            stores(to, 16),
            stores(high_of(to), 17),
        ],
    )
}

/// The word becomes its complement and 1 more, where the sign's bit 7 is 1; in its place where it and the sign are registers.
fn negate_if(words: &mut Words, to: u16, sign: u16) -> Result<(), AllocError>
    requires to { IsWord to }
    ensures { OnOk result (words.new ≡ words.old ++ words_of (negate_code to sign)) }
{
    if to < IO_FIRST && sign < IO_FIRST {
        negate_register(words, to, sign)
    } else {
        negate_cells(words, to, sign)
    }
}

fn negate_register(words: &mut Words, to: u16, sign: u16) -> Result<(), AllocError>
    requires to { IsWord to }
    requires register { to < 32 }
    requires by { sign < 32 }
    ensures { OnOk result (words.new ≡ words.old ++ words_of (negated to sign)) }
{
    let low = to as u8;
    let high = high_of(to) as u8;
    put(
        words,
        &[
            AvrInsn::Sbrs {
                r: sign as u8,
                b: 7,
            },
            AvrInsn::Rjmp { k: 4 },
            AvrInsn::Com { d: low },
            AvrInsn::Com { d: high },
            AvrInsn::Adc { d: low, r: 1 },
            AvrInsn::Adc { d: high, r: 1 },
        ],
    )
}

fn negate_cells(words: &mut Words, to: u16, sign: u16) -> Result<(), AllocError>
    requires to { IsWord to }
    ensures { OnOk result (words.new ≡ words.old ++ words_of (negated_by to sign)) }
{
    put(
        words,
        &[
            loads(18, sign),
            loads(16, to),
            loads(17, high_of(to)),
            AvrInsn::Sbrs { r: 18, b: 7 },
            AvrInsn::Rjmp { k: 4 },
            AvrInsn::Com { d: 16 },
            AvrInsn::Com { d: 17 },
            AvrInsn::Adc { d: 16, r: 1 },
            AvrInsn::Adc { d: 17, r: 1 },
            stores(to, 16),
            stores(high_of(to), 17),
        ],
    )
}

/// The product takes R24 and R25 by the lowest bits of R22 and R23.
fn multiply_step(words: &mut Words) -> Result<(), AllocError>
    ensures { OnOk result (words.new ≡ words.old ++ words_of multiply_code) }
{
    put(
        words,
        &[
            AvrInsn::Lsr { d: 22 },
            AvrInsn::Brbc { s: 0, k: 2 },
            AvrInsn::Add { d: 30, r: 24 },
            AvrInsn::Adc { d: 31, r: 25 },
            AvrInsn::Lsr { d: 23 },
            AvrInsn::Brbc { s: 0, k: 1 },
            AvrInsn::Add { d: 31, r: 24 },
            AvrInsn::Add { d: 24, r: 24 },
            AvrInsn::Adc { d: 25, r: 25 },
        ],
    )
}

/// The quotient takes its next bit.
fn divide_step(words: &mut Words) -> Result<(), AllocError>
    ensures { OnOk result (words.new ≡ words.old ++ words_of divide_code) }
{
    put(
        words,
        &[
            AvrInsn::Add { d: 24, r: 24 },
            AvrInsn::Adc { d: 25, r: 25 },
            AvrInsn::Adc { d: 30, r: 30 },
            AvrInsn::Adc { d: 31, r: 31 },
            AvrInsn::Cp { d: 30, r: 22 },
            AvrInsn::Cpc { d: 31, r: 23 },
            AvrInsn::Brbs { s: 0, k: 3 },
            AvrInsn::Sub { d: 30, r: 22 },
            AvrInsn::Sbc { d: 31, r: 23 },
            AvrInsn::Inc { d: 24 },
        ],
    )
}

/// Appends the words of a comparison. Where memory is refused some of them may be appended.
pub(crate) fn compare_op(words: &mut Words, op: CompareOp) -> Result<(), AllocError>
    requires { AdmitsCompare op }
    ensures { OnOk result (words.new ≡ words.old ++ words_of (compare_code op)) }
{
    match op {
        CompareOp::Less { a, b } => {
            if is_nothing(b) {
                put(words, &[loads(17, high_of(a)), AvrInsn::Cp { d: 17, r: 1 }])
            } else {
                compare(words, a, b)
            }
        }
        CompareOp::Equal { a, b } => {
            if is_nothing(b) {
                let both = AvrInsn::Or { d: 16, r: 17 };
                put(words, &[loads(16, a), loads(17, high_of(a)), both])
            } else {
                compare(words, a, b)
            }
        }
        CompareOp::Below { a, number } => {
            load_word(words, 16, WordSource::Cells(a))?;
            let low = AvrInsn::Cpi { d: 16, k: number };
            put(words, &[low, AvrInsn::Cpc { d: 17, r: 1 }])
        }
    }
}

fn compare(words: &mut Words, a: u16, b: WordSource) -> Result<(), AllocError>
    requires a { IsWord a }
    requires b { ReadsWord b }
    ensures { OnOk result (words.new ≡ words.old ++ words_of (compared a b)) }
{
    load_word(words, 16, WordSource::Cells(a))?;
    compare_with(words, b)
}

/// R16 and R17 are compared with a word.
fn compare_with(words: &mut Words, b: WordSource) -> Result<(), AllocError>
    requires { ReadsWord b }
    ensures { OnOk result (words.new ≡ words.old ++ words_of (against b)) }
{
    match b {
        WordSource::Cells(a) => {
            let high = high_of(a);
            if a < IO_FIRST {
                compare_register(words, a, high)
            } else {
                let low = AvrInsn::Cp { d: 16, r: 18 };
                put(
                    words,
                    &[
                        loads(18, a),
                        loads(19, high),
                        low,
                        AvrInsn::Cpc { d: 17, r: 19 },
                    ],
                )
            }
        }
        WordSource::Number { low, high } => {
            let first = AvrInsn::Cpi { d: 16, k: low };
            if high == 0 {
                put(words, &[first, AvrInsn::Cpc { d: 17, r: 1 }])
            } else {
                put(
                    words,
                    &[ldi(18, high), first, AvrInsn::Cpc { d: 17, r: 18 }],
                )
            }
        }
    }
}

fn compare_register(words: &mut Words, low: u16, high: u16) -> Result<(), AllocError>
    requires word { high ≡ low + 1 }
    requires register { high < 32 }
    ensures { OnOk result (words.new ≡ words.old ++ words_of (Plain (insn.Cp 16 low) ∷ Plain (insn.Cpc 17 (low + 1)) ∷ [])) }
{
    let first = AvrInsn::Cp {
        d: 16,
        r: low as u8,
    };
    put(
        words,
        &[
            first,
            AvrInsn::Cpc {
                d: 17,
                r: high as u8,
            },
        ],
    )
}
