//! The instructions by which registers take what a primitive names, and the words of instructions.

ghost use Rattle.std.specs.Prelude.{◌≡◌, ◌<◌, ◌≤◌, ◌^◌, ◌-◌, ◌++◌, All, OnOk, true};
ghost use Rattle.byte_code.specs.Store.{in_byte};
ghost use Rattle.avr_mach.specs.declared.insn.AvrInsn.TheVariants as insn;
ghost use Rattle.avr_mach.specs.Insn.{FieldsFit};
ghost use Rattle.avr_mach.specs.Words.{size_of};
ghost use Rattle.avr_code.specs.Code.{Loads, Stores, Fetches, Gives, Latches, Skips, Mixes, insn_of, skip_of, io_skip, unless_flag, mask_of, status_bit, words_by};
ghost use Rattle.avr_emit.specs.Emit.{insn_words, HasPort};

use avr_devices::{latch_address, level_address};
use avr_mach::{AvrInsn, encode, size_of};
use byte_code::prim::{BitSource, FlagKind};
use chip_tables::bit_mask;
use chip_tables::mega16::IO_FIRST;
use std::alloc::AllocError;
use target_core::words::Words;

/// The register `d`, from 16 on, takes a number.
pub(crate) fn ldi(d: u8, k: u8) -> AvrInsn
    requires low { 16 ≤ d }
    requires high { d < 32 }
    ensures value { result ≡ insn.Ldi d k }
    ensures fits { FieldsFit result }
{
    AvrInsn::Ldi { d, k }
}

/// The register `r` takes the cell `a`.
pub(crate) fn loads(r: u8, a: u16) -> AvrInsn
    requires { r < 32 }
    ensures value { result ≡ insn_of (Loads r a) }
    ensures fits { FieldsFit result }
{
    if a < IO_FIRST {
        AvrInsn::Mov { d: r, r: a as u8 }
    } else {
        AvrInsn::Lds { d: r, address: a }
    }
}

/// The cell `a` takes the register `r`.
pub(crate) fn stores(a: u16, r: u8) -> AvrInsn
    requires { r < 32 }
    ensures value { result ≡ insn_of (Stores a r) }
    ensures fits { FieldsFit result }
{
    if a < IO_FIRST {
        AvrInsn::Mov { d: a as u8, r }
    } else {
        AvrInsn::Sts { address: a, r }
    }
}

/// R18 takes the byte of a bit.
pub(crate) fn fetches(from: BitSource) -> AvrInsn
    requires { HasPort from }
    ensures value { result ≡ insn_of (Fetches from) }
    ensures fits { FieldsFit result }
{
    match from {
        BitSource::Cell { address, .. } => loads(18, address),
        BitSource::Level { port, .. } => AvrInsn::In {
            d: 18,
            a: level_address(port),
        },
        BitSource::Latch { port, .. } => AvrInsn::In {
            d: 18,
            a: latch_address(port),
        },
    }
}

/// The next instruction is passed over where a bit is so: one of the SRAM in R18, any other where it is.
pub(crate) fn skips(from: BitSource, is: bool) -> AvrInsn
    requires { HasPort from }
    ensures value { result ≡ insn_of (Skips from is) }
    ensures fits { FieldsFit result }
{
    match from {
        BitSource::Cell { address, bit } => {
            if address < IO_FIRST {
                register_skip(is, address as u8, bit)
            } else {
                register_skip(is, 18, bit)
            }
        }
        BitSource::Level { port, bit } => io_skip(is, level_address(port), bit),
        BitSource::Latch { port, bit } => io_skip(is, latch_address(port), bit),
    }
}

fn register_skip(is: bool, r: u8, b: u8) -> AvrInsn
    requires { r < 32 }
    ensures value { result ≡ skip_of is r (in_byte b) }
    ensures fits { FieldsFit result }
{
    if is {
        AvrInsn::Sbrs { r, b: b % 8 }
    } else {
        AvrInsn::Sbrc { r, b: b % 8 }
    }
}

fn io_skip(is: bool, a: u8, b: u8) -> AvrInsn
    requires { a < 32 }
    ensures value { result ≡ io_skip is a (in_byte b) }
    ensures fits { FieldsFit result }
{
    if is {
        AvrInsn::Sbis { a, b: b % 8 }
    } else {
        AvrInsn::Sbic { a, b: b % 8 }
    }
}

/// The next word is passed over unless the flag is so.
pub(crate) fn unless_flag(kind: FlagKind, is: bool) -> AvrInsn
    ensures value { result ≡ insn_of (unless_flag kind is) }
    ensures fits { FieldsFit result }
{
    let s = status_bit(kind);
    if is {
        AvrInsn::Brbc { s, k: 1 }
    } else {
        AvrInsn::Brbs { s, k: 1 }
    }
}

/// The bit of the status register that holds a comparison.
pub(crate) fn status_bit(kind: FlagKind) -> u8
    ensures value { result ≡ status_bit kind }
    ensures bit { result < 8 }
{
    match kind {
        FlagKind::Less => 4,
        FlagKind::Equal => 1,
        FlagKind::Below => 0,
    }
}

/// The register `a`, which is a cell, takes the register `r`.
pub(crate) fn gives(a: u16, r: u8) -> AvrInsn
    requires cell { a < 32 }
    requires register { r < 32 }
    ensures value { result ≡ insn_of (Gives a r) }
    ensures fits { FieldsFit result }
{
    AvrInsn::Mov { d: a as u8, r }
}

/// A bit of a port's latches becomes so.
pub(crate) fn latches(port: u8, b: u8, x: bool) -> AvrInsn
    requires { port < 4 }
    ensures value { result ≡ insn_of (Latches port (in_byte b) x) }
    ensures fits { FieldsFit result }
{
    let a = latch_address(port);
    if x {
        AvrInsn::Sbi { a, b: b % 8 }
    } else {
        AvrInsn::Cbi { a, b: b % 8 }
    }
}

/// The mask by which R16 is to take a bit.
pub(crate) fn mask_of(x: bool, b: u8) -> u8
    ensures { result ≡ mask_of x (in_byte b) }
{
    if x {
        bit_mask(b % 8)
    } else {
        255 - bit_mask(b % 8)
    }
}

/// The register `d` takes the bits of the register `r`, or keeps those alone.
pub(crate) fn mixes(d: u8, r: u8, x: bool) -> AvrInsn
    requires changed { d < 32 }
    requires mask { r < 32 }
    ensures value { result ≡ insn_of (Mixes d r x) }
    ensures fits { FieldsFit result }
{
    if x {
        AvrInsn::Or { d, r }
    } else {
        AvrInsn::And { d, r }
    }
}

/// Appends the words of instructions. Where memory is refused some of them may be appended.
pub(crate) fn put(words: &mut Words, insns: &[AvrInsn]) -> Result<(), AllocError>
    requires { All FieldsFit insns.now }
    ensures { OnOk result (words.new ≡ words.old ++ insn_words insns.now) }
{
    for i in insns {
        put_one(words, i)?;
    }
    Ok(())
}

fn put_one(words: &mut Words, i: &AvrInsn) -> Result<(), AllocError>
    requires { FieldsFit i.now }
    ensures { OnOk result (words.new ≡ words.old ++ words_by (size_of i.now) i.now) }
{
    let pair = encode(i);
    words.push(pair[0])?;
    if size_of(i) == 2 {
        words.push(pair[1])?;
    }
    Ok(())
}
