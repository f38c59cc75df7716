//! The words of what is done to bits, and of jumps.

ghost use Rattle.std.specs.Prelude.{◌≡◌, ◌<◌, ◌≤◌, ◌++◌, OnOk, if◌then◌else◌};
ghost use Rattle.byte_code.specs.Store.{in_byte};
ghost use Rattle.byte_code.specs.declared.prim.Test.TheVariants as tests;
ghost use Rattle.avr_mach.specs.declared.insn.AvrInsn.TheVariants as insn;
ghost use Rattle.avr_mach.specs.Insn.{FieldsFit};
ghost use Rattle.avr_code.specs.Code.{put_code, put_wire, put_byte, put_if_code, put_wire_if, put_byte_if, fetch_code, held_code, held_at, wire_taken, copy_wire, copy_byte, copy_code, put_on_flag_code, bit_code, test_code, words_of};
ghost use Rattle.avr_counts.specs.Tested.{put_where};
ghost use Rattle.avr_emit.specs.Emit.{HasPort, HasLatch, HasPorts, HasTested, latch_taken, wire_given};

use crate::insns::{
    fetches, gives, latches, ldi, loads, mask_of, mixes, put, skips, status_bit, stores,
    unless_flag,
};
use avr_counts::cells::is_wire;
use avr_mach::AvrInsn;
use byte_code::prim::{BitDest, BitOp, BitSource, FlagKind, Test};
use chip_tables::mega16::IO_FIRST;
use std::alloc::AllocError;
use target_core::words::Words;

/// Appends the words of what is done to a bit. Where memory is refused some of them may be appended.
pub(crate) fn bit_op(words: &mut Words, op: BitOp) -> Result<(), AllocError>
    requires { HasPorts op }
    ensures { OnOk result (words.new ≡ words.old ++ words_of (bit_code op)) }
{
    match op {
        BitOp::Put { to, value } => put_bit(words, to, value),
        BitOp::Copy { to, from, inverted } => copy_bit(words, to, from, inverted),
        BitOp::PutIf {
            test,
            is,
            to,
            value,
        } => put_if(words, test, is, to, value),
        BitOp::PutOnFlag {
            kind,
            is,
            to,
            value,
        } => put_on_flag(words, kind, is, to, value),
    }
}

fn put_bit(words: &mut Words, to: BitDest, x: bool) -> Result<(), AllocError>
    requires { HasLatch to }
    ensures { OnOk result (words.new ≡ words.old ++ words_of (put_code to x)) }
{
    match to {
        BitDest::Cell { address, bit } => {
            if address == 20 {
                put(words, &[ldi(20, u8::from(x))])
            } else if is_wire(address) {
                set_wire(words, address, x)
            } else {
                set_byte(words, address, bit, x)
            }
        }
        BitDest::Latch { port, bit } => put(words, &[latches(port, bit, x)]),
    }
}

/// A wire becomes `x`; 0 is that of R1.
fn set_wire(words: &mut Words, a: u16, x: bool) -> Result<(), AllocError>
    requires { a < 32 }
    ensures { OnOk result (words.new ≡ words.old ++ words_of (put_wire a x)) }
{
    if x {
        put(words, &[ldi(16, 1), gives(a, 16)])
    } else {
        put(words, &[gives(a, 1)])
    }
}

/// A bit of a cell becomes `x`, in its place where the cell is a register.
fn set_byte(words: &mut Words, a: u16, b: u8, x: bool) -> Result<(), AllocError>
    ensures { OnOk result (words.new ≡ words.old ++ words_of (put_byte a (in_byte b) x)) }
{
    let mask = ldi(17, mask_of(x, b));
    if a < IO_FIRST {
        put(words, &[mask, mixes(a as u8, 17, x)])
    } else {
        put(
            words,
            &[loads(16, a), mask, mixes(16, 17, x), stores(a, 16)],
        )
    }
}

/// A bit of the SRAM is fetched into R18, and any other is tested where it is.
fn fetch(words: &mut Words, from: BitSource) -> Result<(), AllocError>
    ensures { OnOk result (words.new ≡ words.old ++ words_of (fetch_code from)) }
{
    match from {
        BitSource::Cell { address, .. } => {
            if address < IO_FIRST {
                Ok(())
            } else {
                put(words, &[loads(18, address)])
            }
        }
        BitSource::Level { .. } | BitSource::Latch { .. } => Ok(()),
    }
}

/// Where one bit is so, another becomes `x`.
fn put_if(
    words: &mut Words,
    from: BitSource,
    is: bool,
    to: BitDest,
    x: bool,
) -> Result<(), AllocError>
    requires from { HasPort from }
    requires to { HasLatch to }
    ensures { OnOk result (words.new ≡ words.old ++ words_of (put_if_code from is to x)) }
{
    fetch(words, from)?;
    put_tested(words, from, is, to, x)
}

/// The same, once the bit that is tested was fetched.
fn put_tested(
    words: &mut Words,
    from: BitSource,
    is: bool,
    to: BitDest,
    x: bool,
) -> Result<(), AllocError>
    requires from { HasPort from }
    requires to { HasLatch to }
    ensures { OnOk result (words.new ≡ words.old ++ words_of (put_where from is to x)) }
{
    match to {
        BitDest::Cell { address, bit } => {
            if address == 20 {
                put(words, &[skips(from, !is), ldi(20, u8::from(x))])
            } else if is_wire(address) {
                set_wire_if(words, from, is, address, x)
            } else {
                set_byte_if(words, from, is, (address, bit), x)
            }
        }
        BitDest::Latch { port, bit } => put(words, &[skips(from, !is), latches(port, bit, x)]),
    }
}

fn set_wire_if(
    words: &mut Words,
    from: BitSource,
    is: bool,
    a: u16,
    x: bool,
) -> Result<(), AllocError>
    requires from { HasPort from }
    requires cell { a < 32 }
    ensures { OnOk result (words.new ≡ words.old ++ words_of (put_wire_if from is a x)) }
{
    let skip = skips(from, !is);
    if x {
        put(words, &[ldi(16, 1), skip, gives(a, 16)])
    } else {
        put(words, &[skip, gives(a, 1)])
    }
}

fn set_byte_if(
    words: &mut Words,
    from: BitSource,
    is: bool,
    to: (u16, u8),
    x: bool,
) -> Result<(), AllocError>
    requires { HasPort from }
    ensures { OnOk result (words.new ≡ words.old ++ words_of (put_byte_if from is to.0 (in_byte to.1) x)) }
{
    let (a, b) = to;
    let mask = ldi(17, mask_of(x, b));
    let skip = skips(from, !is);
    if a < IO_FIRST {
        put(words, &[mask, skip, mixes(a as u8, 17, x)])
    } else {
        let (load, store) = (loads(16, a), stores(a, 16));
        put(words, &[load, mask, skip, mixes(16, 17, x), store])
    }
}

/// One bit becomes another, or its opposite.
fn copy_bit(
    words: &mut Words,
    to: BitDest,
    from: BitSource,
    inverted: bool,
) -> Result<(), AllocError>
    requires from { HasPort from }
    requires to { HasLatch to }
    ensures { OnOk result (words.new ≡ words.old ++ words_of (copy_code to from inverted)) }
{
    match to {
        BitDest::Cell { address, bit } => {
            if is_wire(address) {
                copy_to_wire(words, address, from, inverted)
            } else {
                copy_to_byte(words, address, bit, from, inverted)
            }
        }
        BitDest::Latch { port, bit } => {
            hold(words, from)?;
            take_latch(words, port, bit, held(from), inverted)
        }
    }
}

/// A level or a latch is read once, into R18, and a bit of the SRAM fetched.
fn hold(words: &mut Words, from: BitSource) -> Result<(), AllocError>
    requires { HasPort from }
    ensures { OnOk result (words.new ≡ words.old ++ words_of (held_code from)) }
{
    match from {
        BitSource::Cell { .. } => fetch(words, from),
        BitSource::Level { .. } | BitSource::Latch { .. } => put(words, &[fetches(from)]),
    }
}

/// Where the bit is tested once it was read so.
fn held(from: BitSource) -> BitSource
    ensures value { result ≡ held_at from }
    ensures port { HasPort result }
{
    match from {
        BitSource::Cell { .. } => from,
        BitSource::Level { bit, .. } | BitSource::Latch { bit, .. } => {
            BitSource::Cell { address: 18, bit }
        }
    }
}

/// A bit of a latch is set by one test and cleared by another.
fn take_latch(
    words: &mut Words,
    port: u8,
    b: u8,
    from: BitSource,
    inverted: bool,
) -> Result<(), AllocError>
    requires to { port < 4 }
    requires from { HasPort from }
    ensures { OnOk result (words.new ≡ words.old ++ words_of (latch_taken port b from inverted)) }
{
    put(
        words,
        &[
            skips(from, inverted),
            latches(port, b, true),
            skips(from, !inverted),
            latches(port, b, false),
        ],
    )
}

/// A wire becomes a bit: another wire as it is, and any other bit by way of R16.
fn copy_to_wire(
    words: &mut Words,
    a: u16,
    from: BitSource,
    inverted: bool,
) -> Result<(), AllocError>
    requires to { a < 32 }
    requires from { HasPort from }
    ensures { OnOk result (words.new ≡ words.old ++ words_of (copy_wire a from inverted)) }
{
    match from {
        BitSource::Cell { address, .. } => {
            if is_wire(address) && !inverted {
                put(words, &[gives(a, address as u8)])
            } else {
                take_wire(words, a, from, inverted)
            }
        }
        BitSource::Level { .. } | BitSource::Latch { .. } => take_wire(words, a, from, inverted),
    }
}

fn take_wire(words: &mut Words, a: u16, from: BitSource, inverted: bool) -> Result<(), AllocError>
    requires to { a < 32 }
    requires from { HasPort from }
    ensures { OnOk result (words.new ≡ words.old ++ words_of (wire_taken a from inverted)) }
{
    fetch(words, from)?;
    give_wire(words, a, from, inverted)
}

/// The same, once the bit was fetched.
fn give_wire(words: &mut Words, a: u16, from: BitSource, inverted: bool) -> Result<(), AllocError>
    requires to { a < 32 }
    requires from { HasPort from }
    ensures { OnOk result (words.new ≡ words.old ++ words_of (wire_given a from inverted)) }
{
    put(
        words,
        &[
            ldi(16, u8::from(inverted)),
            skips(from, false),
            ldi(16, u8::from(!inverted)),
            gives(a, 16),
        ],
    )
}

fn copy_to_byte(
    words: &mut Words,
    a: u16,
    b: u8,
    from: BitSource,
    inverted: bool,
) -> Result<(), AllocError>
    requires from { HasPort from }
    ensures { OnOk result (words.new ≡ words.old ++ words_of (copy_byte a (in_byte b) from inverted)) }
{
    fetch(words, from)?;
    put(
        words,
        &[
            loads(16, a),
            ldi(17, mask_of(true, b)),
            mixes(16, 17, true),
            skips(from, !inverted),
            AvrInsn::Eor { d: 16, r: 17 },
            stores(a, 16),
        ],
    )
}

/// Where the flag is so, a wire becomes `x`.
fn put_on_flag(
    words: &mut Words,
    kind: FlagKind,
    is: bool,
    to: BitDest,
    x: bool,
) -> Result<(), AllocError>
    ensures { OnOk result (words.new ≡ words.old ++ words_of (put_on_flag_code kind is to x)) }
{
    match to {
        BitDest::Cell { address, .. } => {
            if address == 20 {
                put(words, &[unless_flag(kind, is), ldi(20, u8::from(x))])
            } else if is_wire(address) {
                put(
                    words,
                    &[
                        ldi(16, u8::from(x)),
                        unless_flag(kind, is),
                        gives(address, 16),
                    ],
                )
            } else {
                Ok(())
            }
        }
        BitDest::Latch { .. } => Ok(()),
    }
}

/// Appends the words of a jump that goes by a test. Where memory is refused some of them may be appended.
pub(crate) fn jump_where(words: &mut Words, test: Test, place: u16) -> Result<(), AllocError>
    requires { HasTested test }
    ensures { OnOk result (words.new ≡ words.old ++ words_of (test_code test place)) }
{
    match test {
        Test::LoopsOn => put(
            words,
            &[AvrInsn::Dec { d: 21 }, past_jump(1, false), jmp(place)],
        ),
        Test::Flag { kind, is } => put(words, &[past_jump(status_bit(kind), is), jmp(place)]),
        Test::Bit { from, is } => jump_where_bit(words, from, is, place),
        Test::NoByte | Test::Sends | Test::Writes | Test::NoneWaits => Ok(()),
    }
}

fn jump_where_bit(
    words: &mut Words,
    from: BitSource,
    is: bool,
    place: u16,
) -> Result<(), AllocError>
    requires { HasPort from }
    ensures { OnOk result (words.new ≡ words.old ++ words_of (test_code (tests.Bit from is) place)) }
{
    fetch(words, from)?;
    put(words, &[skips(from, !is), jmp(place)])
}

/// The jump behind it is passed over unless a bit of the status register is so.
fn past_jump(s: u8, is: bool) -> AvrInsn
    requires { s < 8 }
    ensures value { result ≡ (if is then insn.Brbc s 2 else insn.Brbs s 2) }
    ensures fits { FieldsFit result }
{
    if is {
        AvrInsn::Brbc { s, k: 2 }
    } else {
        AvrInsn::Brbs { s, k: 2 }
    }
}

/// Goes on at a place.
pub(crate) fn jmp(place: u16) -> AvrInsn
    ensures value { result ≡ insn.Jmp place }
    ensures fits { FieldsFit result }
{
    AvrInsn::Jmp {
        place: u32::from(place),
    }
}
