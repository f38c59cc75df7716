//! Instructions with their fields, and their words.

ghost use Rattle.std.specs.Prelude.{◌≡◌, ℕ, ◌+◌, ◌-◌, ◌*◌, ◌/◌, ◌%◌, ◌^◌, ◌<◌, ◌≤◌, true, IfSome};
ghost use Rattle.avr_mach.specs.declared.insn.AvrInsn.{AvrInsn};
ghost use Rattle.avr_mach.specs.Groups.{is_of_flow, is_of_data};
ghost use Rattle.avr_mach.specs.Insn.{avr_decode, insn_of, FieldsFit, reg_d, io_address, constant, displacement, long_place};
ghost use Rattle.avr_mach.specs.Words.{first_word, second_word, avr_words, size_of, two_regs, with_constant, with_long_place, displaced, DecodesBack};

use insn_rows::{AvrKind, avr_kind};

/// An instruction with its fields, which have the letters of the AVR Instruction Set Manual: `d` and
/// `r` are registers, `a` is an I/O address, `b` a bit of a byte, `s` a bit of the status register,
/// `q` a displacement, and `k` a constant of a byte or, at a branch, the two's complement of how many
/// words it goes on.
#[derive(Clone, Copy)]
pub enum AvrInsn {
    /// Adds a register.
    Add { d: u8, r: u8 },
    /// Adds a register and the carry.
    Adc { d: u8, r: u8 },
    /// Subtracts a register.
    Sub { d: u8, r: u8 },
    /// Subtracts a register and the carry.
    Sbc { d: u8, r: u8 },
    /// Compares with a register.
    Cp { d: u8, r: u8 },
    /// Compares with a register and the carry.
    Cpc { d: u8, r: u8 },
    /// Takes the bits that both registers have.
    And { d: u8, r: u8 },
    /// Takes the bits that one of two registers has.
    Eor { d: u8, r: u8 },
    /// Takes the bits of both registers.
    Or { d: u8, r: u8 },
    /// Copies register `r` to `d`.
    Mov { d: u8, r: u8 },
    /// Compares with a constant; `d` from 16 on.
    Cpi { d: u8, k: u8 },
    /// Loads a constant; `d` from 16 on.
    Ldi { d: u8, k: u8 },
    /// Turns all bits round.
    Com { d: u8 },
    /// Adds 1.
    Inc { d: u8 },
    /// Shifts right.
    Lsr { d: u8 },
    /// Shifts right, with the carry as the highest bit.
    Ror { d: u8 },
    /// Subtracts 1.
    Dec { d: u8 },
    /// Branches where a status bit is set; `k` has 7 bits.
    Brbs { s: u8, k: u8 },
    /// Branches where a status bit is clear; `k` has 7 bits.
    Brbc { s: u8, k: u8 },
    /// Sets a status bit.
    Bset { s: u8 },
    /// Clears a status bit.
    Bclr { s: u8 },
    /// Jumps; `k` has 12 bits.
    Rjmp { k: u16 },
    /// Calls; `k` has 12 bits.
    Rcall { k: u16 },
    /// Jumps to a place of 22 bits.
    Jmp { place: u32 },
    /// Calls a place of 22 bits.
    Call { place: u32 },
    /// Returns from a call.
    Ret,
    /// Reads an I/O register.
    In { d: u8, a: u8 },
    /// Writes an I/O register.
    Out { a: u8, r: u8 },
    /// Clears a bit of an I/O register; `a` below 32.
    Cbi { a: u8, b: u8 },
    /// Sets a bit of an I/O register; `a` below 32.
    Sbi { a: u8, b: u8 },
    /// Skips where a bit of an I/O register is clear; `a` below 32.
    Sbic { a: u8, b: u8 },
    /// Skips where a bit of an I/O register is set; `a` below 32.
    Sbis { a: u8, b: u8 },
    /// Skips where a bit of a register is clear.
    Sbrc { r: u8, b: u8 },
    /// Skips where a bit of a register is set.
    Sbrs { r: u8, b: u8 },
    /// Loads a byte of data memory.
    Lds { d: u8, address: u16 },
    /// Stores a byte in data memory.
    Sts { address: u16, r: u8 },
    /// Loads the byte that is `q` after Y, the pair of registers 28 and 29.
    Ldd { d: u8, q: u8 },
    /// Stores a byte `q` after Y.
    Std { q: u8, r: u8 },
    /// Stores a byte at X, the pair of registers 26 and 27, and adds 1 to X.
    St { r: u8 },
    /// Does nothing.
    Nop,
}

/// The instruction of a word of program flash and the word after it; `None` where the first is the
/// word of none. Only JMP, CALL, LDS and STS take the second word.
pub fn decode(word: u16, next: u16) -> Option<AvrInsn>
    ensures value { result ≡ avr_decode word next }
    ensures fits { IfSome result FieldsFit }
{
    let kind = avr_kind(word)?;
    Some(with_fields(kind, word, next))
}

/// The instruction of a kind, with the fields that it has in its words.
fn with_fields(kind: AvrKind, w: u16, next: u16) -> AvrInsn
    ensures value { result ≡ insn_of kind w next }
    ensures fits { FieldsFit result }
{
    let d = reg_d(w);
    let r = (w / 512 % 2 * 16 + w % 16) as u8;
    let high = d % 16 + 16;
    let k = constant(w);
    match kind {
        AvrKind::Add => AvrInsn::Add { d, r },
        AvrKind::Adc => AvrInsn::Adc { d, r },
        AvrKind::Sub => AvrInsn::Sub { d, r },
        AvrKind::Sbc => AvrInsn::Sbc { d, r },
        AvrKind::Cp => AvrInsn::Cp { d, r },
        AvrKind::Cpc => AvrInsn::Cpc { d, r },
        AvrKind::And => AvrInsn::And { d, r },
        AvrKind::Eor => AvrInsn::Eor { d, r },
        AvrKind::Or => AvrInsn::Or { d, r },
        AvrKind::Mov => AvrInsn::Mov { d, r },
        AvrKind::Cpi => AvrInsn::Cpi { d: high, k },
        AvrKind::Ldi => AvrInsn::Ldi { d: high, k },
        AvrKind::Com => AvrInsn::Com { d },
        AvrKind::Inc => AvrInsn::Inc { d },
        AvrKind::Lsr => AvrInsn::Lsr { d },
        AvrKind::Ror => AvrInsn::Ror { d },
        AvrKind::Dec => AvrInsn::Dec { d },
        AvrKind::St => AvrInsn::St { r: d },
        AvrKind::Ret => AvrInsn::Ret,
        AvrKind::Nop => AvrInsn::Nop,
        AvrKind::Brbs | AvrKind::Brbc | AvrKind::Bset | AvrKind::Bclr => flow_insn(kind, w, next),
        AvrKind::Rjmp | AvrKind::Rcall | AvrKind::Jmp | AvrKind::Call => flow_insn(kind, w, next),
        _ => data_insn(kind, w, next),
    }
}

/// The same for a kind with a bit of the status register or a place of program flash.
fn flow_insn(kind: AvrKind, w: u16, next: u16) -> AvrInsn
    requires { is_of_flow kind ≡ true }
    ensures value { result ≡ insn_of kind w next }
    ensures fits { FieldsFit result }
{
    let s = (w % 8) as u8;
    let flag = (w / 16 % 8) as u8;
    let k = (w / 8 % 128) as u8;
    let place = long_place(w, next);
    match kind {
        AvrKind::Brbs => AvrInsn::Brbs { s, k },
        AvrKind::Brbc => AvrInsn::Brbc { s, k },
        AvrKind::Bset => AvrInsn::Bset { s: flag },
        AvrKind::Bclr => AvrInsn::Bclr { s: flag },
        AvrKind::Rjmp => AvrInsn::Rjmp { k: w % 4096 },
        AvrKind::Rcall => AvrInsn::Rcall { k: w % 4096 },
        AvrKind::Jmp => AvrInsn::Jmp { place },
        AvrKind::Call => AvrInsn::Call { place },
        _ => unreachable!(),
    }
}

/// The same for a kind with a bit of a byte, an I/O address, a data address or a displacement.
fn data_insn(kind: AvrKind, w: u16, next: u16) -> AvrInsn
    requires { is_of_data kind ≡ true }
    ensures value { result ≡ insn_of kind w next }
    ensures fits { FieldsFit result }
{
    let d = reg_d(w);
    let a = io_address(w);
    let low = (w / 8 % 32) as u8;
    let b = (w % 8) as u8;
    let q = displacement(w);
    match kind {
        AvrKind::In => AvrInsn::In { d, a },
        AvrKind::Out => AvrInsn::Out { a, r: d },
        AvrKind::Cbi => AvrInsn::Cbi { a: low, b },
        AvrKind::Sbi => AvrInsn::Sbi { a: low, b },
        AvrKind::Sbic => AvrInsn::Sbic { a: low, b },
        AvrKind::Sbis => AvrInsn::Sbis { a: low, b },
        AvrKind::Sbrc => AvrInsn::Sbrc { r: d, b },
        AvrKind::Sbrs => AvrInsn::Sbrs { r: d, b },
        AvrKind::Lds => AvrInsn::Lds { d, address: next },
        AvrKind::Sts => AvrInsn::Sts {
            address: next,
            r: d,
        },
        AvrKind::Ldd => AvrInsn::Ldd { d, q },
        AvrKind::Std => AvrInsn::Std { q, r: d },
        _ => unreachable!(),
    }
}

fn reg_d(w: u16) -> u8
    ensures { result ≡ reg_d w }
{
    (w / 16 % 32) as u8
}

fn io_address(w: u16) -> u8
    ensures { result ≡ io_address w }
{
    (w / 512 % 4 * 16 + w % 16) as u8
}

fn constant(w: u16) -> u8
    ensures { result ≡ constant w }
{
    (w / 256 % 16 * 16 + w % 16) as u8
}

fn displacement(w: u16) -> u8
    ensures { result ≡ displacement w }
{
    (w / 8192 % 2 * 32 + w / 1024 % 4 * 8 + w % 8) as u8
}

fn long_place(w: u16, next: u16) -> u32
    ensures { result ≡ long_place w next }
{
    u32::from(w / 16 % 32 * 2 + w % 2) * 65536 + u32::from(next)
}

/// The words of an instruction whose fields are within their bits; the second is 0 where it has one
/// word alone.
pub fn encode(i: &AvrInsn) -> [u16; 2]
    requires { FieldsFit i.now }
    ensures words { result ≡ avr_words i.now }

    // They are decoded as the instruction, whatever follows the word of an instruction of one word.
    ensures back { DecodesBack i.now }
{
    [first_word(i), second_word(i)]
}

/// How many words an instruction has.
pub fn size_of(i: &AvrInsn) -> u8
    ensures { result ≡ size_of i.now }
{
    match i {
        AvrInsn::Jmp { .. } | AvrInsn::Call { .. } | AvrInsn::Lds { .. } | AvrInsn::Sts { .. } => 2,
        _ => 1,
    }
}

fn second_word(i: &AvrInsn) -> u16
    ensures { result ≡ second_word i.now }
{
    match *i {
        AvrInsn::Jmp { place } | AvrInsn::Call { place } => (place % 65536) as u16,
        AvrInsn::Lds { address, .. } | AvrInsn::Sts { address, .. } => address,
        _ => 0,
    }
}

fn first_word(i: &AvrInsn) -> u16
    requires { FieldsFit i.now }
    ensures { result ≡ first_word i.now }
{
    match *i {
        AvrInsn::Add { d, r } => two_regs(0x0c00, d, r),
        AvrInsn::Adc { d, r } => two_regs(0x1c00, d, r),
        AvrInsn::Sub { d, r } => two_regs(0x1800, d, r),
        AvrInsn::Sbc { d, r } => two_regs(0x0800, d, r),
        AvrInsn::Cp { d, r } => two_regs(0x1400, d, r),
        AvrInsn::Cpc { d, r } => two_regs(0x0400, d, r),
        AvrInsn::And { d, r } => two_regs(0x2000, d, r),
        AvrInsn::Eor { d, r } => two_regs(0x2400, d, r),
        AvrInsn::Or { d, r } => two_regs(0x2800, d, r),
        AvrInsn::Mov { d, r } => two_regs(0x2c00, d, r),
        AvrInsn::Cpi { d, k } => with_constant(0x3000, d, k),
        AvrInsn::Ldi { d, k } => with_constant(0xe000, d, k),
        AvrInsn::Com { d } => 0x9400 + u16::from(d) * 16,
        AvrInsn::Inc { d } => 0x9403 + u16::from(d) * 16,
        AvrInsn::Lsr { d } => 0x9406 + u16::from(d) * 16,
        AvrInsn::Ror { d } => 0x9407 + u16::from(d) * 16,
        AvrInsn::Dec { d } => 0x940a + u16::from(d) * 16,
        AvrInsn::Brbs { s, k } => 0xf000 + (u16::from(k) * 8 + u16::from(s)),
        AvrInsn::Brbc { s, k } => 0xf400 + (u16::from(k) * 8 + u16::from(s)),
        AvrInsn::Bset { s } => 0x9408 + u16::from(s) * 16,
        AvrInsn::Bclr { s } => 0x9488 + u16::from(s) * 16,
        AvrInsn::Rjmp { k } => 0xc000 + k,
        AvrInsn::Rcall { k } => 0xd000 + k,
        AvrInsn::Jmp { place } => with_long_place(0x940c, place),
        AvrInsn::Call { place } => with_long_place(0x940e, place),
        AvrInsn::Ret => 0x9508,
        AvrInsn::In { d, a } => two_regs(0xb000, d, a),
        AvrInsn::Out { a, r } => two_regs(0xb800, r, a),
        AvrInsn::Cbi { a, b } => 0x9800 + (u16::from(a) * 8 + u16::from(b)),
        AvrInsn::Sbi { a, b } => 0x9a00 + (u16::from(a) * 8 + u16::from(b)),
        AvrInsn::Sbic { a, b } => 0x9900 + (u16::from(a) * 8 + u16::from(b)),
        AvrInsn::Sbis { a, b } => 0x9b00 + (u16::from(a) * 8 + u16::from(b)),
        AvrInsn::Sbrc { r, b } => 0xfc00 + (u16::from(r) * 16 + u16::from(b)),
        AvrInsn::Sbrs { r, b } => 0xfe00 + (u16::from(r) * 16 + u16::from(b)),
        AvrInsn::Lds { d, .. } => 0x9000 + u16::from(d) * 16,
        AvrInsn::Sts { r, .. } => 0x9200 + u16::from(r) * 16,
        AvrInsn::Ldd { d, q } => displaced(0x8008, d, q),
        AvrInsn::Std { q, r } => displaced(0x8208, r, q),
        AvrInsn::St { r } => 0x920d + u16::from(r) * 16,
        AvrInsn::Nop => 0x0000,
    }
}

/// A word with a register and another register or an I/O address.
fn two_regs(bits: u16, d: u8, r: u8) -> u16
    requires bits { bits < 48000 }
    requires d { d < 32 }
    requires r { r < 64 }
    ensures { result ≡ two_regs bits d r }
{
    bits + (u16::from(r / 16) * 512 + u16::from(d) * 16 + u16::from(r % 16))
}

fn with_constant(bits: u16, d: u8, k: u8) -> u16
    requires bits { bits < 60000 }
    requires low { 16 ≤ d }
    requires high { d < 32 }
    ensures { result ≡ with_constant bits d k }
{
    bits + (u16::from(k / 16) * 256 + u16::from(d - 16) * 16 + u16::from(k % 16))
}

fn with_long_place(bits: u16, place: u32) -> u16
    requires bits { bits < 40000 }
    requires place { place < 2 ^ 22 }
    ensures { result ≡ with_long_place bits place }
{
    bits + ((place / 131072 * 16 + place / 65536 % 2) as u16)
}

fn displaced(bits: u16, d: u8, q: u8) -> u16
    requires bits { bits < 40000 }
    requires d { d < 32 }
    requires q { q < 64 }
    ensures { result ≡ displaced bits d q }
{
    bits + (u16::from(q / 32) * 8192
        + u16::from(q / 8 % 4) * 1024
        + u16::from(d) * 16
        + u16::from(q % 8))
}
