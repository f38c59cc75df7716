//! Instructions with their fields, and their words.

ghost use Rattle.std.specs.Prelude.{◌≡◌, ◌+◌, ◌*◌, ◌/◌, ◌%◌, ◌<◌, false, IfSome};
ghost use Rattle.pic16_mach.specs.Groups.{is_of_file};
ghost use Rattle.pic16_mach.specs.Insn.{pic_decode, insn_of, FieldsFit, file_of, destination_of, bit_field};
ghost use Rattle.pic16_mach.specs.Words.{pic_word, file_word, destination_bit, DecodesBack};

use chip_tables::bit_of;
use insn_rows::{PicKind, pic_kind};

/// Where a result goes.
#[derive(Clone, Copy, Debug, PartialEq, Eq)]
pub enum Destination {
    W,
    /// The file register from which the operand came.
    File,
}

/// An instruction with its fields, which have the letters of the PIC16F87X Data Sheet: `f` is a file
/// register of the bank, below 128, `d` where the result goes, `b` a bit of a byte, and `k` a constant.
#[derive(Clone, Copy, Debug, PartialEq, Eq)]
pub enum PicInsn {
    /// Adds W.
    Addwf { f: u8, d: Destination },
    /// Takes the bits that W has too.
    Andwf { f: u8, d: Destination },
    /// Becomes 0.
    Clrf { f: u8 },
    /// W becomes 0.
    Clrw,
    /// Turns all bits round.
    Comf { f: u8, d: Destination },
    /// Subtracts 1.
    Decf { f: u8, d: Destination },
    /// Subtracts 1, and skips where that gives 0.
    Decfsz { f: u8, d: Destination },
    /// Adds 1.
    Incf { f: u8, d: Destination },
    /// Adds 1, and skips where that gives 0.
    Incfsz { f: u8, d: Destination },
    /// Takes the bits of W in.
    Iorwf { f: u8, d: Destination },
    /// Copies the register.
    Movf { f: u8, d: Destination },
    /// Takes W.
    Movwf { f: u8 },
    /// Does nothing.
    Nop,
    /// Rotates left through the carry.
    Rlf { f: u8, d: Destination },
    /// Rotates right through the carry.
    Rrf { f: u8, d: Destination },
    /// Subtracts W.
    Subwf { f: u8, d: Destination },
    /// Swaps the nibbles.
    Swapf { f: u8, d: Destination },
    /// Turns the bits round that W has.
    Xorwf { f: u8, d: Destination },
    /// Clears a bit.
    Bcf { f: u8, b: u8 },
    /// Sets a bit.
    Bsf { f: u8, b: u8 },
    /// Skips where a bit is clear.
    Btfsc { f: u8, b: u8 },
    /// Skips where a bit is set.
    Btfss { f: u8, b: u8 },
    /// W becomes W plus a constant.
    Addlw { k: u8 },
    /// W keeps the bits that a constant has.
    Andlw { k: u8 },
    /// W takes the bits of a constant in.
    Iorlw { k: u8 },
    /// W becomes a constant.
    Movlw { k: u8 },
    /// W becomes a constant minus W.
    Sublw { k: u8 },
    /// W turns the bits of a constant round.
    Xorlw { k: u8 },
    /// Calls; `k` has 11 bits.
    Call { k: u16 },
    /// Jumps; `k` has 11 bits.
    Goto { k: u16 },
    /// Returns with a constant in W.
    Retlw { k: u8 },
    /// Returns from a call.
    Return,
    /// Returns from an interrupt; it has no step here.
    Retfie,
    /// Clears the watchdog; it has no step here.
    Clrwdt,
    /// Halts until an interrupt; it has no step here.
    Sleep,
}

/// The instruction of a word of program flash; `None` where it is the word of none. The two bits above
/// the 14 of a word are ignored.
pub fn decode(word: u16) -> Option<PicInsn>
    ensures value { result ≡ pic_decode word }
    ensures fits { IfSome result FieldsFit }
{
    let kind = pic_kind(word)?;
    Some(with_fields(kind, word))
}

/// The instruction of a kind, with the fields that it has in its word.
fn with_fields(kind: PicKind, w: u16) -> PicInsn
    ensures value { result ≡ insn_of kind w }
    ensures fits { FieldsFit result }
{
    let f = file_of(w);
    let d = destination_of(w);
    match kind {
        PicKind::Addwf => PicInsn::Addwf { f, d },
        PicKind::Andwf => PicInsn::Andwf { f, d },
        PicKind::Clrf => PicInsn::Clrf { f },
        PicKind::Comf => PicInsn::Comf { f, d },
        PicKind::Decf => PicInsn::Decf { f, d },
        PicKind::Decfsz => PicInsn::Decfsz { f, d },
        PicKind::Incf => PicInsn::Incf { f, d },
        PicKind::Incfsz => PicInsn::Incfsz { f, d },
        PicKind::Iorwf => PicInsn::Iorwf { f, d },
        PicKind::Movf => PicInsn::Movf { f, d },
        PicKind::Movwf => PicInsn::Movwf { f },
        PicKind::Rlf => PicInsn::Rlf { f, d },
        PicKind::Rrf => PicInsn::Rrf { f, d },
        PicKind::Subwf => PicInsn::Subwf { f, d },
        PicKind::Swapf => PicInsn::Swapf { f, d },
        PicKind::Xorwf => PicInsn::Xorwf { f, d },
        _ => other_insn(kind, w),
    }
}

/// The same for a kind without a destination.
fn other_insn(kind: PicKind, w: u16) -> PicInsn
    requires { is_of_file kind ≡ false }
    ensures value { result ≡ insn_of kind w }
    ensures fits { FieldsFit result }
{
    let f = file_of(w);
    let b = bit_field(w);
    let k = (w % 256) as u8;
    let place = w % 2048;
    match kind {
        PicKind::Clrw => PicInsn::Clrw,
        PicKind::Nop => PicInsn::Nop,
        PicKind::Bcf => PicInsn::Bcf { f, b },
        PicKind::Bsf => PicInsn::Bsf { f, b },
        PicKind::Btfsc => PicInsn::Btfsc { f, b },
        PicKind::Btfss => PicInsn::Btfss { f, b },
        PicKind::Addlw => PicInsn::Addlw { k },
        PicKind::Andlw => PicInsn::Andlw { k },
        PicKind::Iorlw => PicInsn::Iorlw { k },
        PicKind::Movlw => PicInsn::Movlw { k },
        PicKind::Sublw => PicInsn::Sublw { k },
        PicKind::Xorlw => PicInsn::Xorlw { k },
        PicKind::Call => PicInsn::Call { k: place },
        PicKind::Goto => PicInsn::Goto { k: place },
        PicKind::Retlw => PicInsn::Retlw { k },
        PicKind::Return => PicInsn::Return,
        PicKind::Retfie => PicInsn::Retfie,
        PicKind::Clrwdt => PicInsn::Clrwdt,
        PicKind::Sleep => PicInsn::Sleep,
        _ => unreachable!(),
    }
}

fn file_of(w: u16) -> u8
    ensures { result ≡ file_of w }
{
    (w % 128) as u8
}

fn destination_of(w: u16) -> Destination
    ensures { result ≡ destination_of w }
{
    if w / 128 % 2 == 1 {
        Destination::File
    } else {
        Destination::W
    }
}

fn bit_field(w: u16) -> u8
    ensures { result ≡ bit_field w }
{
    (w / 128 % 8) as u8
}

/// The word of an instruction whose fields are within their bits.
pub fn encode(i: &PicInsn) -> u16
    requires { FieldsFit i.now }
    ensures word { result ≡ pic_word i.now }

    // It is decoded as the instruction.
    ensures back { DecodesBack i.now }
{
    word_of(i)
}

fn word_of(i: &PicInsn) -> u16
    requires { FieldsFit i.now }
    ensures { result ≡ pic_word i.now }
{
    match *i {
        PicInsn::Addwf { f, d } => file_word(0x0700, f, d),
        PicInsn::Andwf { f, d } => file_word(0x0500, f, d),
        PicInsn::Clrf { f } => 0x0180 + u16::from(f),
        PicInsn::Clrw => 0x0100,
        PicInsn::Comf { f, d } => file_word(0x0900, f, d),
        PicInsn::Decf { f, d } => file_word(0x0300, f, d),
        PicInsn::Decfsz { f, d } => file_word(0x0b00, f, d),
        PicInsn::Incf { f, d } => file_word(0x0a00, f, d),
        PicInsn::Incfsz { f, d } => file_word(0x0f00, f, d),
        PicInsn::Iorwf { f, d } => file_word(0x0400, f, d),
        PicInsn::Movf { f, d } => file_word(0x0800, f, d),
        PicInsn::Movwf { f } => 0x0080 + u16::from(f),
        PicInsn::Nop => 0x0000,
        PicInsn::Rlf { f, d } => file_word(0x0d00, f, d),
        PicInsn::Rrf { f, d } => file_word(0x0c00, f, d),
        PicInsn::Subwf { f, d } => file_word(0x0200, f, d),
        PicInsn::Swapf { f, d } => file_word(0x0e00, f, d),
        PicInsn::Xorwf { f, d } => file_word(0x0600, f, d),
        PicInsn::Bcf { f, b } => 0x1000 + (u16::from(b) * 128 + u16::from(f)),
        PicInsn::Bsf { f, b } => 0x1400 + (u16::from(b) * 128 + u16::from(f)),
        PicInsn::Btfsc { f, b } => 0x1800 + (u16::from(b) * 128 + u16::from(f)),
        PicInsn::Btfss { f, b } => 0x1c00 + (u16::from(b) * 128 + u16::from(f)),
        PicInsn::Addlw { k } => 0x3e00 + u16::from(k),
        PicInsn::Andlw { k } => 0x3900 + u16::from(k),
        PicInsn::Iorlw { k } => 0x3800 + u16::from(k),
        PicInsn::Movlw { k } => 0x3000 + u16::from(k),
        PicInsn::Sublw { k } => 0x3c00 + u16::from(k),
        PicInsn::Xorlw { k } => 0x3a00 + u16::from(k),
        PicInsn::Call { k } => 0x2000 + k,
        PicInsn::Goto { k } => 0x2800 + k,
        PicInsn::Retlw { k } => 0x3400 + u16::from(k),
        PicInsn::Return => 0x0008,
        PicInsn::Retfie => 0x0009,
        PicInsn::Clrwdt => 0x0064,
        PicInsn::Sleep => 0x0063,
    }
}

/// A word with a file register and a destination.
fn file_word(bits: u16, f: u8, d: Destination) -> u16
    requires bits { bits < 16384 }
    requires f { f < 128 }
    ensures { result ≡ file_word bits f d }
{
    bits + (destination_bit(d) * 128 + u16::from(f))
}

fn destination_bit(d: Destination) -> u16
    ensures value { result ≡ destination_bit d }
    ensures below { result < 2 }
{
    match d {
        Destination::W => 0,
        Destination::File => 1,
    }
}
