//! The table of instructions of the mid-range PIC.

ghost use Rattle.std.specs.Prelude.{◌≡◌, AllPairs, position, slice_get, option_and_then};
ghost use Rattle.insn_rows.specs.Rows.{is_match, Apart};
ghost use Rattle.insn_rows.specs.Pic.{pic_rows, pic_kind_of};

use crate::rows::{InsnRow, find_row};

/// The instructions of the table, by their names in the PIC16F87X Data Sheet, "Instruction Set Summary".
#[derive(Clone, Copy, Debug, PartialEq, Eq)]
pub enum PicKind {
    /// ADDWF: add W and a file register.
    Addwf,
    /// ANDWF: and W with a file register.
    Andwf,
    /// CLRF: clear a file register.
    Clrf,
    /// CLRW: clear W.
    Clrw,
    /// COMF: complement a file register.
    Comf,
    /// DECF: decrement a file register.
    Decf,
    /// DECFSZ: decrement a file register, skip where it becomes 0.
    Decfsz,
    /// INCF: increment a file register.
    Incf,
    /// INCFSZ: increment a file register, skip where it becomes 0.
    Incfsz,
    /// IORWF: or W with a file register.
    Iorwf,
    /// MOVF: copy a file register.
    Movf,
    /// MOVWF: copy W to a file register.
    Movwf,
    /// NOP: no operation.
    Nop,
    /// RLF: rotate a file register left through carry.
    Rlf,
    /// RRF: rotate a file register right through carry.
    Rrf,
    /// SUBWF: subtract W from a file register.
    Subwf,
    /// SWAPF: swap the nibbles of a file register.
    Swapf,
    /// XORWF: exclusive or of W with a file register.
    Xorwf,
    /// BCF: clear a bit of a file register.
    Bcf,
    /// BSF: set a bit of a file register.
    Bsf,
    /// BTFSC: skip where a bit of a file register is clear.
    Btfsc,
    /// BTFSS: skip where a bit of a file register is set.
    Btfss,
    /// ADDLW: add a constant to W.
    Addlw,
    /// ANDLW: and W with a constant.
    Andlw,
    /// IORLW: or W with a constant.
    Iorlw,
    /// MOVLW: load W with a constant.
    Movlw,
    /// SUBLW: subtract W from a constant.
    Sublw,
    /// XORLW: exclusive or of W with a constant.
    Xorlw,
    /// CALL: call.
    Call,
    /// GOTO: jump.
    Goto,
    /// RETLW: return with a constant in W.
    Retlw,
    /// RETURN: return.
    Return,
    /// RETFIE: return from an interrupt.
    Retfie,
    /// CLRWDT: clear the watchdog.
    Clrwdt,
    /// SLEEP: halt until an interrupt.
    Sleep,
}

// The rows of the table and the instruction of each, from lines of an instruction, a mask and bits.
macro_rules! pic_table {
    ($($kind:ident $mask:literal $bits:literal,)*) => {
        (
            [$(InsnRow { mask: $mask, bits: $bits, kind: PicKind::$kind as u8 }),*],
            [$(PicKind::$kind),*],
        )
    };
}

/// The instruction of a word of program flash, by its row in the table of the mid-range PIC; `None` where
/// the word is none of these instructions. A word has 14 bits; those above are ignored.
pub fn pic_kind(word: u16) -> Option<PicKind>
    ensures value { result ≡ pic_kind_of word }

    // No word matches two rows of the table.
    ensures apart { AllPairs Apart pic_rows }
{
    let (rows, kinds) = pic_table! {
        Addwf 0x3f00 0x0700,
        Andwf 0x3f00 0x0500,
        Clrf 0x3f80 0x0180,
        Clrw 0x3f80 0x0100,
        Comf 0x3f00 0x0900,
        Decf 0x3f00 0x0300,
        Decfsz 0x3f00 0x0b00,
        Incf 0x3f00 0x0a00,
        Incfsz 0x3f00 0x0f00,
        Iorwf 0x3f00 0x0400,
        Movf 0x3f00 0x0800,
        Movwf 0x3f80 0x0080,
        Nop 0x3f9f 0x0000,
        Rlf 0x3f00 0x0d00,
        Rrf 0x3f00 0x0c00,
        Subwf 0x3f00 0x0200,
        Swapf 0x3f00 0x0e00,
        Xorwf 0x3f00 0x0600,
        Bcf 0x3c00 0x1000,
        Bsf 0x3c00 0x1400,
        Btfsc 0x3c00 0x1800,
        Btfss 0x3c00 0x1c00,
        Addlw 0x3e00 0x3e00,
        Andlw 0x3f00 0x3900,
        Iorlw 0x3f00 0x3800,
        Movlw 0x3c00 0x3000,
        Sublw 0x3e00 0x3c00,
        Xorlw 0x3f00 0x3a00,
        Call 0x3800 0x2000,
        Goto 0x3800 0x2800,
        Retlw 0x3c00 0x3400,
        Return 0x3fff 0x0008,
        Retfie 0x3fff 0x0009,
        Clrwdt 0x3fff 0x0064,
        Sleep 0x3fff 0x0063,
    };
    pic_kind_in(&rows, &kinds, word)
}

/// The instruction of the first row that the word matches.
fn pic_kind_in<const N: usize>(
    rows: &[InsnRow; N],
    kinds: &[PicKind; N],
    word: u16,
) -> Option<PicKind>
    ensures { result ≡ option_and_then (slice_get kinds.now) (position (is_match word) rows.now) }
{
    match find_row(rows, word) {
        Some(place) => Some(kinds[place]),
        None => None,
    }
}
