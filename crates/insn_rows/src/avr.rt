//! The AVR's table of instructions.

ghost use Rattle.std.specs.Prelude.{◌≡◌, AllPairs, position, slice_get, option_and_then};
ghost use Rattle.insn_rows.specs.Rows.{is_match, Apart};
ghost use Rattle.insn_rows.specs.Avr.{avr_rows, avr_kind_of};

use crate::rows::{InsnRow, find_row};

/// The instructions of the table, by their names in the AVR Instruction Set Manual.
#[derive(Clone, Copy, Debug, PartialEq, Eq)]
pub enum AvrKind {
    /// ADD: add.
    Add,
    /// ADC: add with carry.
    Adc,
    /// SUB: subtract.
    Sub,
    /// SBC: subtract with carry.
    Sbc,
    /// CP: compare.
    Cp,
    /// CPC: compare with carry.
    Cpc,
    /// AND.
    And,
    /// EOR: exclusive or.
    Eor,
    /// OR.
    Or,
    /// MOV: copy a register.
    Mov,
    /// CPI: compare with a constant.
    Cpi,
    /// LDI: load a constant.
    Ldi,
    /// COM: complement.
    Com,
    /// INC: increment.
    Inc,
    /// LSR: shift right.
    Lsr,
    /// ROR: rotate right through carry.
    Ror,
    /// DEC: decrement.
    Dec,
    /// BRBS: branch where a status bit is set.
    Brbs,
    /// BRBC: branch where a status bit is clear.
    Brbc,
    /// BSET: set a status bit.
    Bset,
    /// BCLR: clear a status bit.
    Bclr,
    /// RJMP: relative jump.
    Rjmp,
    /// RCALL: relative call.
    Rcall,
    /// JMP: jump, of two words.
    Jmp,
    /// CALL: call, of two words.
    Call,
    /// RET: return.
    Ret,
    /// IN: read an I/O register.
    In,
    /// OUT: write an I/O register.
    Out,
    /// CBI: clear a bit of an I/O register.
    Cbi,
    /// SBI: set a bit of an I/O register.
    Sbi,
    /// SBIC: skip where a bit of an I/O register is clear.
    Sbic,
    /// SBIS: skip where a bit of an I/O register is set.
    Sbis,
    /// SBRC: skip where a bit of a register is clear.
    Sbrc,
    /// SBRS: skip where a bit of a register is set.
    Sbrs,
    /// LDS: load from data memory, of two words.
    Lds,
    /// STS: store to data memory, of two words.
    Sts,
    /// LDD Y+q: load at a displacement from Y.
    Ldd,
    /// STD Y+q: store at a displacement from Y.
    Std,
    /// ST X+: store at X and increment X.
    St,
    /// NOP: no operation.
    Nop,
}

// The rows of a table and the instruction of each, from lines of an instruction, a mask and bits.
macro_rules! insn_table {
    ($kinds:ident; $($kind:ident $mask:literal $bits:literal,)*) => {
        (
            [$(InsnRow { mask: $mask, bits: $bits, kind: $kinds::$kind as u8 }),*],
            [$($kinds::$kind),*],
        )
    };
}

/// The instruction of a word of program flash, by its row in the AVR's table; `None` where the word
/// is none of these instructions. Of an instruction of two words it takes the first.
pub fn avr_kind(word: u16) -> Option<AvrKind>
    ensures value { result ≡ avr_kind_of word }

    // No word matches two rows of the table.
    ensures apart { AllPairs Apart avr_rows }
{
    let (rows, kinds) = insn_table! {
        AvrKind;
        Add 0xfc00 0x0c00,
        Adc 0xfc00 0x1c00,
        Sub 0xfc00 0x1800,
        Sbc 0xfc00 0x0800,
        Cp 0xfc00 0x1400,
        Cpc 0xfc00 0x0400,
        And 0xfc00 0x2000,
        Eor 0xfc00 0x2400,
        Or 0xfc00 0x2800,
        Mov 0xfc00 0x2c00,
        Cpi 0xf000 0x3000,
        Ldi 0xf000 0xe000,
        Com 0xfe0f 0x9400,
        Inc 0xfe0f 0x9403,
        Lsr 0xfe0f 0x9406,
        Ror 0xfe0f 0x9407,
        Dec 0xfe0f 0x940a,
        Brbs 0xfc00 0xf000,
        Brbc 0xfc00 0xf400,
        Bset 0xff8f 0x9408,
        Bclr 0xff8f 0x9488,
        Rjmp 0xf000 0xc000,
        Rcall 0xf000 0xd000,
        Jmp 0xfe0e 0x940c,
        Call 0xfe0e 0x940e,
        Ret 0xffff 0x9508,
        In 0xf800 0xb000,
        Out 0xf800 0xb800,
        Cbi 0xff00 0x9800,
        Sbi 0xff00 0x9a00,
        Sbic 0xff00 0x9900,
        Sbis 0xff00 0x9b00,
        Sbrc 0xfe08 0xfc00,
        Sbrs 0xfe08 0xfe00,
        Lds 0xfe0f 0x9000,
        Sts 0xfe0f 0x9200,
        Ldd 0xd208 0x8008,
        Std 0xd208 0x8208,
        St 0xfe0f 0x920d,
        Nop 0xffff 0x0000,
    };
    kind_of(&rows, &kinds, word)
}

/// The instruction of the first row that the word matches.
fn kind_of<const N: usize>(rows: &[InsnRow; N], kinds: &[AvrKind; N], word: u16) -> Option<AvrKind>
    ensures { result ≡ option_and_then (slice_get kinds.now) (position (is_match word) rows.now) }
{
    match find_row(rows, word) {
        Some(place) => Some(kinds[place]),
        None => None,
    }
}
