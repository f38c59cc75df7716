//! The cells of a chip that are left to the compiler.

ghost use Rattle.std.specs.Prelude.{◌≡◌, ◌<◌, IfSome};
ghost use Rattle.chip_tables.specs.Scratch.{at_bit, pic_scratch, avr_scratch, scratch_of, avr_wire, pic_wire, wire_of};

use crate::pic16::SCRATCH_FIRST;
use crate::target::Target;

/// How many wires there is room for: the bits of a program that last no longer than a cycle.
pub const WIRES: u32 = 48;

/// A bit of a cell of data memory.
#[derive(Clone, Copy, Debug, PartialEq, Eq)]
pub struct CellBit {
    pub address: u16,
    /// 0 to 7.
    pub bit: u8,
}

/// What the compiler keeps in its own cells, each by its address in data memory. A word has its low byte first.
#[derive(Clone, Copy, Debug, PartialEq, Eq)]
pub struct Scratch {
    /// The word on the left of a product or a quotient, and the quotient.
    pub left: u16,
    /// The word on the right of it.
    pub right: u16,
    /// The product and the rest; a word on its way from or to the EEPROM; the index of a table.
    pub outcome: u16,
    /// How often a loop is gone through yet.
    pub count: u16,
    /// The sign of a quotient.
    pub sign: u16,
    /// Whether the EEPROM is busy, by the last look.
    pub answer: CellBit,
    /// The low byte of the address of a byte that waits for the EEPROM; 0 where none waits.
    pub pending_low: u16,
    /// The high byte of it, where the chip's EEPROM has more than 256 bytes.
    pub pending_high: Option<u16>,
    /// The byte that waits.
    pub pending_byte: u16,
}

/// The compiler's own cells; none where the target is no chip.
pub fn scratch_cells(target: Target) -> Option<Scratch>
    ensures { result ≡ scratch_of target }
{
    match target {
        Target::F628 | Target::F877 => Some(pic_scratch()),
        Target::Mega16 => Some(avr_scratch()),
        Target::Interp | Target::AnsiC => None,
    }
}

fn pic_scratch() -> Scratch
    ensures { result ≡ pic_scratch }
{
    Scratch {
        left: 0x76,
        right: 0x78,
        outcome: 0x7a,
        count: 0x7c,
        sign: 0x7d,
        answer: CellBit {
            address: 0x7d,
            bit: 0,
        },
        pending_low: 0x7e,
        pending_high: None,
        pending_byte: 0x7f,
    }
}

fn avr_scratch() -> Scratch
    ensures { result ≡ avr_scratch }
{
    Scratch {
        left: 24,
        right: 22,
        outcome: 30,
        count: 21,
        sign: 0,
        answer: CellBit {
            address: 14,
            bit: 7,
        },
        pending_low: 15,
        pending_high: Some(26),
        pending_byte: 27,
    }
}

/// Where a wire is; none past the last, or where the target is no chip.
pub fn wire(target: Target, index: u32) -> Option<CellBit>
    ensures { result ≡ wire_of target index }
{
    if index >= WIRES {
        return None;
    }
    match target {
        Target::F628 | Target::F877 => Some(pic_wire(index)),
        Target::Mega16 => Some(avr_wire(index)),
        Target::Interp | Target::AnsiC => None,
    }
}

fn pic_wire(index: u32) -> CellBit
    requires { index < WIRES }
    ensures { result ≡ pic_wire index }
{
    CellBit {
        address: SCRATCH_FIRST + (index / 8) as u16,
        bit: (index % 8) as u8,
    }
}

fn avr_wire(index: u32) -> CellBit
    requires { index < WIRES }
    ensures { result ≡ avr_wire index }
{
    if index == 0 {
        CellBit {
            address: 20,
            bit: 0,
        }
    } else if index < 9 {
        CellBit {
            address: (index + 1) as u16,
            bit: 0,
        }
    } else {
        CellBit {
            address: 10 + ((index - 9) / 8) as u16,
            bit: ((index - 9) % 8) as u8,
        }
    }
}
