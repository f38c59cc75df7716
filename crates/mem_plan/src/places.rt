//! The places of variables and kept bits.

ghost use Rattle.std.specs.Prelude.{◌≡◌, ◌+◌, ◌<◌, ◌≤◌, Some};
ghost use Rattle.chip_tables.specs.Memory.{ram_size, eeprom_size, ram_address};
ghost use Rattle.mem_plan.specs.Needs.{ram_need, eeprom_need};
ghost use Rattle.mem_plan.specs.Places.{IsChip, low_byte, high_byte, byte_of_bit, bit_in_byte};

use crate::sizes::Sizes;
use chip_tables::{Target, ram_byte};

/// Where each variable and each kept bit of a program stands on a target that has room for them.
#[derive(Clone, Copy, Debug, PartialEq, Eq)]
pub struct Plan {
    pub(crate) target: Target,
    pub(crate) sizes: Sizes,
    pub ghost ram_fits: { ram_need sizes ≤ ram_size target },
    pub ghost eeprom_fits: { eeprom_need sizes ≤ eeprom_size target },
}

/// A bit of data memory, and not of a port: the address of its byte, which has 16 bits, and which bit of that it is, 0 the lowest and 7 the
/// highest.
#[derive(Clone, Copy, Debug, PartialEq, Eq)]
pub struct PortBit16 {
    pub address: u16,
    pub bit: u8,
}

impl Plan {
    /// The target whose memory it is.
    pub fn target(&self) -> Target
        ensures { result ≡ self.now.target }
    {
        self.target
    }

    /// How much is kept.
    pub fn sizes(&self) -> Sizes
        ensures { result ≡ self.now.sizes }
    {
        self.sizes
    }

    /// The address of a byte of those that the variables and bits take.
    fn byte(&self, index: u32) -> u16
        requires chip { IsChip self.now.target }
        requires within { index < ram_need self.now.sizes }
        ensures { ram_address self.now.target index ≡ Some result }
    {
        ram_byte(self.target, index).unwrap()
    }

    /// The address of a variable's low byte on a chip. The high byte stands at the address above it.
    pub fn cell_of(&self, variable: u32) -> u16
        requires chip { IsChip self.now.target }
        requires within { variable < self.now.sizes.variables }
        ensures low { low_byte self.now.target variable ≡ Some result }
        ensures high { high_byte self.now.target variable ≡ Some (result + 1) }
    {
        self.byte(2 * variable)
    }

    /// The place of a kept bit on a chip.
    pub fn bit_of(&self, bit: u32) -> PortBit16
        requires chip { IsChip self.now.target }
        requires within { bit < self.now.sizes.kept_bits }
        ensures byte { byte_of_bit self.now.target self.now.sizes.variables bit ≡ Some result.address }
        ensures bit { result.bit ≡ bit_in_byte bit }
    {
        PortBit16 {
            address: self.byte(2 * self.sizes.variables + bit / 8),
            bit: (bit % 8) as u8,
        }
    }
}
