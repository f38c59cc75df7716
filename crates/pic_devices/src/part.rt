//! The two parts, and where each has RAM.

ghost use Rattle.std.specs.Prelude.{◌≡◌, ◌<◌};
ghost use Rattle.std.specs.List.{list_any};
ghost use Rattle.chip_tables.specs.Memory.{holds, ram_ranges};
ghost use Rattle.pic_devices.specs.declared.part.TheConstants.{FILE_SIZE};
ghost use Rattle.pic_devices.specs.Part.{target_of, flash_words, eeprom_bytes, is_ram, cell_of};

use chip_tables::Target;
use chip_tables::pic16::SCRATCH_FIRST;

/// How many addresses a bank of the file has.
pub(crate) const BANK_SIZE: u16 = 128;

/// How many addresses the file has, in four banks.
pub const FILE_SIZE: usize = 512;

/// A PIC that the written machine can be.
#[derive(Clone, Copy, Debug, PartialEq, Eq)]
pub enum PicPart {
    F628,
    F877,
}

impl PicPart {
    /// The part as a target of the compiler.
    pub fn target(self) -> Target
        ensures { result ≡ target_of self }
    {
        match self {
            PicPart::F628 => Target::F628,
            PicPart::F877 => Target::F877,
        }
    }

    /// The words of program flash.
    pub fn flash_words(self) -> u32
        ensures value { result ≡ flash_words self }
        ensures within { result < 8193 }
    {
        match self {
            PicPart::F628 => 2048,
            PicPart::F877 => 8192,
        }
    }

    pub(crate) fn eeprom_bytes(self) -> u16
        ensures { result ≡ eeprom_bytes self }
    {
        match self {
            PicPart::F628 => 128,
            PicPart::F877 => 256,
        }
    }

    /// Whether an address of the file is one of a byte of RAM.
    pub(crate) fn is_ram(self, address: u16) -> bool
        ensures { result ≡ is_ram self address }
    {
        SCRATCH_FIRST <= address % BANK_SIZE || self.has_variable_at(address)
    }

    fn has_variable_at(self, address: u16) -> bool
        ensures { result ≡ list_any (holds address) (ram_ranges (target_of self)) }
    {
        match self {
            PicPart::F628 => {
                is_within(address, 0x20, 0x6f)
                    || (is_within(address, 0xa0, 0xef) || is_within(address, 0x120, 0x14f))
            }
            PicPart::F877 => {
                is_within(address, 0x20, 0x6f)
                    || (is_within(address, 0xa0, 0xef)
                        || (is_within(address, 0x110, 0x16f) || is_within(address, 0x190, 0x1ef)))
            }
        }
    }
}

fn is_within(address: u16, first: u16, last: u16) -> bool
    ensures { result ≡ holds address (record { first = first; last = last }) }
{
    first <= address && address <= last
}

/// The number of the byte of RAM that an address shows: the last sixteen of each bank are those of bank 0.
pub(crate) fn cell_of(address: u16) -> u16
    requires { address < FILE_SIZE }
    ensures value { result ≡ cell_of address }
    ensures within { result < FILE_SIZE }
{
    if SCRATCH_FIRST <= address % BANK_SIZE {
        address % BANK_SIZE
    } else {
        address
    }
}
