//! The memories of each target.

ghost use Rattle.std.specs.Prelude.{ℕ, ◌≡◌, ◌<◌, ◌↔◌, Some, None, IsSome, IfSome, sum_by};
ghost use Rattle.chip_tables.specs.Memory.{ram_size, eeprom_size, flash_size, ram_ranges, ram_address, IsRam, byte_at, size};

use crate::mega16::{EEPROM_BYTES, FLASH_WORDS, SCRATCH_FIRST, SRAM_FIRST};
use crate::target::Target;

/// The words of the largest program flash of a chip, that of the PIC16F877 and of the ATmega16.
pub const FLASH_MOST: u32 = 8192;

/// The bytes of the largest EEPROM of a chip, that of the ATmega16.
pub const EEPROM_MOST: usize = 512;

/// How many addresses the largest data memory of a chip has, that of the ATmega16: 0 to 45Fh.
pub const DATA_ADDRESSES: usize = 0x460;

/// Addresses of data memory that follow one another, both ends among them.
#[derive(Clone, Copy)]
struct Range {
    first: u16,
    last: u16,
}

/// The bytes of RAM that hold variables and bits. The other bytes of a chip's RAM are its
/// compiler's scratch cells and stack; a target that is no chip has a limit of 8192.
pub fn ram_have(target: Target) -> u32
    ensures { result ≡ ram_size target }
{
    match target {
        Target::F628 => 208,
        Target::F877 => 352,
        Target::Mega16 => 960,
        Target::Interp | Target::AnsiC => 8192,
    }
}

/// The address in data memory of byte `index` of the bytes that hold variables and bits: the
/// ranges of the chip one after the other. On a PIC the two high bits of the address are the bank.
pub fn ram_byte(target: Target, index: u32) -> Option<u16>
    ensures value { result ≡ ram_address target index }
    ensures within { IsSome result ↔ (index < sum_by size (ram_ranges target)) }
    ensures in_ram { IfSome result (IsRam target) }

    // No other byte stands at the same address.
    ensures alone { IfSome result (λ address. (other : ℕ) → ram_address target other ≡ Some address → other ≡ index) }
{
    address_of(target, index)
}

fn address_of(target: Target, index: u32) -> Option<u16>
    ensures value { result ≡ ram_address target index }
    ensures within { IsSome result ↔ (index < sum_by size (ram_ranges target)) }
{
    match target {
        Target::F628 => byte_in(&F628_RAM, index),
        Target::F877 => byte_in(&F877_RAM, index),
        Target::Mega16 => byte_in(&MEGA16_RAM, index),
        Target::Interp | Target::AnsiC => None,
    }
}

// A table of ranges, each as its first address and its last.
macro_rules! ranges {
    ($($first:literal $last:literal,)*) => {
        [$(Range { first: $first, last: $last }),*]
    };
}

const F628_RAM: [Range; 3] = ranges! {
    0x20 0x6f,
    0xa0 0xef,
    0x120 0x14f,
};

const F877_RAM: [Range; 4] = ranges! {
    0x20 0x6f,
    0xa0 0xef,
    0x110 0x16f,
    0x190 0x1ef,
};

const MEGA16_RAM: [Range; 1] = [Range {
    first: SRAM_FIRST,
    last: SCRATCH_FIRST - 1,
}];

/// The address of byte `index` of the ranges one after the other.
fn byte_in<const N: usize>(ranges: &[Range; N], index: u32) -> Option<u16>
    ensures { result ≡ byte_at ranges.now index }
{
    let mut left = index;
    for range in ranges {
        let size = (u32::from(range.last) + 1).saturating_sub(u32::from(range.first));
        if left < size {
            return Some(range.first + left as u16);
        }
        left -= size;
    }
    None
}

/// The bytes of EEPROM.
pub fn eeprom_have(target: Target) -> u32
    ensures { result ≡ eeprom_size target }
{
    match target {
        Target::F628 => 128,
        Target::F877 => 256,
        Target::Mega16 => EEPROM_BYTES as u32,
        Target::Interp | Target::AnsiC => EEPROM_MOST as u32,
    }
}

/// The words of program flash of a chip: 14 bits each on a PIC, 16 bits on the AVR.
pub fn flash_words(target: Target) -> Option<u32>
    ensures { result ≡ flash_size target }
{
    match target {
        Target::F628 => Some(2048),
        Target::F877 => Some(8192),
        Target::Mega16 => Some(FLASH_WORDS),
        Target::Interp | Target::AnsiC => None,
    }
}
