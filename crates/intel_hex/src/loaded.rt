//! What the lines of a file give.

ghost use Rattle.std.specs.Prelude.{◌≡◌, ◌↔◌, ◌≤◌, ◌<◌, ◌+◌, ◌*◌, ◌^◌, ℕ, [], ◌∷◌, List, length, is_some, not, slice_index, IfOk, IsNone, Some, None};
ghost use Rattle.std.specs.List.{range_with_len, list_any};
ghost use Rattle.intel_hex.specs.declared.said.Said.{Said};
ghost use Rattle.intel_hex.specs.Areas.{is_in_area, flash_of};
ghost use Rattle.intel_hex.specs.Given.{addresses, byte_of, data_fault, end_fault, fault_of, or_else};
ghost use Rattle.intel_hex.specs.Said.{said_of};
ghost use Rattle.intel_hex.specs.Loaded.{Holds, held, memory_size};

use crate::fault::HexCause;
use crate::said::{Said, read_line};
use crate::write::is_pic;
use chip_tables::{Target, eeprom_have, flash_words};
use std::alloc::{AllocError, Global};

/// No chip has a byte at this address or past it.
const MEMORY_SIZE: usize = 0x4400;

/// What the lines so far gave.
#[derive(Drop)]
pub struct Loaded {
    /// The byte of each address, if it was given.
    bytes: Vec<Option<u8>>,
    /// The upper half of the addresses.
    upper: u16,
    pub is_ended: bool,
}

impl Loaded {
    /// Nothing is given in front of the first line.
    pub fn new(alloc: Global) -> Result<Loaded, AllocError>
        ensures { IfOk result (Holds []) }
    {
        let mut bytes = Vec::with_capacity(alloc, MEMORY_SIZE)?;
        for _ in 0..MEMORY_SIZE {
            bytes.push(None)?;
        }
        Ok(Loaded {
            bytes,
            upper: 0,
            is_ended: false,
        })
    }

    /// Adds what a line gives, or answers its fault.
    pub fn read(
        &mut self,
        alloc: Global,
        target: Target,
        line: &[u8],
    ) -> Result<Option<HexCause>, AllocError>
        requires { length self.old.bytes.items ≡ memory_size }
        ensures { (before : List Said) → Holds before self.old → IfOk result (λ fault. (fault ≡ fault_of target before (said_of line.now)) × (IsNone fault → Holds (said_of line.now ∷ before) self.new)) }
    {
        let said = read_line(alloc, line)?;
        Ok(self.take(target, &said))
    }

    /// Adds what a line says, or answers its fault.
    fn take(&mut self, target: Target, said: &Said) -> Option<HexCause>
        requires { length self.old.bytes.items ≡ memory_size }
        ensures { (before : List Said) → Holds before self.old → (result ≡ fault_of target before said.now) × (IsNone result → Holds (said.now ∷ before) self.new) }
    {
        if self.is_ended {
            return behind_end(said);
        }
        match said {
            Said::Nothing => None,
            Said::Data { address, bytes } => self.put(target, *address, bytes.as_slice()),
            Said::End => {
                self.is_ended = true;
                None
            }
            Said::Upper(bits) => {
                self.upper = *bits;
                None
            }
            Said::Broken(cause) => Some(*cause),
        }
    }

    /// Adds data, or answers their fault.
    fn put(&mut self, target: Target, address: u16, bytes: &[u8]) -> Option<HexCause>
        requires { length self.old.bytes.items ≡ memory_size }
        ensures fault { result ≡ data_fault target (held self.old.bytes.items) (65536 * self.old.upper + address) bytes.now }
        ensures size { length self.new.bytes.items ≡ memory_size }
        ensures bytes { IsNone result → (a : ℕ) → held self.new.bytes.items a ≡ or_else (byte_of (65536 * self.old.upper + address) bytes.now a) (held self.old.bytes.items a) }
        ensures upper { self.new.upper ≡ self.old.upper }
        ensures is_ended { self.new.is_ended ≡ self.old.is_ended }
    {
        let first = 65_536 * usize::from(self.upper) + usize::from(address);
        if is_outside(target, first, bytes.len()) {
            return Some(HexCause::Outside);
        }
        if is_given(self.bytes.as_slice(), first, bytes.len()) {
            return Some(HexCause::Overlap);
        }
        write(self.bytes.as_mut_slice(), first, bytes);
        None
    }

    /// The byte of each address, if it was given.
    pub fn bytes(&self) -> &[Option<u8>]
        ensures { result.now ≡ self.now.bytes.items }
    {
        self.bytes.as_slice()
    }
}

/// The fault of a line behind the end record.
fn behind_end(said: &Said) -> Option<HexCause>
    ensures { result ≡ end_fault said.now }
{
    match said {
        Said::Nothing => None,
        Said::Data { .. } | Said::End | Said::Upper(_) | Said::Broken(_) => {
            Some(HexCause::BadRecord)
        }
    }
}

/// Whether one of so many addresses from the first on is in no area of the target.
fn is_outside(target: Target, first: usize, count: usize) -> bool
    requires { first + count < 2 ^ 64 }
    ensures { result ≡ list_any (λ a. not (is_in_area target a)) (range_with_len first count) }
{
    for address in first..first + count {
        if !is_in_area(target, address) {
            return true;
        }
    }
    false
}

/// Whether the target's file may hold a byte at the address.
fn is_in_area(target: Target, address: usize) -> bool
    ensures { result ≡ is_in_area target address }
{
    address < program_bytes(target)
        || is_pic(target)
            && (matches!(address, 0x4000..=0x400f)
                || address >= 0x4200 && address < 0x4200 + 2 * eeprom_have(target) as usize)
}

/// How many bytes of program a target has; none where it is no chip.
pub fn program_bytes(target: Target) -> usize
    ensures { result ≡ 2 * flash_of target }
{
    2 * flash_words(target).unwrap_or(0) as usize
}

/// Whether one of so many addresses from the first on has a byte.
fn is_given(bytes: &[Option<u8>], first: usize, count: usize) -> bool
    requires within { (k : ℕ) → k < count → first + k < length bytes.now }
    requires fits { first + count < 2 ^ 64 }
    ensures { result ≡ list_any (λ a. is_some (held bytes.now a)) (range_with_len first count) }
{
    for address in first..first + count {
        if bytes[address].is_some() {
            return true;
        }
    }
    false
}

/// Gives bytes to the addresses from the first on.
fn write(bytes: &mut [Option<u8>], first: usize, new: &[u8])
    requires { (k : ℕ) → k < length new.now → first + k < length bytes.old }
    ensures { (a : ℕ) → held bytes.new a ≡ or_else (byte_of first new.now a) (held bytes.old a) }
{
    for (place, byte) in new.iter().enumerate() {
        bytes[first + place] = Some(*byte);
    }
}
