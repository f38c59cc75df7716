//! What the primitives do to the cells and the devices.

ghost use Rattle.std.specs.Prelude.{◌≡◌, ◌-◌, ◌+◌, ◌*◌, ◌/◌, ◌%◌, ◌<◌, None, Some, slice_index, slice_index_or, unwrap_or, false, true};
ghost use Rattle.byte_code.specs.Store.{cell, with_cell, word_at, with_word, lifted, high_from, with_high};
ghost use Rattle.byte_code.specs.Table.{plain, flagged, value_of, cell_cleared, cleared, none_waits, if_set, multiplied, divided, ee_address, written, waiting, flushed, sent_on};
ghost use Rattle.chip_tables.specs.Memory.{ram_address};
ghost use Rattle.chip_tables.specs.declared.memory.TheConstants.{EEPROM_MOST};

use crate::prim::FlagKind;
use crate::store::{Flag, Store};
use chip_tables::{EEPROM_MOST, bit_of, ram_byte};

impl Store {
    pub(crate) fn clear_flag(&mut self)
        ensures { self.new ≡ plain self.old }
    {
        self.flag = None;
    }

    pub(crate) fn put_flag(&mut self, kind: FlagKind, value: bool)
        ensures { self.new ≡ flagged self.old kind value }
    {
        self.flag = Some(Flag { kind, value });
    }

    pub(crate) fn flag_value(&self) -> bool
        ensures { result ≡ value_of self.now.flag }
    {
        match self.flag {
            Some(flag) => flag.value,
            None => false,
        }
    }

    /// The first so many cells of the chip's list become 0.
    #[tactic(auto, using(crate::proofs::LoopLemmas::cleared_more))]
    pub(crate) fn clear_cells(&mut self, cells: u16)
        ensures { self.new ≡ cleared cells self.old }
    {
        for k in 0..cells {
            self.clear_cell(k);
        }
    }

    fn clear_cell(&mut self, k: u16)
        ensures { self.new ≡ cell_cleared (ram_address self.old.target k) self.old }
    {
        if let Some(address) = ram_byte(self.target, u32::from(k)) {
            self.put_cell(usize::from(address), 0);
        }
    }

    pub(crate) fn none_waits(&mut self)
        ensures { self.new ≡ none_waits self.old }
    {
        self.put_cell(usize::from(self.scratch.pending_low), 0);
    }

    pub(crate) fn multiply(&mut self)
        ensures { self.new ≡ multiplied self.old }
    {
        let scratch = self.scratch;
        let left = self.word(scratch.left);
        let low = self.cell(usize::from(scratch.right));
        let high = self.high_byte(scratch.right);
        let outcome = self
            .word(scratch.outcome)
            .wrapping_add(if_set(bit_of(low, 0), left))
            .wrapping_add(if_set(bit_of(high, 0), left.wrapping_mul(256)));
        self.put_word(scratch.outcome, outcome);
        self.put_word(
            scratch.right,
            u16::from(low / 2) + u16::from(high / 2) * 256,
        );
        self.put_word(scratch.left, left.wrapping_mul(2));
    }

    pub(crate) fn divide(&mut self)
        ensures { self.new ≡ divided self.old }
    {
        let scratch = self.scratch;
        let left = self.word(scratch.left);
        let right = self.word(scratch.right);
        let rest = self
            .word(scratch.outcome)
            .wrapping_mul(2)
            .wrapping_add(left / 32768);
        let doubled = left.wrapping_mul(2);
        if right <= rest {
            self.put_word(scratch.outcome, rest - right);
            self.put_word(scratch.left, doubled + 1);
        } else {
            self.put_word(scratch.outcome, rest);
            self.put_word(scratch.left, doubled);
        }
    }

    fn ee_place(&self) -> u16
        ensures value { result ≡ ee_address self.now }
        ensures below { result < EEPROM_MOST }
    {
        self.address % EEPROM_MOST as u16
    }

    pub(crate) fn ee_byte(&self) -> u8
        ensures { result ≡ slice_index self.now.eeprom (ee_address self.now) }
    {
        self.eeprom[usize::from(self.ee_place())]
    }

    /// A write begins where none goes on.
    pub(crate) fn write_eeprom(&mut self, x: u8)
        ensures { self.new ≡ written self.old x }
    {
        if !self.reading.ee_busy {
            let place = usize::from(self.ee_place());
            self.eeprom[place] = x;
            self.reading.ee_busy = true;
        }
    }

    pub(crate) fn wait(&mut self, x: u8)
        ensures { self.new ≡ waiting self.old x }
    {
        let scratch = self.scratch;
        let [low, high] = self.address.to_le_bytes();
        self.put_cell(usize::from(scratch.pending_low), low / 2 * 2 + 1);
        if let Some(address) = scratch.pending_high {
            self.put_cell(usize::from(address), high);
        }
        self.put_cell(usize::from(scratch.pending_byte), x);
    }

    pub(crate) fn flush(&mut self)
        ensures { self.new ≡ flushed self.old }
    {
        let scratch = self.scratch;
        let low = self.cell(usize::from(scratch.pending_low));
        let high = match scratch.pending_high {
            Some(address) => self.cell(usize::from(address)),
            None => 0,
        };
        self.address = u16::from(low) + u16::from(high) * 256;
        self.write_eeprom(self.cell(usize::from(scratch.pending_byte)));
        self.none_waits();
    }

    pub(crate) fn begin_sending(&mut self)
        ensures { self.new ≡ sent_on self.old }
    {
        self.reading.tx_busy = true;
    }

    /// What the channel shows; 0 where there is none.
    pub(crate) fn channel_value(&self) -> u16
        ensures { result ≡ slice_index_or self.now.reading.adc self.now.channel 0 }
    {
        match self.reading.adc.get(usize::from(self.channel)) {
            Some(value) => *value,
            None => 0,
        }
    }

    /// The left word becomes the value with the index; 0 where there is none.
    pub(crate) fn look_up(&mut self, values: &[u16])
        ensures { self.new ≡ with_word self.old self.old.scratch.left (slice_index_or values.now (cell self.old self.old.scratch.outcome) 0) }
    {
        let index = self.cell(usize::from(self.scratch.outcome));
        let value = match values.get(usize::from(index)) {
            Some(value) => *value,
            None => 0,
        };
        self.put_word(self.scratch.left, value);
    }
}

fn if_set(bit: bool, n: u16) -> u16
    ensures { result ≡ if_set bit n }
{
    if bit { n } else { 0 }
}
