//! Reads and writes of cells, words and bits.

ghost use Rattle.std.specs.Prelude.{◌≡◌, ◌+◌, ◌<◌, ◌^◌, slice_index, slice_set};
ghost use Rattle.byte_code.specs.Store.{cell, with_cell, word_at, with_word, byte_from, word_from, with_bit, bit_from, with_bit_at};

use crate::prim::{BitDest, BitSource, ByteSource, WordSource};
use crate::store::Store;
use chip_tables::{bit_mask, bit_of};

impl Store {
    /// A cell; 0 past the last.
    pub fn cell(&self, address: usize) -> u8
        ensures { result ≡ cell self.now address }
    {
        match self.cells.get(address) {
            Some(byte) => *byte,
            None => 0,
        }
    }

    /// A cell takes a byte; past the last none does.
    #[tactic(auto, using(crate::proofs::SetLemmas::set_past))]
    pub(crate) fn put_cell(&mut self, address: usize, x: u8)
        ensures { self.new ≡ with_cell self.old address x }
    {
        if address < self.cells.len() {
            self.cells[address] = x;
        }
    }

    pub(crate) fn word(&self, address: u16) -> u16
        ensures { result ≡ word_at self.now address }
    {
        let address = usize::from(address);
        u16::from(self.cell(address)) + u16::from(self.cell(address + 1)) * 256
    }

    /// The high byte of a word.
    pub(crate) fn high_byte(&self, address: u16) -> u8
        ensures { result ≡ cell self.now (address + 1) }
    {
        self.cell(usize::from(address) + 1)
    }

    pub(crate) fn put_word(&mut self, address: u16, n: u16)
        ensures { self.new ≡ with_word self.old address n }
    {
        let address = usize::from(address);
        self.put_cell(address, (n % 256) as u8);
        self.put_cell(address + 1, (n / 256) as u8);
    }

    pub(crate) fn byte_from(&self, from: ByteSource) -> u8
        ensures { result ≡ byte_from self.now from }
    {
        match from {
            ByteSource::Cell(address) => self.cell(usize::from(address)),
            ByteSource::Number(n) => n,
        }
    }

    pub(crate) fn word_from(&self, from: WordSource) -> u16
        ensures { result ≡ word_from self.now from }
    {
        match from {
            WordSource::Cells(address) => self.word(address),
            WordSource::Number { low, high } => u16::from(low) + u16::from(high) * 256,
        }
    }

    pub(crate) fn bit_from(&self, from: BitSource) -> bool
        ensures { result ≡ bit_from self.now from }
    {
        match from {
            BitSource::Cell { address, bit } => bit_of(self.cell(usize::from(address)), bit % 8),
            BitSource::Level { port, bit } => bit_of(
                port_byte(&self.reading.levels, port),
                bit % 8,
            ),
            BitSource::Latch { port, bit } => bit_of(port_byte(&self.latches, port), bit % 8),
        }
    }

    pub(crate) fn put_bit(&mut self, to: BitDest, x: bool)
        ensures { self.new ≡ with_bit_at self.old to x }
    {
        match to {
            BitDest::Cell { address, bit } => {
                let address = usize::from(address);
                self.put_cell(address, with_bit(self.cell(address), bit % 8, x));
            }
            BitDest::Latch { port, bit } => {
                let byte = with_bit(port_byte(&self.latches, port), bit % 8, x);
                self.put_latch(port, byte);
            }
        }
    }

    #[tactic(auto, using(crate::proofs::SetLemmas::set_past))]
    fn put_latch(&mut self, port: u8, x: u8)
        ensures { self.new ≡ record self.old { latches = slice_set self.old.latches port x } }
    {
        let port = usize::from(port);
        if port < self.latches.len() {
            self.latches[port] = x;
        }
    }
}

/// The byte of a port; 0 where there is no such port.
fn port_byte(bytes: &[u8; 5], port: u8) -> u8
    ensures { result ≡ slice_index bytes.now port }
{
    match bytes.get(usize::from(port)) {
        Some(byte) => *byte,
        None => 0,
    }
}

fn with_bit(byte: u8, b: u8, x: bool) -> u8
    requires { b < 8 }
    ensures { result ≡ with_bit byte b x }
{
    if x {
        byte | bit_mask(b)
    } else {
        byte & (255 - bit_mask(b))
    }
}
