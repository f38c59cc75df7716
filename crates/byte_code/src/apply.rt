//! What each primitive does to the cells and the devices.

ghost use Rattle.std.specs.Prelude.{◌≡◌, ◌+◌, ◌%◌, ◌<◌};
ghost use Rattle.byte_code.specs.Store.{lifted};
ghost use Rattle.byte_code.specs.Table.{same, tested, says, bit_effect, byte_effect, word_effect, compare_effect, device_effect, eeprom_effect, effect};

use crate::prim::{BitOp, ByteOp, BytePrim, CompareOp, DeviceOp, EepromOp, FlagKind, Test, WordOp};
use crate::store::Store;
use chip_tables::bit_of;

impl Store {
    /// What a primitive does.
    pub(crate) fn apply(&mut self, prim: &BytePrim)
        ensures { self.new ≡ effect prim.now self.old }
    {
        match prim {
            BytePrim::Start { cells } => {
                self.clear_cells(*cells);
                self.none_waits();
            }
            BytePrim::CyclePoll { .. }
            | BytePrim::Label { .. }
            | BytePrim::Jump { .. }
            | BytePrim::Call { .. }
            | BytePrim::Return => {}
            BytePrim::AdcPoll { .. } => self.converted = self.channel_value(),
            BytePrim::JumpWhere { test, .. } => return self.begin_test(*test),
            BytePrim::Bit(op) => return self.apply_bit(*op),
            BytePrim::Byte(op) => self.apply_byte(*op),
            BytePrim::Word(op) => self.apply_word(*op),
            BytePrim::Compare(op) => return self.compare(*op),
            BytePrim::Device(op) => self.apply_device(*op),
            BytePrim::Eeprom(op) => self.apply_eeprom(*op),
            BytePrim::Table { values, .. } => self.look_up(values.as_slice()),
        }
        self.clear_flag();
    }

    fn begin_test(&mut self, test: Test)
        ensures { self.new ≡ tested test self.old }
    {
        match test {
            Test::Flag { .. } => return,
            Test::LoopsOn => {
                let count = usize::from(self.scratch.count);
                self.put_cell(count, self.cell(count).wrapping_sub(1));
            }
            Test::Bit { .. } | Test::NoByte | Test::Sends | Test::Writes | Test::NoneWaits => {}
        }
        self.clear_flag();
    }

    /// What a test says once it was begun.
    pub(crate) fn says(&self, test: Test) -> bool
        ensures { result ≡ says test self.now }
    {
        match test {
            Test::LoopsOn => self.cell(usize::from(self.scratch.count)) != 0,
            Test::Bit { from, is } => same(self.bit_from(from), is),
            Test::Flag { is, .. } => same(self.flag_value(), is),
            Test::NoByte => self.reading.rx.is_none(),
            Test::Sends => self.reading.tx_busy,
            Test::Writes => self.reading.ee_busy,
            Test::NoneWaits => self.cell(usize::from(self.scratch.pending_low)) == 0,
        }
    }

    fn apply_bit(&mut self, op: BitOp)
        ensures { self.new ≡ bit_effect op self.old }
    {
        match op {
            BitOp::Put { to, value } => self.put_bit(to, value),
            BitOp::Copy { to, from, inverted } => {
                let bit = self.bit_from(from);
                self.put_bit(to, if inverted { !bit } else { bit });
            }
            BitOp::PutIf {
                test,
                is,
                to,
                value,
            } => {
                if same(self.bit_from(test), is) {
                    self.put_bit(to, value);
                }
            }
            BitOp::PutOnFlag { is, to, value, .. } => {
                if same(self.flag_value(), is) {
                    self.put_bit(to, value);
                }
                return;
            }
        }
        self.clear_flag();
    }

    fn apply_byte(&mut self, op: ByteOp)
        ensures { self.new ≡ byte_effect op self.old }
    {
        match op {
            ByteOp::Put { to, value } => self.put_cell(usize::from(to), value),
            ByteOp::Copy { to, from } => {
                self.put_cell(usize::from(to), self.cell(usize::from(from)));
            }
            ByteOp::Xor { to, a, b } => {
                let byte = self.cell(usize::from(a)) ^ self.cell(usize::from(b));
                self.put_cell(usize::from(to), byte);
            }
        }
    }

    fn apply_word(&mut self, op: WordOp)
        ensures { self.new ≡ word_effect op self.old }
    {
        match op {
            WordOp::Move { to, from } => self.put_word(to, self.word_from(from)),
            WordOp::Increment { to } => self.put_word(to, self.word(to).wrapping_add(1)),
            WordOp::Decrement { to } => self.put_word(to, self.word(to).wrapping_sub(1)),
            WordOp::Add { to, a, b } => {
                self.put_word(to, self.word(a).wrapping_add(self.word_from(b)));
            }
            WordOp::Subtract { to, a, b } => {
                self.put_word(to, self.word_from(a).wrapping_sub(self.word_from(b)));
            }
            WordOp::NegateIf { to, sign } => {
                if bit_of(self.cell(usize::from(sign)), 7) {
                    self.put_word(to, self.word(to).wrapping_neg());
                }
            }
            WordOp::MultiplyStep => self.multiply(),
            WordOp::DivideStep => self.divide(),
        }
    }

    fn compare(&mut self, op: CompareOp)
        ensures { self.new ≡ compare_effect op self.old }
    {
        match op {
            CompareOp::Less { a, b } => {
                let is_less = lifted(self.word(a)) < lifted(self.word_from(b));
                self.put_flag(FlagKind::Less, is_less);
            }
            CompareOp::Equal { a, b } => {
                self.put_flag(FlagKind::Equal, self.word(a) == self.word_from(b));
            }
            CompareOp::Below { a, number } => {
                self.put_flag(FlagKind::Below, self.word(a) < u16::from(number));
            }
        }
    }

    fn apply_device(&mut self, op: DeviceOp)
        ensures { self.new ≡ device_effect op self.old }
    {
        match op {
            DeviceOp::AdcChannel { channel } => {
                self.channel = channel;
                self.converting = true;
            }
            DeviceOp::AdcStart => {}
            DeviceOp::AdcRead { to } => {
                self.put_word(to, self.converted);
                self.converting = false;
            }
            DeviceOp::TakeByte { to } => {
                let byte = match self.reading.rx {
                    Some(byte) => byte,
                    None => 0,
                };
                self.put_word(to, u16::from(byte));
                self.reading.rx = None;
            }
            DeviceOp::Send { .. } => self.begin_sending(),
            DeviceOp::PwmDuty { from } => self.duty = self.cell(usize::from(from)),
        }
    }

    fn apply_eeprom(&mut self, op: EepromOp)
        ensures { self.new ≡ eeprom_effect op self.old }
    {
        match op {
            EepromOp::At { address } => self.address = address,
            EepromOp::Next => {
                self.address = self.address / 256 * 256 + (self.address % 256 + 1) % 256;
            }
            EepromOp::Get { to } => self.put_cell(usize::from(to), self.ee_byte()),
            EepromOp::Put { from } => self.write_eeprom(self.cell(usize::from(from))),
            EepromOp::Wait { from } => self.wait(self.cell(usize::from(from))),
            EepromOp::Flush => self.flush(),
        }
    }
}

fn same(a: bool, b: bool) -> bool
    ensures { result ≡ same a b }
{
    a == b
}

/// A word as a number with a sign, moved up so that it is none below 0.
fn lifted(n: u16) -> u16
    ensures { result ≡ lifted n }
{
    n.wrapping_add(32768)
}
