//! The I/O space and the data memory.

ghost use Rattle.std.specs.Prelude.{◌≡◌, ◌+◌, ◌-◌, ◌<◌};
ghost use Rattle.avr_mach.specs.Memory.{io_byte, after_reading, plain_read, in_read, bit_read, lds_register, io_written, with_ram, data_read, lds_read, data_written, sent_at};
ghost use Rattle.avr_devices.specs.DevicePolls.{answer};
ghost use Rattle.avr_devices.specs.Part.{mega16};
ghost use Rattle.avr_devices.specs.DeviceWrites.{sent_to};

use crate::state::AvrState;
use avr_devices::{Answer, IoRegister, register_at};
use chip_tables::mega16::{IO_FIRST, SRAM_END, SRAM_FIRST};
use chip_tables::{Env, Poll};

impl AvrState {
    fn io_byte(&self, register: IoRegister) -> u8
        ensures { result ≡ io_byte self.now register }
    {
        match register {
            IoRegister::Spl => (self.stack % 256) as u8,
            IoRegister::Sph => (self.stack / 256) as u8,
            IoRegister::Sreg => self.sreg(),
            _ => self.devices.byte(register),
        }
    }

    fn note_reading(&mut self, register: IoRegister)
        ensures { self.new ≡ after_reading self.old register }
    {
        match register {
            IoRegister::Udr => self.devices.take_byte(),
            _ => {}
        }
    }

    /// Reads an I/O register and asks nobody.
    pub(crate) fn read_plain(&mut self, register: IoRegister) -> Answer
        ensures state { self.new ≡ (plain_read self.old register).state }
        ensures answer { result ≡ (plain_read self.old register).answer }
    {
        let value = self.io_byte(register);
        self.note_reading(register);
        said(value)
    }

    /// Reads an I/O register as IN does.
    pub(crate) fn read_in(&mut self, env: &Env, register: IoRegister) -> Answer
        ensures state { self.new ≡ (in_read env.now self.old register).state }
        ensures answer { result ≡ (in_read env.now self.old register).answer }
    {
        match register {
            IoRegister::Tifr => self.devices.ask_timer(env),
            IoRegister::Adcsra => self.devices.ask_converter(env),
            _ => self.read_plain(register),
        }
    }

    /// Reads an I/O register as SBIC and SBIS do.
    pub(crate) fn read_bit(&mut self, env: &Env, register: IoRegister) -> Answer
        ensures state { self.new ≡ (bit_read env.now self.old register).state }
        ensures answer { result ≡ (bit_read env.now self.old register).answer }
    {
        match register {
            IoRegister::Adcsra => self.devices.ask_converter(env),
            _ => self.read_plain(register),
        }
    }

    fn read_register_lds(&mut self, env: &Env, register: IoRegister) -> Answer
        ensures state { self.new ≡ (lds_register env.now self.old register).state }
        ensures answer { result ≡ (lds_register env.now self.old register).answer }
    {
        match register {
            IoRegister::Tifr => self.devices.ask_timer(env),
            _ => self.read_plain(register),
        }
    }

    /// Writes an I/O register by an instruction of so many cycles; gives the byte that is sent.
    pub(crate) fn write_io(&mut self, register: IoRegister, x: u8, cycles: u8) -> Option<u8>
        requires { cycles < 8 }
        ensures state { self.new ≡ io_written self.old register x cycles }
        ensures sent { result ≡ sent_to self.old.devices register x }
    {
        match register {
            IoRegister::Spl => self.stack = self.stack / 256 * 256 + u16::from(x),
            IoRegister::Sph => self.stack = u16::from(x) * 256 + self.stack % 256,
            IoRegister::Sreg => self.put_sreg(x),
            _ => return self.devices.write(register, x, cycles),
        }
        None
    }

    /// Writes a byte of SRAM; another address takes none.
    pub(crate) fn write_ram(&mut self, address: u16, x: u8)
        ensures { self.new ≡ with_ram self.old address x }
    {
        if SRAM_FIRST <= address && address < SRAM_END {
            self.sram[usize::from(address - SRAM_FIRST)] = x;
        }
    }

    /// Reads data memory as LDD does.
    pub(crate) fn read_data(&mut self, address: u16) -> Answer
        ensures state { self.new ≡ (data_read mega16 self.old address).state }
        ensures answer { result ≡ (data_read mega16 self.old address).answer }
    {
        if address < IO_FIRST {
            said(self.regs[address as usize])
        } else if address < SRAM_FIRST {
            self.read_plain(register_at((address - IO_FIRST) as u8))
        } else {
            said(self.ram_at(address))
        }
    }

    /// Reads data memory as LDS does.
    pub(crate) fn read_lds(&mut self, env: &Env, address: u16) -> Answer
        ensures state { self.new ≡ (lds_read mega16 env.now self.old address).state }
        ensures answer { result ≡ (lds_read mega16 env.now self.old address).answer }
    {
        if address < IO_FIRST {
            said(self.regs[address as usize])
        } else if address < SRAM_FIRST {
            self.read_register_lds(env, register_at((address - IO_FIRST) as u8))
        } else {
            said(self.ram_at(address))
        }
    }

    /// Writes data memory by an instruction of so many cycles; gives the byte that is sent.
    pub(crate) fn write_data(&mut self, address: u16, x: u8, cycles: u8) -> Option<u8>
        requires { cycles < 8 }
        ensures state { self.new ≡ data_written mega16 self.old address x cycles }
        ensures sent { result ≡ sent_at mega16 self.old address x }
    {
        if address < IO_FIRST {
            self.regs[address as usize] = x;
            None
        } else if address < SRAM_FIRST {
            self.write_io(register_at((address - IO_FIRST) as u8), x, cycles)
        } else {
            self.write_ram(address, x);
            None
        }
    }
}

fn said(value: u8) -> Answer
    ensures { result ≡ answer value Poll.NoPoll }
{
    Answer {
        value,
        poll: Poll::NoPoll,
    }
}
