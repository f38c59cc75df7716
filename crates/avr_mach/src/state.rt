//! The state of the machine.

ghost use Rattle.std.specs.Prelude.{◌≡◌, ◌+◌, ◌*◌, ◌/◌, ◌%◌, ◌^◌, ◌<◌, slice_index};
ghost use Rattle.avr_devices.specs.Device.{port_of};
ghost use Rattle.chip_tables.specs.declared.mega16.TheConstants.{EEPROM_BYTES};
ghost use Rattle.avr_mach.specs.Memory.{ram_byte};
ghost use Rattle.avr_mach.specs.Reset.{reset_state};
ghost use Rattle.avr_mach.specs.State.{flag, with_flag, sreg, with_sreg, pointer, with_pointer};

use avr_devices::AvrDevices;
use chip_tables::mega16::{EEPROM_BYTES, SRAM_BYTES, SRAM_END, SRAM_FIRST};
use chip_tables::{Poll, Settings, as_bit, bit_of};

/// The registers, the memories, the flags and the devices of an ATmega16 between two instructions.
#[derive(Drop)]
pub struct AvrState {
    /// The place of the next instruction in program flash, in words.
    pub place: u32,
    pub regs: [u8; 32],
    /// The data memory from address 60h on.
    pub sram: [u8; SRAM_BYTES],
    /// C of SREG.
    pub carry: bool,
    /// Z of SREG.
    pub zero: bool,
    /// N of SREG.
    pub negative: bool,
    /// V of SREG.
    pub overflow: bool,
    /// S of SREG.
    pub sign: bool,
    /// H of SREG.
    pub half_carry: bool,
    /// T of SREG.
    pub bit_copy: bool,
    /// I of SREG; this machine has no interrupts.
    pub interrupts: bool,
    /// The stack pointer: the data address of the next byte that is pushed.
    pub stack: u16,
    pub devices: AvrDevices,
}

/// Where the machine goes on after an instruction.
#[derive(Clone, Copy, Debug, PartialEq, Eq)]
pub enum Flow {
    /// At the next instruction.
    Next,
    /// At the one after it.
    Skip,
    /// At a place.
    To(u32),
}

/// What an instruction did beside the state.
#[derive(Clone, Copy, Debug, PartialEq, Eq)]
pub struct Acted {
    pub flow: Flow,
    /// The cycles that it took, without those of a skip.
    pub cycles: u8,
    pub poll: Poll,
    /// The byte that it sent.
    pub sent: Option<u8>,
}

impl AvrState {
    /// The machine after a reset, with memories, registers and EEPROM of any contents, and what its
    /// devices have to be set to.
    pub fn reset(
        sram: &[u8; SRAM_BYTES],
        regs: &[u8; 32],
        eeprom: &[u8; EEPROM_BYTES],
        settings: &Settings,
    ) -> AvrState
        ensures { result ≡ reset_state sram.now regs.now eeprom.now settings.now }
    {
        AvrState {
            place: 0,
            regs: *regs,
            sram: *sram,
            carry: false,
            zero: false,
            negative: false,
            overflow: false,
            sign: false,
            half_carry: false,
            bit_copy: false,
            interrupts: false,
            stack: 0,
            devices: AvrDevices::reset(eeprom, settings),
        }
    }

    /// The byte of SRAM at a data address, which are 60h to 45Fh; 0 at any other.
    pub fn ram_at(&self, address: u16) -> u8
        ensures { result ≡ ram_byte self.now address }
    {
        if SRAM_FIRST <= address && address < SRAM_END {
            self.sram[usize::from(address - SRAM_FIRST)]
        } else {
            0
        }
    }

    /// The latches of a port, bit for bit; port 0 is A.
    pub fn latch(&self, port: u8) -> u8
        requires { port < 4 }
        ensures { result ≡ (port_of self.now.devices port).latch }
    {
        self.devices.port(port).latch
    }

    /// The directions of a port's pins, bit for bit, 1 for an output; port 0 is A.
    pub fn direction(&self, port: u8) -> u8
        requires { port < 4 }
        ensures { result ≡ (port_of self.now.devices port).direction }
    {
        self.devices.port(port).direction
    }

    /// The byte of EEPROM at an address.
    pub fn eeprom_at(&self, address: u16) -> u8
        requires { address < EEPROM_BYTES }
        ensures { result ≡ slice_index self.now.devices.eeprom.bytes address }
    {
        self.devices.eeprom.bytes[address as usize]
    }

    /// The duty register of the pulse-width modulator, OCR2.
    pub fn pwm(&self) -> u8
        ensures { result ≡ self.now.devices.modulator.duty }
    {
        self.devices.modulator.duty
    }

    /// The place of the next instruction in program flash, in words.
    pub fn place(&self) -> u32
        ensures { result ≡ self.now.place }
    {
        self.place
    }

    pub(crate) fn flag(&self, s: u8) -> bool
        ensures { result ≡ flag self.now s }
    {
        match s {
            0 => self.carry,
            1 => self.zero,
            2 => self.negative,
            3 => self.overflow,
            4 => self.sign,
            5 => self.half_carry,
            6 => self.bit_copy,
            _ => self.interrupts,
        }
    }

    pub(crate) fn put_flag(&mut self, s: u8, x: bool)
        ensures { self.new ≡ with_flag self.old s x }
    {
        match s {
            0 => self.carry = x,
            1 => self.zero = x,
            2 => self.negative = x,
            3 => self.overflow = x,
            4 => self.sign = x,
            5 => self.half_carry = x,
            6 => self.bit_copy = x,
            _ => self.interrupts = x,
        }
    }

    /// The flags as the byte of SREG.
    pub fn sreg(&self) -> u8
        ensures { result ≡ sreg self.now }
    {
        as_bit(self.carry)
            + (as_bit(self.zero) * 2
                + as_bit(self.negative) * 4
                + as_bit(self.overflow) * 8
                + as_bit(self.sign) * 16
                + as_bit(self.half_carry) * 32
                + as_bit(self.bit_copy) * 64
                + as_bit(self.interrupts) * 128)
    }

    /// Sets the flags by the byte of SREG.
    pub fn put_sreg(&mut self, x: u8)
        ensures { self.new ≡ with_sreg self.old x }
    {
        self.carry = bit_of(x, 0);
        self.zero = bit_of(x, 1);
        self.negative = bit_of(x, 2);
        self.overflow = bit_of(x, 3);
        self.sign = bit_of(x, 4);
        self.half_carry = bit_of(x, 5);
        self.bit_copy = bit_of(x, 6);
        self.interrupts = bit_of(x, 7);
    }

    /// A pair of registers as a pointer, by its low one.
    pub(crate) fn pointer(&self, low: u8) -> u16
        requires { low < 31 }
        ensures { result ≡ pointer self.now low }
    {
        u16::from(self.regs[low as usize + 1]) * 256 + u16::from(self.regs[low as usize])
    }

    pub(crate) fn put_pointer(&mut self, low: u8, x: u16)
        requires { low < 31 }
        ensures { self.new ≡ with_pointer self.old low x }
    {
        self.regs[low as usize] = (x % 256) as u8;
        self.regs[low as usize + 1] = (x / 256) as u8;
    }
}
