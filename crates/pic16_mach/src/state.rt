//! The state of the machine.

ghost use Rattle.std.specs.Prelude.{◌≡◌, ◌+◌, ◌*◌, ◌/◌, ◌%◌, ◌<◌, slice_index};
ghost use Rattle.pic_devices.specs.declared.part.TheConstants.{FILE_SIZE};
ghost use Rattle.pic_devices.specs.Device.{port_of};
ghost use Rattle.pic_devices.specs.Part.{eeprom_bytes};
ghost use Rattle.chip_tables.specs.Bits.{as_bit};
ghost use Rattle.pic16_mach.specs.Reset.{reset_state};
ghost use Rattle.pic16_mach.specs.State.{status, with_banks, with_status, address_of};
ghost use Rattle.pic16_mach.specs.File.{ram_byte};

use chip_tables::{Poll, Settings, as_bit, bit_of};
use pic_devices::{FILE_SIZE, PicDevices, PicPart, PicPlace, place_at};

/// How many places the stack keeps.
pub(crate) const STACK_PLACES: u8 = 8;

/// The file registers, W, the flags, the stack and the devices of a PIC between two instructions.
#[derive(Drop)]
pub struct PicState {
    /// Which PIC it is.
    pub part: PicPart,
    /// The place of the next instruction in program flash, in words.
    pub place: u32,
    pub w: u8,
    /// The bytes of RAM by their addresses; the last sixteen of each bank are those of bank 0. What
    /// stands at an address without RAM is not seen.
    pub ram: [u8; FILE_SIZE],
    /// C of STATUS.
    pub carry: bool,
    /// DC of STATUS.
    pub digit_carry: bool,
    /// Z of STATUS.
    pub zero: bool,
    /// RP0 of STATUS: bit 7 of a direct address.
    pub rp0: bool,
    /// RP1 of STATUS: bit 8 of a direct address.
    pub rp1: bool,
    /// IRP of STATUS: bit 8 of an indirect address.
    pub irp: bool,
    /// FSR: the other bits of an indirect address.
    pub fsr: u8,
    /// PCLATH: the high bits of a place that is jumped to.
    pub pclath: u8,
    /// The places to return to, from the first one kept on.
    pub stack: [u16; 8],
    /// How many places the stack keeps, 8 at most.
    pub depth: u8,
    pub devices: PicDevices,
}

/// Where the machine goes on after an instruction.
#[derive(Clone, Copy, Debug, PartialEq, Eq)]
pub enum Flow {
    /// At the next instruction.
    Next,
    /// At the one after it.
    Skip,
    /// At a place.
    To(u32),
}

/// What an instruction did beside the state.
#[derive(Clone, Copy, Debug, PartialEq, Eq)]
pub struct Acted {
    pub flow: Flow,
    /// The instruction cycles that it took, of four clocks each.
    pub cycles: u8,
    pub poll: Poll,
    /// The byte that it sent.
    pub sent: Option<u8>,
}

impl PicState {
    /// The machine after a reset, with RAM, W and EEPROM of any contents, and what its devices have to be
    /// set to. A part uses as much of `ram` and `eeprom` as it has.
    pub fn reset(
        part: PicPart,
        ram: &[u8; FILE_SIZE],
        w: u8,
        eeprom: &[u8; 256],
        settings: &Settings,
    ) -> PicState
        ensures { result ≡ reset_state part ram.now w eeprom.now settings.now }
    {
        PicState {
            part,
            place: 0,
            w,
            ram: *ram,
            carry: false,
            digit_carry: false,
            zero: false,
            rp0: false,
            rp1: false,
            irp: false,
            fsr: 0,
            pclath: 0,
            stack: [0, 0, 0, 0, 0, 0, 0, 0],
            depth: 0,
            devices: PicDevices::reset(eeprom, settings),
        }
    }

    /// The byte of RAM at an address of the file, of which the two high bits are the bank; 0 at an
    /// address without RAM.
    pub fn ram_at(&self, address: u16) -> u8
        requires { address < FILE_SIZE }
        ensures { result ≡ ram_byte self.now.part self.now address }
    {
        match place_at(self.part, address) {
            PicPlace::Ram(cell) => self.cell(cell),
            PicPlace::Special(_) => 0,
        }
    }

    /// The latches of a port, bit for bit; port 0 is A.
    pub fn latch(&self, port: u8) -> u8
        requires { port < 5 }
        ensures { result ≡ (port_of self.now.devices port).latch }
    {
        self.devices.port(port).latch
    }

    /// The directions of a port's pins, bit for bit, 1 for an input; port 0 is A.
    pub fn direction(&self, port: u8) -> u8
        requires { port < 5 }
        ensures { result ≡ (port_of self.now.devices port).direction }
    {
        self.devices.port(port).direction
    }

    /// The byte of EEPROM at an address.
    pub fn eeprom_at(&self, address: u16) -> u8
        requires { address < eeprom_bytes self.now.part }
        ensures { result ≡ slice_index self.now.devices.eeprom.bytes address }
    {
        match self.devices.eeprom.bytes.get(address as usize) {
            Some(byte) => *byte,
            None => 0,
        }
    }

    /// The duty register of the pulse-width modulator, CCPR2L.
    pub fn pwm(&self) -> u8
        ensures { result ≡ self.now.devices.modulator.duty }
    {
        self.devices.modulator.duty
    }

    /// The place of the next instruction in program flash, in words.
    pub fn place(&self) -> u32
        ensures { result ≡ self.now.place }
    {
        self.place
    }

    /// The flags and the bank bits as the byte of STATUS.
    pub fn status(&self) -> u8
        ensures { result ≡ status self.now }
    {
        as_bit(self.carry)
            + (as_bit(self.digit_carry) * 2
                + (as_bit(self.zero) * 4
                    + (24
                        + (as_bit(self.rp0) * 32
                            + (as_bit(self.rp1) * 64 + as_bit(self.irp) * 128)))))
    }

    /// Sets the flags and the bank bits by the byte of STATUS.
    pub fn put_status(&mut self, x: u8)
        ensures { self.new ≡ with_status self.old x }
    {
        self.carry = bit_of(x, 0);
        self.digit_carry = bit_of(x, 1);
        self.zero = bit_of(x, 2);
        self.rp0 = bit_of(x, 5);
        self.rp1 = bit_of(x, 6);
        self.irp = bit_of(x, 7);
    }

    pub(crate) fn put_banks(&mut self, x: u8)
        ensures { self.new ≡ with_banks self.old x }
    {
        self.rp0 = bit_of(x, 5);
        self.rp1 = bit_of(x, 6);
        self.irp = bit_of(x, 7);
    }

    /// The address of file register `f` of an instruction.
    pub(crate) fn address_of(&self, f: u8) -> u16
        requires { f < 128 }
        ensures value { result ≡ address_of self.now f }
        ensures within { result < FILE_SIZE }
    {
        if f == 0 {
            with_high_bit(self.irp, self.fsr)
        } else {
            in_bank(self.rp1, self.rp0, f)
        }
    }

    pub(crate) fn cell(&self, cell: u16) -> u8
        ensures { result ≡ slice_index self.now.ram cell }
    {
        match self.ram.get(cell as usize) {
            Some(byte) => *byte,
            None => 0,
        }
    }
}

/// An address by its highest bit and the others.
fn with_high_bit(high: bool, low: u8) -> u16
    ensures value { result ≡ as_bit high * 256 + low }
    ensures within { result < FILE_SIZE }
{
    u16::from(as_bit(high)) * 256 + u16::from(low)
}

/// An address by its two highest bits and the others.
fn in_bank(high: bool, next: bool, low: u8) -> u16
    requires { low < 128 }
    ensures value { result ≡ as_bit high * 256 + (as_bit next * 128 + low) }
    ensures within { result < FILE_SIZE }
{
    u16::from(as_bit(high)) * 256 + (u16::from(as_bit(next)) * 128 + u16::from(low))
}
