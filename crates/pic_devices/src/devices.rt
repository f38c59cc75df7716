//! The state of the devices.

ghost use Rattle.std.specs.Prelude.{◌≡◌, ◌+◌, ◌*◌, ◌%◌, ◌<◌};
ghost use Rattle.pic_devices.specs.Device.{port_of, compare_of, is_timing, is_serial_on, has_rate, has_speed, has_mode, is_modulating, converter_status, eeprom_address, is_of_data};
ghost use Rattle.pic_devices.specs.Part.{eeprom_bytes};
ghost use Rattle.pic_devices.specs.Reset.{reset_devices, input_port};

use crate::part::PicPart;
use avr_devices::Conversion;
use chip_tables::{BaudSetting, PinReading, PwmSetting, Settings, as_bit, bit_of};

/// The value of CCP1CON with which the compare register resets timer 1.
const COMPARE_MODE: u8 = 0x0b;

/// The value of CCP2CON for pulse-width modulation.
const PWM_MODE: u8 = 0x0c;

/// The bit of port C at which the modulator's output is: CCP2.
const PWM_BIT: u8 = 1;

/// How many bytes the state has for the EEPROM; a smaller one uses the first of them.
const EEPROM_ROOM: usize = 256;

/// The devices of the chip, and what they show in the current cycle. A part that lacks a device has no
/// register that changes it.
#[derive(Drop)]
pub struct PicDevices {
    /// What the program has to set the devices to before they work.
    pub settings: Settings,
    /// What the pins and the devices show. `rx` is `None` once the byte was read; `tx_busy` and
    /// `ee_busy` are set where this chip sends a byte or writes one in its EEPROM.
    pub reading: PinReading,
    pub port_a: PicPort,
    pub port_b: PicPort,
    pub port_c: PicPort,
    pub port_d: PicPort,
    pub port_e: PicPort,
    /// PIR1 as it was written.
    pub flags: u8,
    pub timer: PicTimer,
    pub serial: PicSerial,
    pub converter: PicConverter,
    /// CMCON.
    pub comparator: u8,
    pub eeprom: PicEeprom,
    pub modulator: PicModulator,
}

/// An I/O port, a bit for each pin.
#[derive(Clone, Copy, Debug, PartialEq, Eq)]
pub struct PicPort {
    /// What an output pin shows.
    pub latch: u8,
    /// TRISx: 1 for an input.
    pub direction: u8,
}

/// Timer 1 and the compare register 1, which count the cycle.
#[derive(Clone, Copy, Debug, PartialEq, Eq)]
pub struct PicTimer {
    /// TMR1L.
    pub count_low: u8,
    /// TMR1H.
    pub count_high: u8,
    /// T1CON.
    pub control: u8,
    /// CCPR1L.
    pub compare_low: u8,
    /// CCPR1H.
    pub compare_high: u8,
    /// CCP1CON.
    pub mode: u8,
    /// CCP1IF of PIR1: the count was reached.
    pub flag: bool,
}

/// The serial port.
#[derive(Clone, Copy, Debug, PartialEq, Eq)]
pub struct PicSerial {
    /// SPBRG.
    pub rate: u8,
    /// TXSTA as it was written.
    pub transmit: u8,
    /// RCSTA.
    pub receive: u8,
}

/// The analog-to-digital converter.
#[derive(Clone, Copy, Debug, PartialEq, Eq)]
pub struct PicConverter {
    /// ADCON0 as it was written.
    pub control: u8,
    /// ADCON1: which pins are analog, and how the result stands.
    pub pins: u8,
    /// ADRESH and ADRESL.
    pub result: u16,
    pub conversion: Conversion,
}

/// The EEPROM.
#[derive(Drop)]
pub struct PicEeprom {
    pub bytes: [u8; EEPROM_ROOM],
    /// EEADR.
    pub address: u8,
    /// EEDATA.
    pub data_byte: u8,
    /// EECON1 as it was written.
    pub control: u8,
    pub unlock: Unlock,
}

/// How far the unlocking of the EEPROM has come: 55h in EECON2, one instruction, AAh in EECON2, and the
/// instruction that writes.
#[derive(Clone, Copy, Debug, PartialEq, Eq)]
pub enum Unlock {
    Closed,
    /// The instruction that is executed wrote 55h.
    FirstWritten,
    /// The last instruction wrote 55h.
    FirstDone,
    /// The one before it did, so that AAh is due.
    SecondDue,
    /// The instruction that is executed wrote AAh when it was due.
    SecondWritten,
    /// The last instruction did, so that the next one can write.
    Open,
}

/// Timer 2 and the compare register 2 as a pulse-width modulator.
#[derive(Clone, Copy, Debug, PartialEq, Eq)]
pub struct PicModulator {
    /// T2CON.
    pub control: u8,
    /// PR2.
    pub period: u8,
    /// CCP2CON.
    pub mode: u8,
    /// CCPR2L.
    pub duty: u8,
}

impl PicDevices {
    /// The devices after a reset, with an EEPROM of any contents, and what they have to be set to.
    pub fn reset(eeprom: &[u8; EEPROM_ROOM], settings: &Settings) -> PicDevices
        ensures { result ≡ reset_devices eeprom.now settings.now }
    {
        PicDevices {
            settings: *settings,
            reading: PinReading::nothing(),
            port_a: input_port(255),
            port_b: input_port(255),
            port_c: input_port(255),
            port_d: input_port(255),
            port_e: input_port(7),
            flags: 0,
            timer: PicTimer {
                count_low: 0,
                count_high: 0,
                control: 0,
                compare_low: 0,
                compare_high: 0,
                mode: 0,
                flag: false,
            },
            serial: PicSerial {
                rate: 0,
                transmit: 0,
                receive: 0,
            },
            converter: PicConverter {
                control: 0,
                pins: 0,
                result: 0,
                conversion: Conversion::Idle,
            },
            comparator: 0,
            eeprom: PicEeprom {
                bytes: *eeprom,
                address: 0,
                data_byte: 0,
                control: 0,
                unlock: Unlock::Closed,
            },
            modulator: PicModulator {
                control: 0,
                period: 0,
                mode: 0,
                duty: 0,
            },
        }
    }

    /// A port by its number; 0 is A.
    pub fn port(&self, port: u8) -> PicPort
        requires { port < 5 }
        ensures { result ≡ port_of self.now port }
    {
        match port {
            0 => self.port_a,
            1 => self.port_b,
            2 => self.port_c,
            3 => self.port_d,
            _ => self.port_e,
        }
    }

    /// Whether the cycle timer counts: it is set up as the settings say.
    pub fn is_timing(&self) -> bool
        ensures { result ≡ is_timing self.now }
    {
        self.timer.mode == COMPARE_MODE
            && (self.timer.control == self.settings.timer.control
                && self.timer.compare() == self.settings.timer.compare)
    }

    /// Whether the pulse-width modulator gives its output: it is set up as the settings say, and its pin RC1 is an output.
    pub fn is_modulating(&self) -> bool
        ensures { result ≡ is_modulating self.now }
    {
        self.modulator.has_mode(self.settings.pwm) && !bit_of(self.port_c.direction, PWM_BIT)
    }

    pub(crate) fn is_serial_on(&self) -> bool
        ensures { result ≡ is_serial_on self.now }
    {
        self.serial.has_rate(self.settings.baud)
            && (bit_of(self.serial.transmit, 5)
                && (!bit_of(self.serial.transmit, 4)
                    && (bit_of(self.serial.receive, 7) && bit_of(self.serial.receive, 4))))
    }
}

impl PicTimer {
    fn compare(&self) -> u16
        ensures { result ≡ compare_of self.now }
    {
        u16::from(self.compare_high) * 256 + u16::from(self.compare_low)
    }
}

impl PicModulator {
    fn has_mode(&self, setting: Option<PwmSetting>) -> bool
        ensures { result ≡ has_mode self.now setting }
    {
        match setting {
            None => false,
            Some(setting) => {
                self.control == setting.control
                    && (u16::from(self.period) + 1 == setting.top && self.mode == PWM_MODE)
            }
        }
    }
}

impl PicSerial {
    fn has_rate(&self, setting: Option<BaudSetting>) -> bool
        ensures { result ≡ has_rate self.now setting }
    {
        match setting {
            None => false,
            Some(setting) => {
                u16::from(self.rate) == setting.divisor && self.has_speed(setting.fast)
            }
        }
    }

    fn has_speed(&self, fast: bool) -> bool
        ensures { result ≡ has_speed self.now fast }
    {
        if fast {
            bit_of(self.transmit, 2)
        } else {
            !bit_of(self.transmit, 2)
        }
    }
}

impl PicEeprom {
    pub(crate) fn address(&self, part: PicPart) -> u16
        ensures value { result ≡ eeprom_address part self.now }
        ensures below { result < 256 }
    {
        u16::from(self.address) % part.eeprom_bytes()
    }
}

/// Whether a value of EECON1 selects the data memory.
pub(crate) fn is_of_data(part: PicPart, control: u8) -> bool
    ensures { result ≡ is_of_data part control }
{
    match part {
        PicPart::F628 => true,
        PicPart::F877 => !bit_of(control, 7),
    }
}

pub(crate) fn converter_status(control: u8, converting: bool) -> u8
    ensures { result ≡ converter_status control converting }
{
    control / 8 * 8 + (as_bit(converting) * 4 + control % 4)
}

fn input_port(direction: u8) -> PicPort
    ensures { result ≡ input_port direction }
{
    PicPort {
        latch: 0,
        direction,
    }
}
