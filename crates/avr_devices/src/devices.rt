//! The state of the devices.

ghost use Rattle.std.specs.Prelude.{◌≡◌, ◌+◌, ◌*◌, ◌%◌, ◌<◌};
ghost use Rattle.avr_devices.specs.Device.{port_of, is_serial_on, has_rate, has_mode, is_modulating, converter_status, eeprom_address};
ghost use Rattle.avr_devices.specs.Reset.{reset_devices, input_port};
ghost use Rattle.chip_tables.specs.declared.mega16.TheConstants.{EEPROM_BYTES};

use chip_tables::mega16::EEPROM_BYTES;
use chip_tables::{BaudSetting, PinReading, Poll, PwmSetting, Settings, as_bit, bit_of};

/// The bit of port D at which the modulator's output is: OC2.
const PWM_BIT: u8 = 7;

/// The devices of the chip, and what they show in the current cycle.
#[derive(Drop)]
pub struct AvrDevices {
    /// What the program has to set the devices to before they work.
    pub settings: Settings,
    /// What the pins and the devices show. `rx` is `None` once the byte was read; `tx_busy` and
    /// `ee_busy` are set where this chip sends a byte or writes one in its EEPROM.
    pub reading: PinReading,
    pub port_a: AvrPort,
    pub port_b: AvrPort,
    pub port_c: AvrPort,
    pub port_d: AvrPort,
    pub timer: CycleTimer,
    pub serial: SerialPort,
    pub converter: Converter,
    pub eeprom: Eeprom,
    pub modulator: Modulator,
}

/// An I/O port, a bit for each pin.
#[derive(Clone, Copy, Debug, PartialEq, Eq)]
pub struct AvrPort {
    /// PORTx: what an output pin shows.
    pub latch: u8,
    /// DDRx: 1 for an output.
    pub direction: u8,
}

/// Timer 1, which counts the cycle.
#[derive(Clone, Copy, Debug, PartialEq, Eq)]
pub struct CycleTimer {
    /// TCCR1A.
    pub control_a: u8,
    /// TCCR1B.
    pub control_b: u8,
    /// OCR1A.
    pub compare: u16,
    /// The high byte that the next write to OCR1AL takes along.
    pub held: u8,
    /// OCF1A of TIFR: the count was reached.
    pub flag: bool,
}

/// The serial port.
#[derive(Clone, Copy, Debug, PartialEq, Eq)]
pub struct SerialPort {
    /// UBRRL.
    pub rate_low: u8,
    /// UBRRH.
    pub rate_high: u8,
    /// UCSRB.
    pub control: u8,
    /// UCSRA as it was written.
    pub status: u8,
}

/// The analog-to-digital converter.
#[derive(Clone, Copy, Debug, PartialEq, Eq)]
pub struct Converter {
    /// ADCSRA as it was written.
    pub control: u8,
    /// ADMUX.
    pub input: u8,
    /// ADCH and ADCL.
    pub result: u16,
    pub conversion: Conversion,
}

/// What the converter is doing.
#[derive(Clone, Copy, Debug, PartialEq, Eq)]
pub enum Conversion {
    Idle,
    /// It converts a channel, 0 to 7.
    Channel(u8),
    /// It was started in a way that this machine gives no value for; the result will be 0.
    Unsupported,
}

/// The EEPROM.
#[derive(Drop)]
pub struct Eeprom {
    pub bytes: [u8; EEPROM_BYTES],
    /// EEARL.
    pub address_low: u8,
    /// EEARH.
    pub address_high: u8,
    /// EEDR.
    pub data_byte: u8,
    /// EECR as it was written.
    pub control: u8,
    /// For how many cycles EECR still writes a byte: bit 2 unlocks it.
    pub unlock: u8,
}

/// Timer 2 as a pulse-width modulator.
#[derive(Clone, Copy, Debug, PartialEq, Eq)]
pub struct Modulator {
    /// TCCR2.
    pub control: u8,
    /// OCR2.
    pub duty: u8,
}

/// A byte that was read, and whom the read asked.
#[derive(Clone, Copy, Debug, PartialEq, Eq)]
pub struct Answer {
    pub value: u8,
    pub poll: Poll,
}

impl AvrDevices {
    /// The devices after a reset, with an EEPROM of any contents, and what they have to be set to.
    pub fn reset(eeprom: &[u8; EEPROM_BYTES], settings: &Settings) -> AvrDevices
        ensures { result ≡ reset_devices eeprom.now settings.now }
    {
        AvrDevices {
            settings: *settings,
            reading: PinReading::nothing(),
            port_a: input_port(),
            port_b: input_port(),
            port_c: input_port(),
            port_d: input_port(),
            timer: CycleTimer {
                control_a: 0,
                control_b: 0,
                compare: 0,
                held: 0,
                flag: false,
            },
            serial: SerialPort {
                rate_low: 0,
                rate_high: 0,
                control: 0,
                status: 0,
            },
            converter: Converter {
                control: 0,
                input: 0,
                result: 0,
                conversion: Conversion::Idle,
            },
            eeprom: Eeprom {
                bytes: *eeprom,
                address_low: 0,
                address_high: 0,
                data_byte: 0,
                control: 0,
                unlock: 0,
            },
            modulator: Modulator {
                control: 0,
                duty: 0,
            },
        }
    }

    /// A port by its number; 0 is A.
    pub fn port(&self, port: u8) -> AvrPort
        requires { port < 4 }
        ensures { result ≡ port_of self.now port }
    {
        match port {
            0 => self.port_a,
            1 => self.port_b,
            2 => self.port_c,
            _ => self.port_d,
        }
    }

    /// Whether the pulse-width modulator gives its output: it is set up as the settings say, and its pin PD7 is an output.
    pub fn is_modulating(&self) -> bool
        ensures { result ≡ is_modulating self.now }
    {
        self.modulator.has_mode(self.settings.pwm) && bit_of(self.port_d.direction, PWM_BIT)
    }

    pub(crate) fn is_serial_on(&self) -> bool
        ensures { result ≡ is_serial_on self.now }
    {
        self.serial.has_rate(self.settings.baud)
            && (bit_of(self.serial.control, 4) && bit_of(self.serial.control, 3))
    }
}

impl Modulator {
    fn has_mode(&self, setting: Option<PwmSetting>) -> bool
        ensures { result ≡ has_mode self.now setting }
    {
        match setting {
            None => false,
            Some(setting) => self.control == setting.control,
        }
    }
}

impl SerialPort {
    fn has_rate(&self, setting: Option<BaudSetting>) -> bool
        ensures { result ≡ has_rate self.now setting }
    {
        match setting {
            None => false,
            Some(setting) => {
                u16::from(self.rate_high) * 256 + u16::from(self.rate_low) == setting.divisor
            }
        }
    }
}

impl Eeprom {
    pub(crate) fn address(&self) -> u16
        ensures value { result ≡ eeprom_address self.now }
        ensures below { result < EEPROM_BYTES }
    {
        (u16::from(self.address_high) * 256 + u16::from(self.address_low)) % EEPROM_BYTES as u16
    }
}

pub(crate) fn converter_status(control: u8, converting: bool) -> u8
    ensures { result ≡ converter_status control converting }
{
    control / 128 * 128 + (as_bit(converting) * 64 + control % 64)
}

fn input_port() -> AvrPort
    ensures { result ≡ input_port }
{
    AvrPort {
        latch: 0,
        direction: 0,
    }
}
