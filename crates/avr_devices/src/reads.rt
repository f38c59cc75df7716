//! What the device registers read as.

ghost use Rattle.std.specs.Prelude.{◌≡◌, unwrap_or};
ghost use Rattle.avr_devices.specs.Device.{pins, received, serial_status, is_converting, eeprom_status};
ghost use Rattle.avr_devices.specs.DeviceReads.{device_byte, byte_taken};

use crate::devices::{AvrDevices, AvrPort, Conversion, converter_status};
use crate::io_space::IoRegister;
use chip_tables::as_bit;

impl AvrDevices {
    /// What a device register reads as; 0 for the processor's registers.
    pub fn byte(&self, register: IoRegister) -> u8
        ensures { result ≡ device_byte self.now register }
    {
        match register {
            IoRegister::Adcl => (self.converter.result % 256) as u8,
            IoRegister::Adch => (self.converter.result / 256) as u8,
            IoRegister::Adcsra => converter_status(
                self.converter.control,
                is_converting(self.converter.conversion),
            ),
            IoRegister::Admux => self.converter.input,
            IoRegister::Ubrrl => self.serial.rate_low,
            IoRegister::Ucsrb => self.serial.control,
            IoRegister::Ucsra => self.serial_status(),
            IoRegister::Udr => self.received_byte(),
            IoRegister::Pind => pins(self.port_d, self.reading.levels[3]),
            IoRegister::Ddrd => self.port_d.direction,
            IoRegister::Portd => self.port_d.latch,
            IoRegister::Pinc => pins(self.port_c, self.reading.levels[2]),
            IoRegister::Ddrc => self.port_c.direction,
            IoRegister::Portc => self.port_c.latch,
            IoRegister::Pinb => pins(self.port_b, self.reading.levels[1]),
            IoRegister::Ddrb => self.port_b.direction,
            IoRegister::Portb => self.port_b.latch,
            IoRegister::Pina => pins(self.port_a, self.reading.levels[0]),
            IoRegister::Ddra => self.port_a.direction,
            IoRegister::Porta => self.port_a.latch,
            IoRegister::Eecr => self.eeprom_status(),
            IoRegister::Eedr => self.eeprom.data_byte,
            IoRegister::Eearl => self.eeprom.address_low,
            IoRegister::Eearh => self.eeprom.address_high,
            IoRegister::Ubrrh => self.serial.rate_high,
            IoRegister::Ocr2 => self.modulator.duty,
            IoRegister::Tccr2 => self.modulator.control,
            IoRegister::Ocr1al => (self.timer.compare % 256) as u8,
            IoRegister::Ocr1ah => (self.timer.compare / 256) as u8,
            IoRegister::Tccr1b => self.timer.control_b,
            IoRegister::Tccr1a => self.timer.control_a,
            IoRegister::Tifr => as_bit(self.timer.flag) * 16,
            IoRegister::Spl | IoRegister::Sph | IoRegister::Sreg => 0,
            IoRegister::Absent => 0,
        }
    }

    /// The byte that was received counts as read.
    pub fn take_byte(&mut self)
        ensures { self.new ≡ byte_taken self.old }
    {
        if self.is_serial_on() {
            self.reading.rx = None;
        }
    }

    fn eeprom_status(&self) -> u8
        ensures { result ≡ eeprom_status self.now }
    {
        self.eeprom.control / 8 * 8
            + (as_bit(0 < self.eeprom.unlock) * 4 + as_bit(self.reading.ee_busy) * 2)
    }

    fn received(&self) -> Option<u8>
        ensures { result ≡ received self.now }
    {
        if self.is_serial_on() {
            self.reading.rx
        } else {
            None
        }
    }

    fn received_byte(&self) -> u8
        ensures { result ≡ unwrap_or (received self.now) 0 }
    {
        match self.received() {
            Some(byte) => byte,
            None => 0,
        }
    }

    fn serial_status(&self) -> u8
        ensures { result ≡ serial_status self.now }
    {
        as_bit(self.received().is_some()) * 128
            + (self.serial.status / 64 % 2 * 64
                + as_bit(!self.reading.tx_busy) * 32
                + self.serial.status % 32)
    }
}

fn pins(port: AvrPort, levels: u8) -> u8
    ensures { result ≡ pins port levels }
{
    port.latch & port.direction | levels & (255 - port.direction)
}

fn is_converting(conversion: Conversion) -> bool
    ensures { result ≡ is_converting conversion }
{
    match conversion {
        Conversion::Idle => false,
        Conversion::Channel(_) | Conversion::Unsupported => true,
    }
}
