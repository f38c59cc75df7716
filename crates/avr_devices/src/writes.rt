//! What writes to the device registers do.

ghost use Rattle.std.specs.Prelude.{◌≡◌, ◌<◌};
ghost use Rattle.avr_devices.specs.Device.{sent_by, conversion_by};
ghost use Rattle.avr_devices.specs.DeviceWrites.{device_written, sent_to, converter_written, byte_sent, rate_high_written, flags_written, eeprom_stored, eeprom_fetched, eeprom_written, cycles_passed};

use crate::devices::{AvrDevices, Conversion, Converter, CycleTimer};
use crate::io_space::IoRegister;
use chip_tables::bit_of;

impl AvrDevices {
    /// A device register takes a byte by an instruction of so many cycles; gives the byte that is sent by that.
    pub fn write(&mut self, register: IoRegister, x: u8, cycles: u8) -> Option<u8>
        requires { cycles < 8 }
        ensures state { self.new ≡ device_written self.old register x cycles }
        ensures sent { result ≡ sent_to self.old register x }
    {
        match register {
            IoRegister::Adcsra => self.converter.write_control(x),
            IoRegister::Admux => self.converter.input = x,
            IoRegister::Ubrrl => self.serial.rate_low = x,
            IoRegister::Ucsrb => self.serial.control = x,
            IoRegister::Ucsra => self.serial.status = x,
            IoRegister::Udr => return self.send(x),
            IoRegister::Ddrd => self.port_d.direction = x,
            IoRegister::Portd => self.port_d.latch = x,
            IoRegister::Ddrc => self.port_c.direction = x,
            IoRegister::Portc => self.port_c.latch = x,
            IoRegister::Ddrb => self.port_b.direction = x,
            IoRegister::Portb => self.port_b.latch = x,
            IoRegister::Ddra => self.port_a.direction = x,
            IoRegister::Porta => self.port_a.latch = x,
            IoRegister::Eecr => self.write_eeprom(x, cycles),
            IoRegister::Eedr => self.eeprom.data_byte = x,
            IoRegister::Eearl => self.eeprom.address_low = x,
            IoRegister::Eearh => self.eeprom.address_high = x,
            IoRegister::Ubrrh => self.write_rate_high(x),
            IoRegister::Ocr2 => self.modulator.duty = x,
            IoRegister::Tccr2 => self.modulator.control = x,
            IoRegister::Ocr1al => {
                self.timer.compare = u16::from(self.timer.held) * 256 + u16::from(x);
            }
            IoRegister::Ocr1ah => self.timer.held = x,
            IoRegister::Tccr1b => self.timer.control_b = x,
            IoRegister::Tccr1a => self.timer.control_a = x,
            IoRegister::Tifr => self.timer.write_flags(x),
            IoRegister::Adcl | IoRegister::Adch => {}
            IoRegister::Pina | IoRegister::Pinb | IoRegister::Pinc | IoRegister::Pind => {}
            IoRegister::Spl | IoRegister::Sph | IoRegister::Sreg => {}
            IoRegister::Absent => {}
        }
        None
    }

    /// Cycles pass, also for the unlocked EEPROM.
    pub fn pass(&mut self, cycles: u8)
        ensures { self.new ≡ cycles_passed self.old cycles }
    {
        self.eeprom.unlock = self.eeprom.unlock.saturating_sub(cycles);
    }

    /// EECR takes a byte.
    fn write_eeprom(&mut self, x: u8, cycles: u8)
        requires { cycles < 8 }
        ensures { self.new ≡ eeprom_written self.old x cycles }
    {
        self.store_byte(x, cycles);
        self.fetch_byte(x);
        self.eeprom.control = x;
        self.eeprom.unlock = if bit_of(x, 2) { 4 + cycles } else { 0 };
    }

    fn store_byte(&mut self, x: u8, cycles: u8)
        ensures { self.new ≡ eeprom_stored self.old x cycles }
    {
        if bit_of(x, 1) && (cycles <= self.eeprom.unlock && !self.reading.ee_busy) {
            let address = self.eeprom.address();
            self.eeprom.bytes[address as usize] = self.eeprom.data_byte;
            self.reading.ee_busy = true;
        }
    }

    fn fetch_byte(&mut self, x: u8)
        ensures { self.new ≡ eeprom_fetched self.old x }
    {
        if bit_of(x, 0) {
            let address = self.eeprom.address();
            self.eeprom.data_byte = self.eeprom.bytes[address as usize];
        }
    }

    fn send(&mut self, x: u8) -> Option<u8>
        ensures state { self.new ≡ byte_sent self.old }
        ensures sent { result ≡ sent_by self.old x }
    {
        if self.is_serial_on() && !self.reading.tx_busy {
            self.reading.tx_busy = true;
            return Some(x);
        }
        None
    }

    fn write_rate_high(&mut self, x: u8)
        ensures { self.new ≡ rate_high_written self.old x }
    {
        if !bit_of(x, 7) {
            self.serial.rate_high = x;
        }
    }
}

impl CycleTimer {
    fn write_flags(&mut self, x: u8)
        ensures { self.new ≡ flags_written self.old x }
    {
        if bit_of(x, 4) {
            self.flag = false;
        }
    }
}

impl Converter {
    fn write_control(&mut self, x: u8)
        ensures { self.new ≡ converter_written self.old x }
    {
        self.control = x;
        if bit_of(x, 6) {
            self.conversion = conversion_by(x, self.input);
        }
    }
}

fn conversion_by(control: u8, input: u8) -> Conversion
    ensures { result ≡ conversion_by control input }
{
    if bit_of(control, 7) && (input / 32 == 2 && input % 32 < 8) {
        Conversion::Channel(input % 32)
    } else {
        Conversion::Unsupported
    }
}
