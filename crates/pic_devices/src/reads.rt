//! What the device registers read as.

ghost use Rattle.std.specs.Prelude.{◌≡◌, unwrap_or, bit_and};
ghost use Rattle.avr_devices.specs.Device.{is_converting};
ghost use Rattle.pic_devices.specs.Device.{pins, has_digital_pins, digital_a, digital_e, received, flags_byte, transmit_status, eeprom_status};
ghost use Rattle.pic_devices.specs.DeviceReads.{device_byte, byte_taken};

use crate::devices::{PicDevices, PicPort, converter_status};
use crate::file_space::PicRegister;
use crate::part::PicPart;
use avr_devices::Conversion;
use chip_tables::as_bit;

impl PicDevices {
    /// What a device register reads as; 0 for the processor's registers.
    pub fn byte(&self, part: PicPart, register: PicRegister) -> u8
        ensures { result ≡ device_byte part self.now register }
    {
        match register {
            PicRegister::Porta => pins(self.port_a, self.reading.levels[0] & self.digital_a(part)),
            PicRegister::Portb => pins(self.port_b, self.reading.levels[1]),
            PicRegister::Portc => pins(self.port_c, self.reading.levels[2]),
            PicRegister::Portd => pins(self.port_d, self.reading.levels[3]),
            PicRegister::Porte => {
                pins(self.port_e, self.reading.levels[4] & self.digital_e()) & 7
            }
            PicRegister::Trisa => self.port_a.direction,
            PicRegister::Trisb => self.port_b.direction,
            PicRegister::Trisc => self.port_c.direction,
            PicRegister::Trisd => self.port_d.direction,
            PicRegister::Trise => self.port_e.direction,
            PicRegister::Pir1 => self.flags_byte(),
            PicRegister::Tmr1l => self.timer.count_low,
            PicRegister::Tmr1h => self.timer.count_high,
            PicRegister::T1con => self.timer.control,
            PicRegister::Ccpr1l => self.timer.compare_low,
            PicRegister::Ccpr1h => self.timer.compare_high,
            PicRegister::Ccp1con => self.timer.mode,
            PicRegister::Rcsta => self.serial.receive,
            PicRegister::Rcreg => self.received_byte(),
            PicRegister::Txsta => self.transmit_status(),
            PicRegister::Spbrg => self.serial.rate,
            PicRegister::Cmcon => self.comparator,
            PicRegister::T2con => self.modulator.control,
            PicRegister::Pr2 => self.modulator.period,
            PicRegister::Ccpr2l => self.modulator.duty,
            PicRegister::Ccp2con => self.modulator.mode,
            PicRegister::Adresh => (self.converter.result / 256) as u8,
            PicRegister::Adresl => (self.converter.result % 256) as u8,
            PicRegister::Adcon0 => converter_status(
                self.converter.control,
                is_converting(self.converter.conversion),
            ),
            PicRegister::Adcon1 => self.converter.pins,
            PicRegister::Eedata => self.eeprom.data_byte,
            PicRegister::Eeadr => self.eeprom.address,
            PicRegister::Eecon1 => self.eeprom_status(),
            PicRegister::Txreg | PicRegister::Eecon2 => 0,
            PicRegister::Indf | PicRegister::Pcl | PicRegister::Status => 0,
            PicRegister::Fsr | PicRegister::Pclath | PicRegister::Absent => 0,
        }
    }

    /// The byte that was received counts as read.
    pub fn take_byte(&mut self)
        ensures { self.new ≡ byte_taken self.old }
    {
        if self.is_serial_on() {
            self.reading.rx = None;
        }
    }

    fn has_digital_pins(&self) -> bool
        ensures { result ≡ has_digital_pins self.now }
    {
        self.converter.pins / 2 % 8 == 3
    }

    fn digital_a(&self, part: PicPart) -> u8
        ensures { result ≡ digital_a part self.now }
    {
        match part {
            PicPart::F628 => { if self.comparator % 8 == 7 { 255 } else { 240 } }
            PicPart::F877 => { if self.has_digital_pins() { 255 } else { 208 } }
        }
    }

    fn digital_e(&self) -> u8
        ensures { result ≡ digital_e self.now }
    {
        if self.has_digital_pins() { 7 } else { 0 }
    }

    fn received(&self) -> Option<u8>
        ensures { result ≡ received self.now }
    {
        if self.is_serial_on() {
            self.reading.rx
        } else {
            None
        }
    }

    fn received_byte(&self) -> u8
        ensures { result ≡ unwrap_or (received self.now) 0 }
    {
        match self.received() {
            Some(byte) => byte,
            None => 0,
        }
    }

    fn flags_byte(&self) -> u8
        ensures { result ≡ flags_byte self.now }
    {
        self.flags / 64 * 64
            + (as_bit(self.received().is_some()) * 32
                + (self.flags / 8 % 4 * 8 + (as_bit(self.timer.flag) * 4 + self.flags % 4)))
    }

    fn transmit_status(&self) -> u8
        ensures { result ≡ transmit_status self.now }
    {
        self.serial.transmit / 4 * 4
            + (as_bit(!self.reading.tx_busy) * 2 + self.serial.transmit % 2)
    }

    fn eeprom_status(&self) -> u8
        ensures { result ≡ eeprom_status self.now }
    {
        self.eeprom.control / 4 * 4 + as_bit(self.reading.ee_busy) * 2
    }
}

fn pins(port: PicPort, levels: u8) -> u8
    ensures { result ≡ pins port levels }
{
    port.latch & (255 - port.direction) | levels & port.direction
}

fn is_converting(conversion: Conversion) -> bool
    ensures { result ≡ is_converting conversion }
{
    match conversion {
        Conversion::Idle => false,
        Conversion::Channel(_) | Conversion::Unsupported => true,
    }
}
