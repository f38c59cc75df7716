//! What writes to the device registers do.

ghost use Rattle.std.specs.Prelude.{◌≡◌};
ghost use Rattle.pic_devices.specs.Device.{sent_by, conversion_by};
ghost use Rattle.pic_devices.specs.DeviceWrites.{device_written, bit_made, sent_to, flags_written, converter_written, byte_sent, eeprom_stored, eeprom_fetched, eeprom_written, key_written, is_second_due, is_open, unlock_passed, instruction_passed};

use crate::devices::{PicConverter, PicDevices, Unlock, is_of_data};
use crate::file_space::PicRegister;
use crate::part::PicPart;
use avr_devices::Conversion;
use chip_tables::bit_of;

impl PicDevices {
    /// A device register takes a byte; gives the byte that is sent by that.
    pub fn write(&mut self, part: PicPart, register: PicRegister, x: u8) -> Option<u8>
        ensures state { self.new ≡ device_written part self.old register x }
        ensures sent { result ≡ sent_to self.old register x }
    {
        match register {
            PicRegister::Porta => self.port_a.latch = x,
            PicRegister::Portb => self.port_b.latch = x,
            PicRegister::Portc => self.port_c.latch = x,
            PicRegister::Portd => self.port_d.latch = x,
            PicRegister::Porte => self.port_e.latch = x,
            PicRegister::Trisa => self.port_a.direction = x,
            PicRegister::Trisb => self.port_b.direction = x,
            PicRegister::Trisc => self.port_c.direction = x,
            PicRegister::Trisd => self.port_d.direction = x,
            PicRegister::Trise => self.port_e.direction = x,
            PicRegister::Pir1 => self.write_flags(x),
            PicRegister::Tmr1l => self.timer.count_low = x,
            PicRegister::Tmr1h => self.timer.count_high = x,
            PicRegister::T1con => self.timer.control = x,
            PicRegister::Ccpr1l => self.timer.compare_low = x,
            PicRegister::Ccpr1h => self.timer.compare_high = x,
            PicRegister::Ccp1con => self.timer.mode = x,
            PicRegister::Rcsta => self.serial.receive = x,
            PicRegister::Txreg => return self.send(x),
            PicRegister::Txsta => self.serial.transmit = x,
            PicRegister::Spbrg => self.serial.rate = x,
            PicRegister::Cmcon => self.comparator = x,
            PicRegister::T2con => self.modulator.control = x,
            PicRegister::Pr2 => self.modulator.period = x,
            PicRegister::Ccpr2l => self.modulator.duty = x,
            PicRegister::Ccp2con => self.modulator.mode = x,
            PicRegister::Adresh => {
                self.converter.result = u16::from(x) * 256 + self.converter.result % 256;
            }
            PicRegister::Adresl => {
                self.converter.result = self.converter.result / 256 * 256 + u16::from(x);
            }
            PicRegister::Adcon0 => self.converter.write_control(x),
            PicRegister::Adcon1 => self.converter.pins = x,
            PicRegister::Eedata => self.eeprom.data_byte = x,
            PicRegister::Eeadr => self.eeprom.address = x,
            PicRegister::Eecon1 => self.write_eeprom_control(part, x),
            PicRegister::Eecon2 => self.write_key(x),
            PicRegister::Rcreg | PicRegister::Absent => {}
            PicRegister::Indf | PicRegister::Pcl | PicRegister::Status => {}
            PicRegister::Fsr | PicRegister::Pclath => {}
        }
        None
    }

    /// BSF of a bit of a device register, with which it becomes the byte `x`; gives the byte that is sent by that.
    pub fn make_bit(&mut self, part: PicPart, register: PicRegister, b: u8, x: u8) -> Option<u8>
        ensures state { self.new ≡ bit_made part self.old register b x }
        ensures sent { result ≡ sent_to self.old register x }
    {
        match register {
            PicRegister::Eecon1 => {
                if b == 1 {
                    self.store_byte(part);
                }
                self.write_eeprom_control(part, x);
                None
            }
            _ => self.write(part, register, x),
        }
    }

    /// An instruction ends, also for the unlocking of the EEPROM.
    pub fn pass(&mut self)
        ensures { self.new ≡ instruction_passed self.old }
    {
        self.eeprom.unlock = self.eeprom.unlock.passed();
    }

    fn write_flags(&mut self, x: u8)
        ensures { self.new ≡ flags_written self.old x }
    {
        self.flags = x;
        self.timer.flag = self.timer.flag && bit_of(x, 2);
    }

    /// EECON1 takes a byte.
    fn write_eeprom_control(&mut self, part: PicPart, x: u8)
        ensures { self.new ≡ eeprom_written part self.old x }
    {
        self.fetch_byte(part, x);
        self.eeprom.control = x;
    }

    fn fetch_byte(&mut self, part: PicPart, x: u8)
        ensures { self.new ≡ eeprom_fetched part self.old x }
    {
        if bit_of(x, 0) && is_of_data(part, x) {
            let address = self.eeprom.address(part);
            self.eeprom.data_byte = self.eeprom.bytes[address as usize];
        }
    }

    /// EECON2 takes a byte.
    fn write_key(&mut self, x: u8)
        ensures { self.new ≡ key_written self.old x }
    {
        if x == 0x55 && bit_of(self.eeprom.control, 2) {
            self.eeprom.unlock = Unlock::FirstWritten;
        } else if x == 0xaa && self.eeprom.unlock.is_second_due() {
            self.eeprom.unlock = Unlock::SecondWritten;
        }
    }

    fn store_byte(&mut self, part: PicPart)
        ensures { self.new ≡ eeprom_stored part self.old }
    {
        if self.eeprom.unlock.is_open()
            && (bit_of(self.eeprom.control, 2)
                && (is_of_data(part, self.eeprom.control) && !self.reading.ee_busy))
        {
            let address = self.eeprom.address(part);
            self.eeprom.bytes[address as usize] = self.eeprom.data_byte;
            self.reading.ee_busy = true;
        }
    }

    fn send(&mut self, x: u8) -> Option<u8>
        ensures state { self.new ≡ byte_sent self.old }
        ensures sent { result ≡ sent_by self.old x }
    {
        if self.is_serial_on() && !self.reading.tx_busy {
            self.reading.tx_busy = true;
            return Some(x);
        }
        None
    }
}

impl Unlock {
    fn passed(self) -> Unlock
        ensures { result ≡ unlock_passed self }
    {
        match self {
            Unlock::FirstWritten => Unlock::FirstDone,
            Unlock::FirstDone => Unlock::SecondDue,
            Unlock::SecondWritten => Unlock::Open,
            Unlock::Closed | Unlock::SecondDue | Unlock::Open => Unlock::Closed,
        }
    }

    fn is_second_due(self) -> bool
        ensures { result ≡ is_second_due self }
    {
        match self {
            Unlock::SecondDue => true,
            _ => false,
        }
    }

    fn is_open(self) -> bool
        ensures { result ≡ is_open self }
    {
        match self {
            Unlock::Open => true,
            _ => false,
        }
    }
}

impl PicConverter {
    fn write_control(&mut self, x: u8)
        ensures { self.new ≡ converter_written self.old x }
    {
        self.control = x;
        self.conversion = if bit_of(x, 2) {
            conversion_by(x, self.pins)
        } else {
            Conversion::Idle
        };
    }
}

fn conversion_by(control: u8, pins: u8) -> Conversion
    ensures { result ≡ conversion_by control pins }
{
    if control / 64 == 2 && (bit_of(control, 0) && pins == 0x80) {
        Conversion::Channel(control / 8 % 8)
    } else {
        Conversion::Unsupported
    }
}
