//! The registers of the I/O space.

ghost use Rattle.std.specs.Prelude.{◌≡◌};
ghost use Rattle.avr_devices.specs.IoSpace.{register_at};

/// A register of the I/O space, by its name in the ATmega16 data sheet, "Register Summary".
#[derive(Clone, Copy, Debug, PartialEq, Eq)]
pub enum IoRegister {
    /// Low byte of the converter's result.
    Adcl,
    /// High byte of the converter's result.
    Adch,
    /// Control and status of the converter.
    Adcsra,
    /// The converter's channel and reference.
    Admux,
    /// Low byte of the serial port's divisor.
    Ubrrl,
    /// Control of the serial port.
    Ucsrb,
    /// Status of the serial port.
    Ucsra,
    /// The byte that was received or is sent.
    Udr,
    /// Levels at the pins of port D.
    Pind,
    /// Directions of port D.
    Ddrd,
    /// Latches of port D.
    Portd,
    /// Levels at the pins of port C.
    Pinc,
    /// Directions of port C.
    Ddrc,
    /// Latches of port C.
    Portc,
    /// Levels at the pins of port B.
    Pinb,
    /// Directions of port B.
    Ddrb,
    /// Latches of port B.
    Portb,
    /// Levels at the pins of port A.
    Pina,
    /// Directions of port A.
    Ddra,
    /// Latches of port A.
    Porta,
    /// Control of the EEPROM.
    Eecr,
    /// The EEPROM's byte.
    Eedr,
    /// Low byte of the EEPROM's address.
    Eearl,
    /// High byte of the EEPROM's address.
    Eearh,
    /// High byte of the serial port's divisor.
    Ubrrh,
    /// Duty of the modulator.
    Ocr2,
    /// Control of the modulator.
    Tccr2,
    /// Low byte of the cycle timer's count.
    Ocr1al,
    /// High byte of the cycle timer's count.
    Ocr1ah,
    /// Mode and prescaler of the cycle timer.
    Tccr1b,
    /// Outputs and mode of the cycle timer.
    Tccr1a,
    /// Flags of the timers.
    Tifr,
    /// Low byte of the stack pointer.
    Spl,
    /// High byte of the stack pointer.
    Sph,
    /// The status register.
    Sreg,
    /// No register of this machine: it reads 0 and takes no write.
    Absent,
}

/// The register at an I/O address.
pub fn register_at(a: u8) -> IoRegister
    ensures { result ≡ register_at a }
{
    match a {
        0x04 => IoRegister::Adcl,
        0x05 => IoRegister::Adch,
        0x06 => IoRegister::Adcsra,
        0x07 => IoRegister::Admux,
        0x09 => IoRegister::Ubrrl,
        0x0a => IoRegister::Ucsrb,
        0x0b => IoRegister::Ucsra,
        0x0c => IoRegister::Udr,
        0x10 => IoRegister::Pind,
        0x11 => IoRegister::Ddrd,
        0x12 => IoRegister::Portd,
        0x13 => IoRegister::Pinc,
        0x14 => IoRegister::Ddrc,
        0x15 => IoRegister::Portc,
        0x16 => IoRegister::Pinb,
        0x17 => IoRegister::Ddrb,
        0x18 => IoRegister::Portb,
        0x19 => IoRegister::Pina,
        0x1a => IoRegister::Ddra,
        0x1b => IoRegister::Porta,
        0x1c => IoRegister::Eecr,
        0x1d => IoRegister::Eedr,
        0x1e => IoRegister::Eearl,
        0x1f => IoRegister::Eearh,
        0x20 => IoRegister::Ubrrh,
        0x23 => IoRegister::Ocr2,
        0x25 => IoRegister::Tccr2,
        0x2a => IoRegister::Ocr1al,
        0x2b => IoRegister::Ocr1ah,
        0x2e => IoRegister::Tccr1b,
        0x2f => IoRegister::Tccr1a,
        0x38 => IoRegister::Tifr,
        0x3d => IoRegister::Spl,
        0x3e => IoRegister::Sph,
        0x3f => IoRegister::Sreg,
        _ => IoRegister::Absent,
    }
}
