//! The registers of the file.

ghost use Rattle.std.specs.Prelude.{◌≡◌, ◌<◌};
ghost use Rattle.pic_devices.specs.declared.part.TheConstants.{FILE_SIZE};
ghost use Rattle.pic_devices.specs.FileSpace.{f628_register, f877_register, device_register, register_at, place_at, IsWithin};

use crate::part::{BANK_SIZE, PicPart, cell_of};

/// A special function register, by its name in the PIC16F62X and PIC16F87X data sheets.
#[derive(Clone, Copy, Debug, PartialEq, Eq)]
pub enum PicRegister {
    /// INDF: what FSR points to.
    Indf,
    /// PCL: low byte of the place.
    Pcl,
    /// STATUS: the flags and the bank bits.
    Status,
    /// FSR: the pointer.
    Fsr,
    /// PCLATH: high bits of a place.
    Pclath,
    /// Port A.
    Porta,
    /// Port B.
    Portb,
    /// Port C.
    Portc,
    /// Port D.
    Portd,
    /// Port E.
    Porte,
    /// Directions of port A.
    Trisa,
    /// Directions of port B.
    Trisb,
    /// Directions of port C.
    Trisc,
    /// Directions of port D.
    Trisd,
    /// Directions of port E.
    Trise,
    /// Flags of the timer and the serial port.
    Pir1,
    /// Low byte of timer 1.
    Tmr1l,
    /// High byte of timer 1.
    Tmr1h,
    /// Control of timer 1.
    T1con,
    /// Low byte of the compare register.
    Ccpr1l,
    /// High byte of the compare register.
    Ccpr1h,
    /// Mode of the compare register.
    Ccp1con,
    /// Control of the receiver.
    Rcsta,
    /// The byte that is sent.
    Txreg,
    /// The byte that was received.
    Rcreg,
    /// Control and status of the transmitter.
    Txsta,
    /// The serial port's divisor.
    Spbrg,
    /// Control of the comparators.
    Cmcon,
    /// Control of timer 2, the modulator's.
    T2con,
    /// Period of the modulator.
    Pr2,
    /// Duty of the modulator.
    Ccpr2l,
    /// Mode of the modulator.
    Ccp2con,
    /// High byte of the converter's result.
    Adresh,
    /// Low byte of the converter's result.
    Adresl,
    /// Control and status of the converter.
    Adcon0,
    /// The converter's pins.
    Adcon1,
    /// The EEPROM's byte.
    Eedata,
    /// The EEPROM's address.
    Eeadr,
    /// Control of the EEPROM.
    Eecon1,
    /// The EEPROM's key.
    Eecon2,
    /// An address without a register.
    Absent,
}

/// What is at an address of the file.
#[derive(Clone, Copy, Debug, PartialEq, Eq)]
pub enum PicPlace {
    /// A byte of RAM, by its number, below 512.
    Ram(u16),
    Special(PicRegister),
}

/// What is at an address of the file, of which the two high bits are the bank.
pub fn place_at(part: PicPart, address: u16) -> PicPlace
    requires { address < FILE_SIZE }
    ensures value { result ≡ place_at part address }
    ensures within { IsWithin result }
{
    if part.is_ram(address) {
        PicPlace::Ram(cell_of(address))
    } else {
        PicPlace::Special(register_at(part, address))
    }
}

fn register_at(part: PicPart, address: u16) -> PicRegister
    ensures { result ≡ register_at part address }
{
    match address % BANK_SIZE {
        0x00 => PicRegister::Indf,
        0x02 => PicRegister::Pcl,
        0x03 => PicRegister::Status,
        0x04 => PicRegister::Fsr,
        0x0a => PicRegister::Pclath,
        _ => device_register(part, address),
    }
}

fn device_register(part: PicPart, address: u16) -> PicRegister
    ensures { result ≡ device_register part address }
{
    match address {
        0x05 => PicRegister::Porta,
        0x06 => PicRegister::Portb,
        0x0c => PicRegister::Pir1,
        0x0e => PicRegister::Tmr1l,
        0x0f => PicRegister::Tmr1h,
        0x10 => PicRegister::T1con,
        0x15 => PicRegister::Ccpr1l,
        0x16 => PicRegister::Ccpr1h,
        0x17 => PicRegister::Ccp1con,
        0x18 => PicRegister::Rcsta,
        0x19 => PicRegister::Txreg,
        0x1a => PicRegister::Rcreg,
        0x85 => PicRegister::Trisa,
        0x86 => PicRegister::Trisb,
        0x98 => PicRegister::Txsta,
        0x99 => PicRegister::Spbrg,
        _ => match part {
            PicPart::F628 => f628_register(address),
            PicPart::F877 => f877_register(address),
        },
    }
}

fn f628_register(address: u16) -> PicRegister
    ensures { result ≡ f628_register address }
{
    match address {
        0x1f => PicRegister::Cmcon,
        0x9a => PicRegister::Eedata,
        0x9b => PicRegister::Eeadr,
        0x9c => PicRegister::Eecon1,
        0x9d => PicRegister::Eecon2,
        _ => PicRegister::Absent,
    }
}

fn f877_register(address: u16) -> PicRegister
    ensures { result ≡ f877_register address }
{
    match address {
        0x07 => PicRegister::Portc,
        0x08 => PicRegister::Portd,
        0x09 => PicRegister::Porte,
        0x12 => PicRegister::T2con,
        0x1b => PicRegister::Ccpr2l,
        0x1d => PicRegister::Ccp2con,
        0x1e => PicRegister::Adresh,
        0x1f => PicRegister::Adcon0,
        0x87 => PicRegister::Trisc,
        0x88 => PicRegister::Trisd,
        0x89 => PicRegister::Trise,
        0x92 => PicRegister::Pr2,
        0x9e => PicRegister::Adresl,
        0x9f => PicRegister::Adcon1,
        0x10c => PicRegister::Eedata,
        0x10d => PicRegister::Eeadr,
        0x18c => PicRegister::Eecon1,
        0x18d => PicRegister::Eecon2,
        _ => PicRegister::Absent,
    }
}
