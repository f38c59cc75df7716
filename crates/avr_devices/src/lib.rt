//! The devices of an ATmega16 and the I/O registers through which a program uses them, as far as this
//! project's programs need them.
#![tactic(auto)]

mod devices;
mod io_space;
pub mod laws;
mod polls;
mod ports;
mod reads;
mod writes;

pub use devices::{
    Answer, AvrDevices, AvrPort, Conversion, Converter, CycleTimer, Eeprom, Modulator, SerialPort,
};
pub use io_space::{IoRegister, register_at};
pub use ports::{
    direction_address, direction_register, latch_address, latch_register, level_address,
    level_register,
};
