//! The devices of a PIC16F628 or PIC16F877 and the file registers through which a program uses them, as far
//! as this project's programs need them.
#![tactic(auto)]

mod devices;
mod file_space;
mod part;
mod polls;
mod reads;
mod writes;

pub use devices::{
    PicConverter, PicDevices, PicEeprom, PicModulator, PicPort, PicSerial, PicTimer, Unlock,
};
pub use file_space::{PicPlace, PicRegister, place_at};
pub use part::{FILE_SIZE, PicPart};
