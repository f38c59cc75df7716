//! What the byte machine holds.

use crate::prim::FlagKind;
use chip_tables::{DATA_ADDRESSES, EEPROM_MOST, PinReading, Scratch, Target};

/// The flag that the last comparison left.
#[derive(Clone, Copy)]
pub struct Flag {
    pub kind: FlagKind,
    pub value: bool,
}

/// The cells of data memory and the devices of a chip, as far as primitives use them.
#[derive(Drop)]
pub struct Store {
    pub target: Target,
    pub scratch: Scratch,
    /// The cells by their addresses.
    pub cells: [u8; DATA_ADDRESSES],
    /// The latches of the ports, from A on.
    pub latches: [u8; 5],
    pub eeprom: [u8; EEPROM_MOST],
    /// The EEPROM's address.
    pub address: u16,
    /// The channel that is converted.
    pub channel: u8,
    /// Whether a channel was chosen whose value was not read yet. Pins with analog channels have no levels meanwhile.
    pub converting: bool,
    /// What the conversion gave.
    pub converted: u16,
    /// The register of the duty.
    pub duty: u8,
    /// None where no comparison stands.
    pub flag: Option<Flag>,
    /// What the pins and the devices show. `rx` is `None` once the byte was taken; `tx_busy` and `ee_busy` are set where a byte is sent or written.
    pub reading: PinReading,
}
