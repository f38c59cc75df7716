//! What a cycle is given, and what it shows.

use ladder_tree::element::{Bytes, Nums};
use ld_base::list::List;

/// Levels, in the order of a list of names.
pub type Bits = List<bool>;

/// What a cycle is given, by the order of the project's names. It is held still within the cycle.
#[derive(Drop)]
pub struct Reading {
    /// A level for each input.
    pub inputs: Bits,
    /// A number for each analog name.
    pub analog: Nums,
    /// The byte that was received, if there is one.
    pub rx: Option<u8>,
    /// Whether the transmitter is still sending.
    pub tx_busy: bool,
    /// Whether the EEPROM is still writing.
    pub ee_busy: bool,
}

/// What a cycle shows at its end, by the order of the project's names.
#[derive(Drop)]
pub struct View {
    /// A level for each output.
    pub outputs: Bits,
    /// A level for each relay.
    pub relays: Bits,
    /// A number for each variable.
    pub variables: Nums,
    /// The duty in percent, where the project sets one.
    pub pwm: Option<u8>,
    /// The byte that the cycle sent, if it sent one.
    pub sent: Option<u8>,
    /// The bytes of the persistent variables, where there are any.
    pub eeprom: Option<Bytes>,
}
