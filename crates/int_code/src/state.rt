//! What operations read and write.

ghost use Rattle.std.specs.Prelude.{◌≡◌, length, slice_index_or, IfOk};
ghost use Rattle.int_code.specs.Store.{start, opened};
ghost use Rattle.int_code.specs.Held.{store_of, SameSizes};
ghost use Rattle.int_code.specs.Stands.{IsIdle};

use crate::op::IntProgram;
use ladder_meaning::reading::Reading;
use std::alloc::{AllocError, Global};

/// The high byte of a persistent variable, which waits to be written to the EEPROM.
#[derive(Clone, Copy, Debug, PartialEq, Eq)]
pub struct Pending {
    /// The variable's number.
    pub variable: u8,
    pub byte: u8,
}

/// The devices. What they keep from cycle to cycle stands first.
#[derive(Clone, Copy, Debug)]
pub struct Devices {
    /// The bytes of the EEPROM.
    pub eeprom: [u8; 512],
    /// The high byte that waits to be written, if there is one.
    pub pending: Option<Pending>,
    /// The duty of the PWM, 0 to 100 percent.
    pub duty: u8,
    /// Whether the transmitter sends.
    pub sending: bool,
    /// Whether the EEPROM writes.
    pub writing: bool,
    /// The byte that was received, as long as it is not taken.
    pub received: Option<u8>,
    /// The byte that this cycle sent, if it sent one.
    pub sent: Option<u8>,
}

/// A level for each bit and each output, and a number for each variable, by their numbers; and the devices.
#[derive(Drop)]
pub struct State {
    pub bits: Vec<bool>,
    pub outputs: Vec<bool>,
    pub numbers: Vec<i16>,
    pub devices: Devices,
}

impl State {
    /// The state of a program before its first cycle.
    pub fn new(alloc: Global, program: &IntProgram, eeprom: &[u8; 512]) -> Result<State, AllocError>
        requires { length program.now.starts ≡ program.now.variables }
        ensures store { IfOk result (λ s. store_of s ≡ start program.now.starts (λ k. slice_index_or eeprom.now k 0)) }
        ensures bits { IfOk result (λ s. length s.bits.items ≡ program.now.bits) }
        ensures outputs { IfOk result (λ s. length s.outputs.items ≡ program.now.outputs) }
        ensures numbers { IfOk result (λ s. length s.numbers.items ≡ program.now.variables) }
    {
        let bits = vec![in alloc; false; program.bits as usize]?;
        let outputs = vec![in alloc; false; program.outputs as usize]?;
        let numbers = program.starts.as_slice().to_vec(alloc)?;
        let devices = Devices {
            eeprom: *eeprom,
            pending: None,
            duty: 0,
            sending: false,
            writing: false,
            received: None,
            sent: None,
        };
        Ok(State {
            bits,
            outputs,
            numbers,
            devices,
        })
    }

    /// A cycle begins: the devices are as the reading says, and nothing is sent.
    pub(crate) fn open(&mut self, reading: &Reading)
        ensures store { store_of self.new ≡ opened reading.now (store_of self.old) }
        ensures idle { IsIdle self.new }
        ensures sizes { SameSizes self.old self.new }
    {
        self.devices.sending = reading.tx_busy;
        self.devices.writing = reading.ee_busy;
        self.devices.received = reading.rx;
        self.devices.sent = None;
    }
}
