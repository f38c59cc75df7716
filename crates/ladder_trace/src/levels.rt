//! What inputs and devices have in a step.

ghost use Rattle.std.specs.Prelude.{◌≡◌, ◌<◌, length, IfOk};
ghost use Rattle.ladder_trace.specs.Token.{level, give_input, give_analog, give_byte, at_rest, begun};
ghost use Rattle.texts.specs.Keys.{Takes};
ghost use Rattle.ladder_trace.specs.Held.{reading};

use ladder_meaning::reading::Reading;
use ladder_tree::limits::ANALOG_NUMBER;
use ladder_tree::names::Names;
use ld_base::list::List;
use std::alloc::{AllocError, Global};
use texts::digits::digits_to;

/// What inputs and devices have in a step, by the order of the project's names.
#[derive(Drop)]
pub struct Levels {
    pub inputs: Vec<bool>,
    pub analog: Vec<i16>,
    pub rx: Option<u8>,
    pub tx_busy: bool,
    pub ee_busy: bool,
}

impl Levels {
    /// All is 0, no byte came, and no device is busy.
    pub fn new(alloc: Global, names: &Names) -> Result<Levels, AllocError>
        ensures { IfOk result (λ levels. reading levels ≡ at_rest names.now) }
    {
        Ok(Levels {
            inputs: vec![in alloc; false; names.inputs.len()]?,
            analog: vec![in alloc; 0i16; names.analog.len()]?,
            rx: None,
            tx_busy: false,
            ee_busy: false,
        })
    }

    /// Begins a step: inputs and analog inputs have what they had, and the rest is gone.
    pub fn begin(&mut self)
        ensures { reading self.new ≡ begun (reading self.old) }
    {
        self.rx = None;
        self.tx_busy = false;
        self.ee_busy = false;
    }

    /// A reading of its own.
    pub fn reading(&self, alloc: Global) -> Result<Reading, AllocError>
        ensures { IfOk result (λ copy. copy ≡ reading self.now) }
    {
        let inputs = Vec::from_slice(alloc, self.inputs.as_slice())?;
        let analog = Vec::from_slice(alloc, self.analog.as_slice())?;
        Ok(Reading {
            inputs: List::from_vec(inputs),
            analog: List::from_vec(analog),
            rx: self.rx,
            tx_busy: self.tx_busy,
            ee_busy: self.ee_busy,
        })
    }

    /// Gives an input its level, and says whether the value is one.
    pub fn give_input(&mut self, place: usize, value: &[u8]) -> bool
        requires { place < length self.old.inputs.items }
        ensures given { Takes (give_input place value.now (reading self.old)) result (reading self.new) }
        ensures inputs { length self.new.inputs.items ≡ length self.old.inputs.items }
        ensures analog { length self.new.analog.items ≡ length self.old.analog.items }
    {
        match level(value) {
            None => false,
            Some(on) => {
                self.inputs[place] = on;
                true
            }
        }
    }

    /// Gives an analog input its number, and says whether the value is one.
    pub fn give_analog(&mut self, place: usize, value: &[u8]) -> bool
        requires { place < length self.old.analog.items }
        ensures given { Takes (give_analog place value.now (reading self.old)) result (reading self.new) }
        ensures inputs { length self.new.inputs.items ≡ length self.old.inputs.items }
        ensures analog { length self.new.analog.items ≡ length self.old.analog.items }
    {
        match digits_to(ANALOG_NUMBER, value) {
            None => false,
            Some(number) => {
                self.analog[place] = number as i16;
                true
            }
        }
    }

    /// Gives the byte that was received, and says whether the value is one.
    pub fn give_byte(&mut self, value: &[u8]) -> bool
        ensures given { Takes (give_byte value.now (reading self.old)) result (reading self.new) }
        ensures inputs { length self.new.inputs.items ≡ length self.old.inputs.items }
        ensures analog { length self.new.analog.items ≡ length self.old.analog.items }
    {
        match digits_to(255, value) {
            None => false,
            Some(byte) => {
                self.rx = Some(byte as u8);
                true
            }
        }
    }
}

/// The level that a value says.
fn level(value: &[u8]) -> Option<bool>
    ensures { result ≡ level value.now }
{
    if value == b"0".as_slice() {
        Some(false)
    } else if value == b"1".as_slice() {
        Some(true)
    } else {
        None
    }
}
