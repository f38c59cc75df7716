//! Where names, memories and wires stand among the numbered bits and variables. The bits are relays, then memories, then
//! start flags, then wires.

ghost use Rattle.std.specs.Prelude.{◌≡◌, ◌≢◌, ◌+◌, ◌^◌, ◌<◌, ◌≤◌, pos, OnOk};
ghost use Rattle.ladder_meaning.specs.Numbers.{period};
ghost use Rattle.ladder_meaning.specs.State.{place_of};
ghost use Rattle.ladder_lower.specs.Apart.{EachApart};
ghost use Rattle.ladder_lower.specs.Wires.{Fits, layout_of, dest_of, source_of, variable_of, number_of, memory_bit, flag_bit, wire};
ghost use Rattle.ladder_lower.specs.Wires.{power, masters, master, spares, spare, wires, in_wire, or_wire};

use crate::places::Places;
use int_code::op::{BitDest, BitSource, NumSource};
use ladder_tree::element::{Name, Operand};
use ladder_tree::names::{Names, begins_with};
use std::alloc::{AllocError, Global};

/// The lists of names, how many memories there are, the cycle in microseconds, and whether there is a master relay.
#[derive(Drop)]
pub struct Layout<'n> {
    pub inputs: Places<'n>,
    pub outputs: Places<'n>,
    pub relays: Places<'n>,
    pub variables: Places<'n>,
    pub analog: Places<'n>,
    pub persistent: Places<'n>,
    pub memories: u32,
    pub cycle: u32,
    pub has_master: bool,
}

impl<'n> Layout<'n> {
    /// The layout of no names.
    pub fn empty(alloc: Global, cycle: u32, has_master: bool) -> Layout<'n>
        ensures cycle { result.cycle ≡ cycle }
        ensures master { result.has_master ≡ has_master }
    {
        Layout {
            inputs: Places::new(alloc),
            outputs: Places::new(alloc),
            relays: Places::new(alloc),
            variables: Places::new(alloc),
            analog: Places::new(alloc),
            persistent: Places::new(alloc),
            memories: 0,
            cycle,
            has_master,
        }
    }

    /// Has these names, and no others.
    pub fn hold(&mut self, names: &'n Names) -> Result<(), AllocError>
        requires { EachApart names.now }
        ensures { OnOk result (self.new ≡ layout_of names.now self.old.cycle self.old.has_master) }
    {
        self.memories = names.memories;
        self.inputs.hold(names.inputs.as_slice())?;
        self.outputs.hold(names.outputs.as_slice())?;
        self.relays.hold(names.relays.as_slice())?;
        self.variables.hold(names.variables.as_slice())?;
        self.analog.hold(names.analog.as_slice())?;
        self.persistent.hold(names.persistent.as_slice())
    }

    /// The bit that a coil writes.
    pub fn dest_of(&self, name: &Name) -> BitDest
        requires { Fits self.now 0 }
        ensures { result ≡ dest_of self.now name.now }
    {
        if begins_with(name, b'Y') {
            BitDest::Y(self.outputs.place(name))
        } else {
            BitDest::B(self.relays.place(name))
        }
    }

    /// The bit that a contact reads.
    pub fn source_of(&self, name: &Name) -> BitSource
        requires { Fits self.now 0 }
        ensures { result ≡ source_of self.now name.now }
    {
        if begins_with(name, b'X') {
            return BitSource::X(self.inputs.place(name));
        }
        if begins_with(name, b'Y') {
            BitSource::Y(self.outputs.place(name))
        } else {
            BitSource::B(self.relays.place(name))
        }
    }

    /// The number of a variable.
    pub fn variable_of(&self, name: &Name) -> u32
        requires { Fits self.now 0 }
        ensures { result ≡ variable_of self.now name.now }
    {
        self.variables.place(name)
    }

    /// The number that an operand reads.
    pub fn number_of(&self, operand: &Operand) -> NumSource
        requires { Fits self.now 0 }
        ensures { result ≡ number_of self.now operand.now }
    {
        match operand {
            Operand::Var(name) => NumSource::V(self.variable_of(name)),
            Operand::Num(number) => NumSource::N(*number),
        }
    }

    /// The number of an analog input.
    pub fn analog_of(&self, name: &Name) -> u32
        requires { Fits self.now 0 }
        ensures { result ≡ place_of self.now.analog name.now }
    {
        self.analog.place(name)
    }

    /// The number of a persistent variable among those.
    pub fn persistent_of(&self, name: &Name) -> u32
        requires { Fits self.now 0 }
        ensures { result ≡ place_of self.now.persistent name.now }
    {
        self.persistent.place(name)
    }

    /// The start flag of a persistent variable.
    pub fn flag_bit(&self, name: &Name) -> u32
        requires { Fits self.now 0 }
        ensures { result ≡ flag_bit self.now name.now }
    {
        self.relays.len() as u32 + (self.memories + self.persistent.place(name))
    }

    /// The bit of a memory.
    pub fn memory_bit(&self, memory: u32) -> u32
        requires { memory_bit self.now memory < 2 ^ 32 }
        ensures { result ≡ memory_bit self.now memory }
    {
        self.relays.len() as u32 + memory
    }

    fn wire(&self, number: u32) -> u32
        requires { wire self.now number < 2 ^ 32 }
        ensures { result ≡ wire self.now number }
    {
        self.relays.len() as u32 + (self.memories + (self.persistent.len() as u32 + number))
    }

    fn masters(&self) -> u32
        ensures { result ≡ masters self.now }
    {
        if self.has_master { 1 } else { 0 }
    }

    /// The wire that an element finds its input on, and leaves its output on.
    pub fn power(&self) -> u32
        requires { Fits self.now 0 }
        ensures { result ≡ power self.now }
    {
        self.wire(0)
    }

    /// The wire of the master relay, where there is one.
    pub fn master(&self) -> u32
        requires { Fits self.now 0 }
        ensures { result ≡ master self.now }
    {
        self.wire(1)
    }

    fn spares(&self) -> u32
        requires { Fits self.now 0 }
        ensures { result ≡ spares self.now }
    {
        (self.memories + self.persistent.len() as u32).min(1)
    }

    /// The wire of an element with a memory or a start flag, for a moment.
    pub fn spare(&self) -> u32
        requires { Fits self.now 0 }
        ensures { result ≡ spare self.now }
    {
        self.wire(1 + self.masters())
    }

    /// How many cycles a delay in microseconds has.
    pub fn period(&self, delay: u32) -> i16
        requires cycle { self.now.cycle ≢ 0 }
        requires fits { period self.now.cycle delay ≤ 32767 }
        ensures { result ≡ pos (period self.now.cycle delay) }
    {
        (delay / self.cycle) as i16
    }

    /// How many wires there are inside `depth` PARALLELs.
    pub fn wires(&self, depth: u32) -> u32
        requires { Fits self.now depth }
        ensures { result ≡ wires self.now depth }
    {
        1 + self.masters() + self.spares() + 2 * depth
    }

    /// The wire that keeps the input of a PARALLEL inside `depth` others.
    pub fn in_wire(&self, depth: u32) -> u32
        requires { Fits self.now (depth + 1) }
        ensures { result ≡ in_wire self.now depth }
    {
        self.wire(self.wires(depth))
    }

    /// The wire that keeps the OR of the branches so far.
    pub fn or_wire(&self, depth: u32) -> u32
        requires { Fits self.now (depth + 1) }
        ensures { result ≡ or_wire self.now depth }
    {
        self.wire(self.wires(depth) + 1)
    }
}
