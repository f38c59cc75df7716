//! The machine that runs a program as its text says, cycle by cycle.

ghost use Rattle.std.specs.Prelude.{◌≡◌, length, slice_index_or, IfOk};
ghost use Rattle.int_code.specs.Meaning as meaning;
ghost use Rattle.int_code.specs.Store.{start};
ghost use Rattle.int_sim.specs.Machine.{view_of};
ghost use Rattle.interp_code.specs.Machine.{state_of, IsRunnable};

use crate::program::InterpProgram;
use int_code::op::IntProgram;
use int_sim::Sim;
use ladder_meaning::reading::{Reading, View};
use ladder_tree::names::Names;
use std::alloc::{AllocError, Global};
use std::marker::Model;

/// A program that a text says, with its names, and its state between cycles.
#[derive(Drop)]
pub struct Interp {
    names: Names,
    sim: Sim,
}

impl Model for Interp {
    ghost use Rattle.int_sim.specs.Machine.{HasPlaces};
    ghost use Rattle.interp_code.specs.Machine.{Running};

    ghost Value = { Running };

    ghost view = { λ m. record { names = m.names; program = m.sim.program; state = m.sim.state } };

    ghost invariant = { λ m. HasPlaces m.names m.sim.program };
}

impl Interp {
    /// The program before its first cycle, with the bytes of an EEPROM.
    pub fn new(alloc: Global, p: InterpProgram, ee: &[u8; 512]) -> Result<Interp, AllocError>
        requires { IsRunnable p }
        ensures names { IfOk result (λ m. m.names ≡ p.names) }
        ensures program { IfOk result (λ m. m.program ≡ p.program) }
        ensures start { IfOk result (λ m. state_of m ≡ start p.program.starts (λ k. slice_index_or ee.now k 0)) }
    {
        let sim = Sim::new(alloc, p.program, ee)?;
        Ok(Interp {
            names: p.names,
            sim,
        })
    }

    /// The program's names.
    pub fn names(&self) -> &Names
        ensures { result.now ≡ self.now.names }
    {
        &self.names
    }

    /// The program that runs.
    pub fn program(&self) -> &IntProgram
        ensures { result.now ≡ self.now.program }
    {
        self.sim.program()
    }

    /// Runs the operations once, on a reading of the program's sizes. It takes no memory. The answer is how many
    /// operations were executed.
    pub fn cycle(&mut self, r: &Reading) -> u32
        requires inputs { length r.now.inputs ≡ self.old.program.inputs }
        requires analogs { length r.now.analog ≡ self.old.program.analogs }
        ensures names { self.new.names ≡ self.old.names }
        ensures program { self.new.program ≡ self.old.program }
        ensures state { state_of self.new ≡ (meaning.cycle r.now self.old.program.ops (state_of self.old)).store }
        ensures count { result ≡ (meaning.cycle r.now self.old.program.ops (state_of self.old)).count }
    {
        self.sim.cycle(r)
    }

    /// What the program shows, in the order of its names.
    pub fn view(&self, alloc: Global) -> Result<View, AllocError>
        ensures { IfOk result (λ v. v ≡ view_of self.now.names self.now.program (state_of self.now)) }
    {
        self.sim.view(alloc, &self.names)
    }

    /// The simulator of the program, for a project whose names have places in it.
    pub fn into_sim(self) -> Sim
        ensures { result ≡ record { program = self.program; state = self.state } }
    {
        self.sim
    }
}
