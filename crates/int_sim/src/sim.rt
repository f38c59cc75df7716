//! A program that runs.

ghost use Rattle.std.specs.Prelude.{◌≡◌, ◌<◌, ◌≤◌, length, slice_index_or, IfOk};
ghost use Rattle.int_code.specs.Meaning as meaning;
ghost use Rattle.int_code.specs.Store.{start};
ghost use Rattle.int_code.specs.Uses.{is_pwm, has_pwm};
ghost use Rattle.int_code.specs.declared.limits.TheConstants.{MOST_PERSISTENT};
ghost use Rattle.ladder_meaning.specs.View.{bytes_of, sent_of};
ghost use Rattle.int_sim.specs.Machine.{state_of, IsRunnable, HasPlaces, view_of, view_by};

use int_code::cycle::cycle;
use int_code::op::{IntOp, IntProgram};
use int_code::state::State;
use ladder_meaning::reading::{Reading, View};
use ladder_trace::duty::DutyShown;
use ladder_tree::element::Bytes;
use ladder_tree::names::Names;
use ld_base::list::List;
use std::alloc::{AllocError, Global};
use std::marker::Model;

/// A program and its state between cycles.
#[derive(Drop)]
pub struct Sim {
    program: IntProgram,
    /// A level for each bit and each output, a number for each variable, and the devices.
    state: State,
    /// Whether an operation sets the duty of the PWM.
    sets_duty: bool,
}

impl Model for Sim {
    ghost use Rattle.std.specs.Prelude.{◌≡◌};
    ghost use Rattle.int_code.specs.Uses.{has_pwm};
    ghost use Rattle.int_sim.specs.Machine.{Running, IsWhole};

    ghost Value = { Running };

    ghost view = { λ m. record { program = m.program; state = m.state } };

    ghost invariant = { λ m. IsWhole (record { program = m.program; state = m.state }) × (m.sets_duty ≡ has_pwm m.program.ops) };
}

impl Sim {
    /// A program before its first cycle, with the bytes of an EEPROM. It makes the
    /// room for all that cycles write.
    pub fn new(alloc: Global, p: IntProgram, ee: &[u8; 512]) -> Result<Sim, AllocError>
        requires { IsRunnable p }
        ensures program { IfOk result (λ m. m.program ≡ p) }
        ensures start { IfOk result (λ m. state_of m ≡ start p.starts (λ k. slice_index_or ee.now k 0)) }
    {
        let state = State::new(alloc, &p, ee)?;
        let sets_duty = has_pwm(p.ops.as_slice());
        Ok(Sim {
            program: p,
            state,
            sets_duty,
        })
    }

    /// The program that runs.
    pub fn program(&self) -> &IntProgram
        ensures { result.now ≡ self.now.program }
    {
        &self.program
    }

    /// Runs the operations once, on a reading of the program's sizes. It takes no memory. The answer is how many
    /// operations were executed.
    pub fn cycle(&mut self, r: &Reading) -> u32
        requires inputs { length r.now.inputs ≡ self.old.program.inputs }
        requires analogs { length r.now.analog ≡ self.old.program.analogs }
        ensures program { self.new.program ≡ self.old.program }
        ensures state { state_of self.new ≡ (meaning.cycle r.now self.old.program.ops (state_of self.old)).store }
        ensures count { result ≡ (meaning.cycle r.now self.old.program.ops (state_of self.old)).count }
    {
        cycle(self.program.ops.as_slice(), r, &mut self.state)
    }

    /// The number of a variable.
    pub fn value(&self, i: u32) -> i16
        requires { i < self.now.program.variables }
        ensures { result ≡ (state_of self.now).number i }
    {
        self.state.numbers[i as usize]
    }

    /// The level of a bit.
    pub fn bit(&self, i: u32) -> bool
        requires { i < self.now.program.bits }
        ensures { result ≡ (state_of self.now).bit i }
    {
        self.state.bits[i as usize]
    }

    /// The byte that the last cycle sent, if it sent one.
    pub fn sent(&self) -> Option<u8>
        ensures { result ≡ sent_of (state_of self.now).devices.sent }
    {
        self.state.devices.sent
    }

    /// What the program shows of a project whose names have places in it: the duty where an operation sets it.
    pub fn view(&self, alloc: Global, n: &Names) -> Result<View, AllocError>
        requires { HasPlaces n.now self.now.program }
        ensures { IfOk result (λ v. v ≡ view_of n.now self.now.program (state_of self.now)) }
    {
        self.view_by(alloc, n, DutyShown::shown_where(self.sets_duty, None))
    }

    /// The same, with the duty as it is asked for.
    pub fn view_by(&self, alloc: Global, n: &Names, duty: DutyShown) -> Result<View, AllocError>
        requires { HasPlaces n.now self.now.program }
        ensures { IfOk result (λ v. v ≡ view_by duty n.now self.now.program (state_of self.now)) }
    {
        let outputs = self.state.outputs.to_vec(alloc)?;
        let relays = self.state.bits[..n.relays.len()].to_vec(alloc)?;
        let variables = self.state.numbers.to_vec(alloc)?;
        let eeprom = saved(alloc, self.program.persistent, &self.state.devices.eeprom)?;
        Ok(View {
            outputs: List::from_vec(outputs),
            relays: List::from_vec(relays),
            variables: List::from_vec(variables),
            pwm: duty.shown(self.state.devices.duty),
            sent: self.state.devices.sent,
            eeprom,
        })
    }
}

/// The bytes of so many persistent variables, two for each; none where there are no such variables.
fn saved(alloc: Global, persistent: u32, eeprom: &[u8; 512]) -> Result<Option<Bytes>, AllocError>
    requires { persistent ≤ MOST_PERSISTENT }
    ensures { IfOk result (λ bytes. bytes ≡ bytes_of persistent (λ k. slice_index_or eeprom.now k 0)) }
{
    if persistent == 0 {
        return Ok(None);
    }
    let bytes = eeprom[..2 * persistent as usize].to_vec(alloc)?;
    Ok(Some(List::from_vec(bytes)))
}

/// Whether an operation sets the duty.
pub fn has_pwm(ops: &[IntOp]) -> bool
    ensures { result ≡ has_pwm ops.now }
{
    ops.iter().any(is_pwm)
}

fn is_pwm(op: &IntOp) -> bool
    ensures { result ≡ is_pwm op.now }
{
    matches!(op, IntOp::Pwm { .. })
}
