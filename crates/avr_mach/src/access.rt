//! Accesses to the I/O space.

ghost use Rattle.std.specs.Prelude.{◌≡◌, ◌<◌, ℕ, if◌then◌else◌};
ghost use Rattle.avr_devices.specs.Part.{mega16};
ghost use Rattle.avr_mach.specs.Exec.{exec};
ghost use Rattle.avr_mach.specs.Groups.{group_of};
ghost use Rattle.avr_mach.specs.declared.exec.Group.TheVariants as Group;
ghost use Rattle.avr_mach.specs.Access.{stored, bit_cleared, bit_made};
ghost use Rattle.avr_mach.specs.Insn.{FieldsFit};
ghost use Rattle.avr_mach.specs.State.{act, with_reg};

use crate::arithmetic::next;
use crate::insn::AvrInsn;
use crate::state::{Acted, AvrState, Flow};
use avr_devices::{Answer, IoRegister, register_at};
use chip_tables::{Env, Poll, bit_mask, bit_of};

impl AvrState {
    /// What an access to the I/O space does.
    pub(crate) fn access(&mut self, env: &Env, insn: AvrInsn) -> Acted
        requires fits { FieldsFit insn }
        requires group { group_of insn ≡ Group.Access }
        ensures state { (here : ℕ) → self.new ≡ (exec mega16 env.now insn here self.old).state }
        ensures acted { (here : ℕ) → result ≡ (exec mega16 env.now insn here self.old).acted }
        ensures cycles { result.cycles < 8 }
    {
        match insn {
            AvrInsn::In { d, a } => {
                let answer = self.read_in(env, register_at(a));
                self.load(d, answer, 1)
            }
            AvrInsn::Out { a, r } => self.store(register_at(a), self.reg(r), 1),
            AvrInsn::Cbi { a, b } => self.clear_bit(register_at(a), b),
            AvrInsn::Sbi { a, b } => self.set_bit(register_at(a), b),
            AvrInsn::Sbic { a, b } => {
                let answer = self.read_bit(env, register_at(a));
                skip_where(answer, !bit_of(answer.value, b))
            }
            AvrInsn::Sbis { a, b } => {
                let answer = self.read_bit(env, register_at(a));
                skip_where(answer, bit_of(answer.value, b))
            }
            // No other instruction is of the group.
            _ => next(1),
        }
    }

    /// Loads a register with what was read.
    pub(crate) fn load(&mut self, d: u8, answer: Answer, cycles: u8) -> Acted
        requires { d < 32 }
        ensures state { self.new ≡ with_reg self.old d answer.value }
        ensures acted { result ≡ act Flow.Next cycles answer.poll None }
    {
        self.regs[d as usize] = answer.value;
        Acted {
            flow: Flow::Next,
            cycles,
            poll: answer.poll,
            sent: None,
        }
    }

    fn clear_bit(&mut self, register: IoRegister, b: u8) -> Acted
        requires { b < 8 }
        ensures state { self.new ≡ (bit_cleared self.old register b).state }
        ensures acted { result ≡ (bit_cleared self.old register b).acted }
    {
        let byte = self.read_plain(register).value;
        self.store(register, byte & (255 - bit_mask(b)), 2)
    }

    fn set_bit(&mut self, register: IoRegister, b: u8) -> Acted
        requires { b < 8 }
        ensures state { self.new ≡ (bit_made self.old register b).state }
        ensures acted { result ≡ (bit_made self.old register b).acted }
    {
        let byte = self.read_plain(register).value;
        self.store(register, byte | bit_mask(b), 2)
    }

    fn store(&mut self, register: IoRegister, x: u8, cycles: u8) -> Acted
        requires { cycles < 8 }
        ensures state { self.new ≡ (stored self.old register x cycles).state }
        ensures acted { result ≡ (stored self.old register x cycles).acted }
    {
        let sent = self.write_io(register, x, cycles);
        Acted {
            flow: Flow::Next,
            cycles,
            poll: Poll::NoPoll,
            sent,
        }
    }
}

/// A skip by a test of what was read.
fn skip_where(answer: Answer, test: bool) -> Acted
    ensures { result ≡ act (if test then Flow.Skip else Flow.Next) 1 answer.poll None }
{
    Acted {
        flow: if test { Flow::Skip } else { Flow::Next },
        cycles: 1,
        poll: answer.poll,
        sent: None,
    }
}
