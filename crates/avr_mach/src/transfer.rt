//! Copies, and accesses to data memory.

ghost use Rattle.std.specs.Prelude.{◌≡◌, ◌<◌, ℕ};
ghost use Rattle.avr_devices.specs.Part.{mega16};
ghost use Rattle.avr_mach.specs.Exec.{exec};
ghost use Rattle.avr_mach.specs.Groups.{group_of};
ghost use Rattle.avr_mach.specs.declared.exec.Group.TheVariants as Group;
ghost use Rattle.avr_mach.specs.Insn.{FieldsFit};
ghost use Rattle.avr_mach.specs.State.{reg};
ghost use Rattle.avr_mach.specs.Transfer.{stored_at, stored_at_x};

use crate::arithmetic::next;
use crate::insn::AvrInsn;
use crate::state::{Acted, AvrState, Flow};
use chip_tables::{Env, Poll};

impl AvrState {
    /// What a copy or an access to data memory does.
    pub(crate) fn transfer(&mut self, env: &Env, insn: AvrInsn) -> Acted
        requires fits { FieldsFit insn }
        requires group { group_of insn ≡ Group.Transfer }
        ensures state { (here : ℕ) → self.new ≡ (exec mega16 env.now insn here self.old).state }
        ensures acted { (here : ℕ) → result ≡ (exec mega16 env.now insn here self.old).acted }
        ensures cycles { result.cycles < 8 }
    {
        match insn {
            AvrInsn::Mov { d, r } => {
                self.regs[d as usize] = self.regs[r as usize];
                next(1)
            }
            AvrInsn::Ldi { d, k } => {
                self.regs[d as usize] = k;
                next(1)
            }
            AvrInsn::Lds { d, address } => {
                let answer = self.read_lds(env, address);
                self.load(d, answer, 2)
            }
            AvrInsn::Sts { address, r } => self.store_at(address, self.reg(r)),
            AvrInsn::Ldd { d, q } => {
                let answer = self.read_data(self.pointer(28).wrapping_add(u16::from(q)));
                self.load(d, answer, 2)
            }
            AvrInsn::Std { q, r } => {
                self.store_at(self.pointer(28).wrapping_add(u16::from(q)), self.reg(r))
            }
            AvrInsn::St { r } => self.store_at_x(r),
            // No other instruction is of the group.
            _ => next(1),
        }
    }

    fn store_at_x(&mut self, r: u8) -> Acted
        requires { r < 32 }
        ensures state { self.new ≡ (stored_at_x mega16 self.old (reg self.old r)).state }
        ensures acted { result ≡ (stored_at_x mega16 self.old (reg self.old r)).acted }
    {
        let address = self.pointer(26);
        let acted = self.store_at(address, self.reg(r));
        self.put_pointer(26, address.wrapping_add(1));
        acted
    }

    fn store_at(&mut self, address: u16, x: u8) -> Acted
        ensures state { self.new ≡ (stored_at mega16 self.old address x).state }
        ensures acted { result ≡ (stored_at mega16 self.old address x).acted }
    {
        let sent = self.write_data(address, x, 2);
        Acted {
            flow: Flow::Next,
            cycles: 2,
            poll: Poll::NoPoll,
            sent,
        }
    }
}
