//! Arithmetic, logic and comparisons, with their flags.

ghost use Rattle.std.specs.Prelude.{◌≡◌, ◌<◌, ℕ};
ghost use Rattle.avr_devices.specs.Part.{mega16};
ghost use Rattle.avr_mach.specs.Arithmetic.{differ, with_sum, difference, with_compared, with_difference, with_result, with_shifted};
ghost use Rattle.avr_mach.specs.Exec.{exec};
ghost use Rattle.avr_mach.specs.Groups.{group_of};
ghost use Rattle.avr_mach.specs.Insn.{FieldsFit};
ghost use Rattle.avr_mach.specs.State.{act, reg};
ghost use Rattle.chip_tables.specs.declared.outside.Env.{Env};
ghost use Rattle.avr_mach.specs.declared.exec.Group.TheVariants as Group;

use crate::insn::AvrInsn;
use crate::state::{Acted, AvrState, Flow};
use chip_tables::{Poll, as_bit, bit_of};

impl AvrState {
    /// What an instruction of arithmetic, logic or comparison does.
    pub(crate) fn arithmetic(&mut self, insn: AvrInsn) -> Acted
        requires fits { FieldsFit insn }
        requires group { group_of insn ≡ Group.Arithmetic }
        ensures state { (env : Env) (here : ℕ) → self.new ≡ (exec mega16 env insn here self.old).state }
        ensures acted { (env : Env) (here : ℕ) → result ≡ (exec mega16 env insn here self.old).acted }
        ensures cycles { result.cycles < 8 }
    {
        match insn {
            AvrInsn::Add { d, r } => self.put_sum(d, self.reg(d), self.reg(r), 0),
            AvrInsn::Adc { d, r } => {
                self.put_sum(d, self.reg(d), self.reg(r), as_bit(self.carry));
            }
            AvrInsn::Sub { d, r } => self.put_difference(d, self.reg(r), 0, true),
            AvrInsn::Sbc { d, r } => {
                self.put_difference(d, self.reg(r), as_bit(self.carry), self.zero);
            }
            AvrInsn::Cp { d, r } => self.compare(self.reg(d), self.reg(r), 0, true),
            AvrInsn::Cpc { d, r } => {
                self.compare(self.reg(d), self.reg(r), as_bit(self.carry), self.zero);
            }
            AvrInsn::Cpi { d, k } => self.compare(self.reg(d), k, 0, true),
            AvrInsn::And { d, r } => self.put_result(d, self.reg(d) & self.reg(r), false),
            AvrInsn::Eor { d, r } => self.put_result(d, self.reg(d) ^ self.reg(r), false),
            AvrInsn::Or { d, r } => self.put_result(d, self.reg(d) | self.reg(r), false),
            AvrInsn::Com { d } => {
                self.put_result(d, 255 - self.reg(d), false);
                self.carry = true;
            }
            AvrInsn::Inc { d } => {
                let x = self.reg(d);
                self.put_result(d, x.wrapping_add(1), x == 127);
            }
            AvrInsn::Dec { d } => {
                let x = self.reg(d);
                self.put_result(d, x.wrapping_sub(1), x == 128);
            }
            AvrInsn::Lsr { d } => {
                let x = self.reg(d);
                self.put_shifted(d, x, x / 2);
            }
            AvrInsn::Ror { d } => {
                let x = self.reg(d);
                self.put_shifted(d, x, as_bit(self.carry) * 128 + x / 2);
            }
            // No other instruction is of the group.
            _ => return next(1),
        }
        next(1)
    }

    pub(crate) fn reg(&self, d: u8) -> u8
        requires { d < 32 }
        ensures { result ≡ reg self.now d }
    {
        self.regs[d as usize]
    }

    fn put_sum(&mut self, d: u8, x: u8, y: u8, k: u8)
        requires d { d < 32 }
        requires k { k < 2 }
        ensures { self.new ≡ with_sum self.old d x y k }
    {
        let sum = u16::from(x) + u16::from(y) + u16::from(k);
        let r = (sum % 256) as u8;
        let x7 = 128 <= x;
        let y7 = 128 <= y;
        let n = 128 <= r;
        let v = x7 && (y7 && !n) || !x7 && (!y7 && n);
        self.regs[d as usize] = r;
        self.carry = 255 < sum;
        self.zero = r == 0;
        self.negative = n;
        self.overflow = v;
        self.sign = differ(n, v);
        self.half_carry = 15 < x % 16 + y % 16 + k;
    }

    fn put_difference(&mut self, d: u8, y: u8, k: u8, zero: bool)
        requires d { d < 32 }
        requires k { k < 2 }
        ensures { self.new ≡ with_difference self.old d (reg self.old d) y k zero }
    {
        let x = self.reg(d);
        self.compare(x, y, k, zero);
        self.regs[d as usize] = difference(x, y, k);
    }

    fn compare(&mut self, x: u8, y: u8, k: u8, zero: bool)
        requires { k < 2 }
        ensures { self.new ≡ with_compared self.old x y k zero }
    {
        let r = difference(x, y, k);
        let x7 = 128 <= x;
        let y7 = 128 <= y;
        let n = 128 <= r;
        let v = x7 && (!y7 && !n) || !x7 && (y7 && n);
        self.carry = u16::from(x) < u16::from(y) + u16::from(k);
        self.zero = zero && r == 0;
        self.negative = n;
        self.overflow = v;
        self.sign = differ(n, v);
        self.half_carry = x % 16 < y % 16 + k;
    }

    fn put_result(&mut self, d: u8, r: u8, v: bool)
        requires { d < 32 }
        ensures { self.new ≡ with_result self.old d r v }
    {
        let n = 128 <= r;
        self.regs[d as usize] = r;
        self.zero = r == 0;
        self.negative = n;
        self.overflow = v;
        self.sign = differ(n, v);
    }

    fn put_shifted(&mut self, d: u8, x: u8, r: u8)
        requires { d < 32 }
        ensures { self.new ≡ with_shifted self.old d x r }
    {
        let carry = bit_of(x, 0);
        self.put_result(d, r, differ(128 <= r, carry));
        self.carry = carry;
    }
}

/// An instruction of so many cycles that asks nobody, sends nothing and goes on at the next one.
pub(crate) fn next(cycles: u8) -> Acted
    ensures { result ≡ act Flow.Next cycles Poll.NoPoll None }
{
    Acted {
        flow: Flow::Next,
        cycles,
        poll: Poll::NoPoll,
        sent: None,
    }
}

fn difference(x: u8, y: u8, k: u8) -> u8
    requires { k < 2 }
    ensures { result ≡ difference x y k }
{
    ((u16::from(x) + 256 - (u16::from(y) + u16::from(k))) % 256) as u8
}

fn differ(a: bool, b: bool) -> bool
    ensures { result ≡ differ a b }
{
    a && !b || !a && b
}
