//! Operations on file registers, with their flags.

ghost use Rattle.std.specs.Prelude.{◌≡◌, ◌+◌, ◌<◌, ℕ};
ghost use Rattle.chip_tables.specs.declared.outside.Env.{Env};
ghost use Rattle.pic16_mach.specs.declared.exec.Group.TheVariants as Group;
ghost use Rattle.pic16_mach.specs.Arithmetic.{sum_of, with_sum, difference_of, with_difference};
ghost use Rattle.pic16_mach.specs.Exec.{exec};
ghost use Rattle.pic16_mach.specs.Groups.{group_of};
ghost use Rattle.pic16_mach.specs.Insn.{FieldsFit};

use crate::control::skip_if;
use crate::file::next;
use crate::insn::PicInsn;
use crate::state::{Acted, PicState};
use chip_tables::{as_bit, bit_of};
use pic_devices::PicPart;

impl PicState {
    /// What an operation on a file register does.
    pub(crate) fn operate(&mut self, part: PicPart, insn: PicInsn) -> Acted
        requires fits { FieldsFit insn }
        requires group { group_of insn ≡ Group.Operation }
        requires place { self.old.place < 10000 }
        ensures state { (env : Env) → self.new ≡ (exec part env insn self.old).state }
        ensures acted { (env : Env) → result ≡ (exec part env insn self.old).acted }
        ensures part { self.new.part ≡ self.old.part }
    {
        let w = self.w;
        let carry = as_bit(self.carry);
        match insn {
            PicInsn::Addwf { f, d } => {
                let place = self.place_of(part, f);
                let x = self.take(part, place);
                self.note_sum(x, w);
                self.deliver(part, place, d, x.wrapping_add(w), true)
            }
            PicInsn::Subwf { f, d } => {
                let place = self.place_of(part, f);
                let x = self.take(part, place);
                self.note_difference(x, w);
                self.deliver(part, place, d, difference(x, w), true)
            }
            PicInsn::Rlf { f, d } => {
                let place = self.place_of(part, f);
                let x = self.take(part, place);
                self.carry = bit_of(x, 7);
                self.deliver(part, place, d, x % 128 * 2 + carry, true)
            }
            PicInsn::Rrf { f, d } => {
                let place = self.place_of(part, f);
                let x = self.take(part, place);
                self.carry = bit_of(x, 0);
                self.deliver(part, place, d, x / 2 + carry * 128, true)
            }
            PicInsn::Swapf { f, d } => {
                let place = self.place_of(part, f);
                let x = self.take(part, place);
                self.deliver(part, place, d, x % 16 * 16 + x / 16, false)
            }
            PicInsn::Decfsz { f, d } => {
                let place = self.place_of(part, f);
                let r = difference(self.take(part, place), 1);
                skip_if(self.deliver(part, place, d, r, false), r == 0)
            }
            PicInsn::Incfsz { f, d } => {
                let place = self.place_of(part, f);
                let r = self.take(part, place).wrapping_add(1);
                skip_if(self.deliver(part, place, d, r, false), r == 0)
            }
            // No other instruction is of the group.
            _ => next(),
        }
    }

    /// What an operation on a file register does that sets Z alone.
    pub(crate) fn operate_for_zero(&mut self, part: PicPart, insn: PicInsn) -> Acted
        requires fits { FieldsFit insn }
        requires group { group_of insn ≡ Group.ForZero }
        requires place { self.old.place < 10000 }
        ensures state { (env : Env) → self.new ≡ (exec part env insn self.old).state }
        ensures acted { (env : Env) → result ≡ (exec part env insn self.old).acted }
        ensures part { self.new.part ≡ self.old.part }
    {
        let w = self.w;
        match insn {
            PicInsn::Andwf { f, d } => {
                let place = self.place_of(part, f);
                let r = self.take(part, place) & w;
                self.zero = r == 0;
                self.deliver(part, place, d, r, true)
            }
            PicInsn::Iorwf { f, d } => {
                let place = self.place_of(part, f);
                let r = self.take(part, place) | w;
                self.zero = r == 0;
                self.deliver(part, place, d, r, true)
            }
            PicInsn::Xorwf { f, d } => {
                let place = self.place_of(part, f);
                let r = self.take(part, place) ^ w;
                self.zero = r == 0;
                self.deliver(part, place, d, r, true)
            }
            PicInsn::Comf { f, d } => {
                let place = self.place_of(part, f);
                let r = 255 - self.take(part, place);
                self.zero = r == 0;
                self.deliver(part, place, d, r, true)
            }
            PicInsn::Decf { f, d } => {
                let place = self.place_of(part, f);
                let r = difference(self.take(part, place), 1);
                self.zero = r == 0;
                self.deliver(part, place, d, r, true)
            }
            PicInsn::Incf { f, d } => {
                let place = self.place_of(part, f);
                let r = self.take(part, place).wrapping_add(1);
                self.zero = r == 0;
                self.deliver(part, place, d, r, true)
            }
            PicInsn::Movf { f, d } => {
                let place = self.place_of(part, f);
                let r = self.take(part, place);
                self.zero = r == 0;
                self.deliver(part, place, d, r, true)
            }
            // No other instruction is of the group.
            _ => next(),
        }
    }

    /// Sets the flags of a sum.
    pub(crate) fn note_sum(&mut self, x: u8, y: u8)
        ensures { self.new ≡ with_sum self.old x y }
    {
        self.carry = 255 < u16::from(x) + u16::from(y);
        self.digit_carry = 15 < x % 16 + y % 16;
        self.zero = x.wrapping_add(y) == 0;
    }

    /// Sets the flags of a difference: both carries are the opposite of a borrow.
    pub(crate) fn note_difference(&mut self, x: u8, y: u8)
        ensures { self.new ≡ with_difference self.old x y }
    {
        self.carry = y <= x;
        self.digit_carry = y % 16 <= x % 16;
        self.zero = difference(x, y) == 0;
    }
}

pub(crate) fn difference(x: u8, y: u8) -> u8
    ensures { result ≡ difference_of x y }
{
    ((u16::from(x) + 256 - u16::from(y)) % 256) as u8
}
