//! Writes of file registers, and writes and tests of their bits.

ghost use Rattle.std.specs.Prelude.{◌≡◌, ◌<◌};
ghost use Rattle.pic16_mach.specs.declared.exec.Group.TheVariants as Group;
ghost use Rattle.pic16_mach.specs.Exec.{exec};
ghost use Rattle.pic16_mach.specs.Groups.{group_of};
ghost use Rattle.pic16_mach.specs.Insn.{FieldsFit};

use crate::control::skip_where;
use crate::file::next;
use crate::insn::PicInsn;
use crate::state::{Acted, PicState};
use chip_tables::{Env, bit_mask, bit_of};
use pic_devices::PicPart;

impl PicState {
    /// What an instruction does that writes a file register or tests a bit of one.
    pub(crate) fn access(&mut self, part: PicPart, env: &Env, insn: PicInsn) -> Acted
        requires fits { FieldsFit insn }
        requires group { group_of insn ≡ Group.Access }
        requires place { self.old.place < 10000 }
        ensures state { self.new ≡ (exec part env.now insn self.old).state }
        ensures acted { result ≡ (exec part env.now insn self.old).acted }
        ensures part { self.new.part ≡ self.old.part }
    {
        match insn {
            PicInsn::Clrf { f } => {
                let place = self.place_of(part, f);
                self.zero = true;
                self.store(part, place, 0, true)
            }
            PicInsn::Movwf { f } => {
                let place = self.place_of(part, f);
                self.store(part, place, self.w, false)
            }
            PicInsn::Bcf { f, b } => {
                let place = self.place_of(part, f);
                let x = self.take(part, place) & (255 - bit_mask(b));
                self.store(part, place, x, false)
            }
            PicInsn::Bsf { f, b } => {
                let place = self.place_of(part, f);
                let x = self.take(part, place) | bit_mask(b);
                self.store_bit(part, place, b, x)
            }
            PicInsn::Btfsc { f, b } => {
                let answer = self.read_bit(part, env, self.place_of(part, f), b);
                skip_where(answer, !bit_of(answer.value, b))
            }
            PicInsn::Btfss { f, b } => {
                let answer = self.read_bit(part, env, self.place_of(part, f), b);
                skip_where(answer, bit_of(answer.value, b))
            }
            // No other instruction is of the group.
            _ => next(),
        }
    }
}
