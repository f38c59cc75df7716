//! An instruction is executed, by its group.

ghost use Rattle.std.specs.Prelude.{◌≡◌, ◌<◌};
ghost use Rattle.pic16_mach.specs.Control.{HasRoom};
ghost use Rattle.pic16_mach.specs.Exec.{exec};
ghost use Rattle.pic16_mach.specs.Groups.{group_of};
ghost use Rattle.pic16_mach.specs.Insn.{FieldsFit};

use crate::insn::PicInsn;
use crate::state::{Acted, PicState};
use chip_tables::Env;
use pic_devices::PicPart;

/// Instructions by the function that executes them.
#[derive(Clone, Copy)]
pub enum Group {
    /// Operations on a file register that set a carry, or no flag.
    Operation,
    /// Operations on a file register that set Z alone.
    ForZero,
    /// Writes of a file register, and tests of a bit of one.
    Access,
    /// Constants, jumps, calls and returns.
    Control,
}

impl PicState {
    /// What an instruction does, but for setting the place.
    pub(crate) fn exec(&mut self, part: PicPart, env: &Env, insn: PicInsn) -> Acted
        requires fits { FieldsFit insn }
        requires room { HasRoom insn self.old }
        requires place { self.old.place < 10000 }
        ensures state { self.new ≡ (exec part env.now insn self.old).state }
        ensures acted { result ≡ (exec part env.now insn self.old).acted }
        ensures part { self.new.part ≡ self.old.part }
    {
        match group_of(&insn) {
            Group::Operation => self.operate(part, insn),
            Group::ForZero => self.operate_for_zero(part, insn),
            Group::Access => self.access(part, env, insn),
            Group::Control => self.control(part, insn),
        }
    }
}

fn group_of(insn: &PicInsn) -> Group
    ensures { result ≡ group_of insn.now }
{
    match insn {
        PicInsn::Andwf { .. }
        | PicInsn::Comf { .. }
        | PicInsn::Decf { .. }
        | PicInsn::Incf { .. }
        | PicInsn::Iorwf { .. }
        | PicInsn::Movf { .. }
        | PicInsn::Xorwf { .. } => Group::ForZero,
        PicInsn::Addwf { .. }
        | PicInsn::Decfsz { .. }
        | PicInsn::Incfsz { .. }
        | PicInsn::Rlf { .. }
        | PicInsn::Rrf { .. }
        | PicInsn::Subwf { .. }
        | PicInsn::Swapf { .. } => Group::Operation,
        PicInsn::Clrf { .. }
        | PicInsn::Movwf { .. }
        | PicInsn::Bcf { .. }
        | PicInsn::Bsf { .. }
        | PicInsn::Btfsc { .. }
        | PicInsn::Btfss { .. } => Group::Access,
        PicInsn::Clrw
        | PicInsn::Nop
        | PicInsn::Addlw { .. }
        | PicInsn::Andlw { .. }
        | PicInsn::Iorlw { .. }
        | PicInsn::Movlw { .. }
        | PicInsn::Sublw { .. }
        | PicInsn::Xorlw { .. }
        | PicInsn::Call { .. }
        | PicInsn::Goto { .. }
        | PicInsn::Retlw { .. }
        | PicInsn::Return
        | PicInsn::Retfie
        | PicInsn::Clrwdt
        | PicInsn::Sleep => Group::Control,
    }
}
