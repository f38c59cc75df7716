//! An instruction is executed, by its group.

ghost use Rattle.std.specs.Prelude.{◌≡◌, ◌<◌};
ghost use Rattle.avr_devices.specs.Part.{mega16};
ghost use Rattle.avr_mach.specs.Control.{HasRoom};
ghost use Rattle.avr_mach.specs.Exec.{exec};
ghost use Rattle.avr_mach.specs.Groups.{group_of};
ghost use Rattle.avr_mach.specs.Insn.{FieldsFit};
ghost use Rattle.chip_tables.specs.declared.mega16.TheConstants.{FLASH_WORDS};

use crate::insn::AvrInsn;
use crate::state::{Acted, AvrState};
use chip_tables::Env;

/// Instructions by the function that executes them.
#[derive(Clone, Copy)]
pub enum Group {
    /// Sums, differences, logic and shifts.
    Arithmetic,
    /// Branches, jumps, calls, skips and writes to a flag.
    Control,
    /// Copies, and accesses to data memory.
    Transfer,
    /// Accesses to the I/O space.
    Access,
}

impl AvrState {
    /// What an instruction at a place does, but for setting the place.
    pub(crate) fn exec(&mut self, env: &Env, insn: AvrInsn, here: u32) -> Acted
        requires fits { FieldsFit insn }
        requires room { HasRoom insn self.old }
        requires near { here < FLASH_WORDS }
        ensures state { self.new ≡ (exec mega16 env.now insn here self.old).state }
        ensures acted { result ≡ (exec mega16 env.now insn here self.old).acted }
        ensures cycles { result.cycles < 8 }
    {
        match group_of(&insn) {
            Group::Arithmetic => self.arithmetic(insn),
            Group::Control => self.control(insn, here),
            Group::Transfer => self.transfer(env, insn),
            Group::Access => self.access(env, insn),
        }
    }
}

fn group_of(insn: &AvrInsn) -> Group
    ensures { result ≡ group_of insn.now }
{
    match insn {
        AvrInsn::Brbs { .. }
        | AvrInsn::Brbc { .. }
        | AvrInsn::Bset { .. }
        | AvrInsn::Bclr { .. }
        | AvrInsn::Rjmp { .. }
        | AvrInsn::Rcall { .. }
        | AvrInsn::Jmp { .. }
        | AvrInsn::Call { .. }
        | AvrInsn::Ret
        | AvrInsn::Sbrc { .. }
        | AvrInsn::Sbrs { .. }
        | AvrInsn::Nop => Group::Control,
        AvrInsn::Mov { .. }
        | AvrInsn::Ldi { .. }
        | AvrInsn::Lds { .. }
        | AvrInsn::Sts { .. }
        | AvrInsn::Ldd { .. }
        | AvrInsn::Std { .. }
        | AvrInsn::St { .. } => Group::Transfer,
        AvrInsn::In { .. }
        | AvrInsn::Out { .. }
        | AvrInsn::Cbi { .. }
        | AvrInsn::Sbi { .. }
        | AvrInsn::Sbic { .. }
        | AvrInsn::Sbis { .. } => Group::Access,
        AvrInsn::Add { .. }
        | AvrInsn::Adc { .. }
        | AvrInsn::Sub { .. }
        | AvrInsn::Sbc { .. }
        | AvrInsn::Cp { .. }
        | AvrInsn::Cpc { .. }
        | AvrInsn::Cpi { .. }
        | AvrInsn::And { .. }
        | AvrInsn::Eor { .. }
        | AvrInsn::Or { .. }
        | AvrInsn::Com { .. }
        | AvrInsn::Inc { .. }
        | AvrInsn::Dec { .. }
        | AvrInsn::Lsr { .. }
        | AvrInsn::Ror { .. } => Group::Arithmetic,
    }
}
