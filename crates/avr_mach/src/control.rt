//! Branches, jumps, calls, skips and writes to a flag, and why an instruction may have no step.

ghost use Rattle.std.specs.Prelude.{◌≡◌, ◌+◌, ◌<◌, ◌≤◌, ◌^◌, IfNone};
ghost use Rattle.avr_mach.specs.Control.{near, branch, skip_if, with_call, return_place, call_obstacle, return_obstacle, obstacle, HasRoom};
ghost use Rattle.avr_mach.specs.Exec.{exec};
ghost use Rattle.avr_mach.specs.Groups.{group_of};
ghost use Rattle.avr_mach.specs.Insn.{FieldsFit};
ghost use Rattle.avr_devices.specs.Part.{mega16};
ghost use Rattle.chip_tables.specs.declared.outside.Env.{Env};
ghost use Rattle.avr_mach.specs.declared.exec.Group.TheVariants as Group;
ghost use Rattle.avr_mach.specs.State.{act};
ghost use Rattle.chip_tables.specs.declared.mega16.TheConstants.{FLASH_WORDS, SRAM_END};
ghost use Rattle.avr_mach.specs.declared.state.AvrState.{AvrState};

use crate::arithmetic::next;
use crate::insn::AvrInsn;
use crate::state::{Acted, AvrState, Flow};
use chip_tables::mega16::{FLASH_WORDS, SRAM_END, SRAM_FIRST};
use chip_tables::{Poll, StuckCause, bit_of};

impl AvrState {
    /// Why the instruction has no step here, if it has none.
    pub(crate) fn obstacle(&self, insn: AvrInsn) -> Option<StuckCause>
        ensures value { result ≡ obstacle mega16 insn self.now }
        ensures room { IfNone result (HasRoom insn self.now) }
    {
        let has_second_word = self.place < FLASH_WORDS - 1;
        match insn {
            AvrInsn::Jmp { place } => {
                if has_second_word && place < 65536 {
                    None
                } else {
                    Some(StuckCause::PastFlash)
                }
            }
            AvrInsn::Call { place } => {
                if has_second_word && place < 65536 {
                    self.call_obstacle()
                } else {
                    Some(StuckCause::PastFlash)
                }
            }
            AvrInsn::Rcall { .. } => self.call_obstacle(),
            AvrInsn::Ret => self.return_obstacle(),
            AvrInsn::Lds { .. } | AvrInsn::Sts { .. } => {
                if has_second_word {
                    None
                } else {
                    Some(StuckCause::PastFlash)
                }
            }
            _ => None,
        }
    }

    fn call_obstacle(&self) -> Option<StuckCause>
        ensures value { result ≡ call_obstacle self.now }
        ensures room { IfNone result (2 ≤ self.now.stack) }
    {
        if SRAM_FIRST < self.stack && self.stack < SRAM_END {
            None
        } else {
            Some(StuckCause::StackDepth)
        }
    }

    fn return_obstacle(&self) -> Option<StuckCause>
        ensures value { result ≡ return_obstacle self.now }
        ensures room { IfNone result (self.now.stack + 2 < SRAM_END) }
    {
        if SRAM_FIRST - 1 <= self.stack && self.stack < SRAM_END - 2 {
            None
        } else {
            Some(StuckCause::StackDepth)
        }
    }

    /// What a branch, a jump, a call, a skip or a write to a flag does; NOP is the one that does nothing.
    pub(crate) fn control(&mut self, insn: AvrInsn, here: u32) -> Acted
        requires fits { FieldsFit insn }
        requires group { group_of insn ≡ Group.Control }
        requires room { HasRoom insn self.old }
        requires near { here < FLASH_WORDS }
        ensures state { (env : Env) → self.new ≡ (exec mega16 env insn here self.old).state }
        ensures acted { (env : Env) → result ≡ (exec mega16 env insn here self.old).acted }
        ensures cycles { result.cycles < 8 }
    {
        match insn {
            AvrInsn::Brbs { s, k } => branch(self.flag(s), here, k),
            AvrInsn::Brbc { s, k } => branch(!self.flag(s), here, k),
            AvrInsn::Bset { s } => {
                self.put_flag(s, true);
                next(1)
            }
            AvrInsn::Bclr { s } => {
                self.put_flag(s, false);
                next(1)
            }
            AvrInsn::Rjmp { k } => jump(near(here, k, 2048), 2),
            AvrInsn::Rcall { k } => {
                self.push_place((here + 1) as u16);
                jump(near(here, k, 2048), 3)
            }
            AvrInsn::Jmp { place } => jump(place, 3),
            AvrInsn::Call { place } => {
                self.push_place((here + 2) as u16);
                jump(place, 4)
            }
            AvrInsn::Ret => {
                let place = self.return_place();
                self.stack += 2;
                jump(place, 4)
            }
            AvrInsn::Sbrc { r, b } => skip_if(!bit_of(self.reg(r), b)),
            AvrInsn::Sbrs { r, b } => skip_if(bit_of(self.reg(r), b)),
            AvrInsn::Nop => next(1),
            // No other instruction is of the group.
            _ => next(1),
        }
    }

    fn push_place(&mut self, back: u16)
        requires { 2 ≤ self.old.stack }
        ensures { self.new ≡ with_call self.old back }
    {
        let stack = self.stack;
        self.write_ram(stack, (back % 256) as u8);
        self.write_ram(stack - 1, (back / 256) as u8);
        self.stack = stack - 2;
    }

    fn return_place(&self) -> u32
        requires { self.now.stack + 2 < SRAM_END }
        ensures { result ≡ return_place self.now }
    {
        u32::from(self.ram_at(self.stack + 1)) * 256 + u32::from(self.ram_at(self.stack + 2))
    }
}

fn jump(place: u32, cycles: u8) -> Acted
    ensures { result ≡ act (Flow.To place) cycles Poll.NoPoll None }
{
    Acted {
        flow: Flow::To(place),
        cycles,
        poll: Poll::NoPoll,
        sent: None,
    }
}

fn near(here: u32, k: u16, half: u16) -> u32
    requires here { here < FLASH_WORDS }
    requires half { half < 4096 }
    ensures { result ≡ near mega16 here k half }
{
    let from = here + 1 + u32::from(k);
    if k < half {
        from % FLASH_WORDS
    } else {
        (from + (FLASH_WORDS - 2 * u32::from(half))) % FLASH_WORDS
    }
}

fn branch(taken: bool, here: u32, k: u8) -> Acted
    requires { here < FLASH_WORDS }
    ensures acted { (m : AvrState) → result ≡ (branch mega16 m taken here k).acted }
    ensures cycles { result.cycles < 8 }
{
    if taken {
        jump(near(here, u16::from(k), 64), 2)
    } else {
        next(1)
    }
}

fn skip_if(test: bool) -> Acted
    ensures acted { (m : AvrState) → result ≡ (skip_if m test).acted }
    ensures cycles { result.cycles < 8 }
{
    Acted {
        flow: if test { Flow::Skip } else { Flow::Next },
        cycles: 1,
        poll: Poll::NoPoll,
        sent: None,
    }
}
