//! Constants, jumps, calls, returns and skips, and why an instruction may have no step.

ghost use Rattle.std.specs.Prelude.{◌≡◌, ◌+◌, ◌<◌, ◌≤◌, ◌==◌, IfNone};
ghost use Rattle.chip_tables.specs.declared.outside.Env.{Env};
ghost use Rattle.pic16_mach.specs.declared.exec.Group.TheVariants as Group;
ghost use Rattle.pic16_mach.specs.declared.state.TheConstants.{STACK_PLACES};
ghost use Rattle.pic16_mach.specs.Control.{paged, with_call, returned, past, skipped, call_obstacle, return_obstacle, obstacle, HasRoom};
ghost use Rattle.pic16_mach.specs.Exec.{exec};
ghost use Rattle.pic16_mach.specs.Groups.{group_of};
ghost use Rattle.pic16_mach.specs.Insn.{FieldsFit};
ghost use Rattle.pic16_mach.specs.State.{act, IsNear};

use crate::file::{jump, next};
use crate::insn::PicInsn;
use crate::operations::difference;
use crate::state::{Acted, Flow, PicState, STACK_PLACES};
use avr_devices::Answer;
use chip_tables::StuckCause;
use pic_devices::PicPart;

impl PicState {
    /// Why the instruction has no step here, if it has none.
    pub(crate) fn obstacle(&self, insn: PicInsn) -> Option<StuckCause>
        ensures value { result ≡ obstacle insn self.now }
        ensures room { IfNone result (HasRoom insn self.now) }
    {
        match insn {
            PicInsn::Call { .. } => self.call_obstacle(),
            PicInsn::Retlw { .. } | PicInsn::Return => self.return_obstacle(),
            PicInsn::Retfie | PicInsn::Clrwdt | PicInsn::Sleep => Some(StuckCause::Undefined),
            _ => None,
        }
    }

    fn call_obstacle(&self) -> Option<StuckCause>
        ensures value { result ≡ call_obstacle self.now }
        ensures room { IfNone result (self.now.depth < STACK_PLACES) }
    {
        if self.depth < STACK_PLACES {
            None
        } else {
            Some(StuckCause::StackDepth)
        }
    }

    fn return_obstacle(&self) -> Option<StuckCause>
        ensures value { result ≡ return_obstacle self.now }
        ensures room { IfNone result ((0 < self.now.depth) × (self.now.depth ≤ STACK_PLACES)) }
    {
        if 0 < self.depth && self.depth <= STACK_PLACES {
            None
        } else {
            Some(StuckCause::StackDepth)
        }
    }

    /// What an instruction with a constant does, or one without fields; NOP is one that does nothing.
    pub(crate) fn control(&mut self, part: PicPart, insn: PicInsn) -> Acted
        requires fits { FieldsFit insn }
        requires group { group_of insn ≡ Group.Control }
        requires room { HasRoom insn self.old }
        requires place { self.old.place < 10000 }
        ensures state { (env : Env) → self.new ≡ (exec part env insn self.old).state }
        ensures acted { (env : Env) → result ≡ (exec part env insn self.old).acted }
        ensures part { self.new.part ≡ self.old.part }
    {
        match insn {
            PicInsn::Clrw => {
                self.put_logic(0);
                next()
            }
            PicInsn::Addlw { k } => {
                let w = self.w;
                self.note_sum(w, k);
                self.w = w.wrapping_add(k);
                next()
            }
            PicInsn::Sublw { k } => {
                let w = self.w;
                self.note_difference(k, w);
                self.w = difference(k, w);
                next()
            }
            PicInsn::Andlw { k } => {
                self.put_logic(self.w & k);
                next()
            }
            PicInsn::Iorlw { k } => {
                self.put_logic(self.w | k);
                next()
            }
            PicInsn::Xorlw { k } => {
                self.put_logic(self.w ^ k);
                next()
            }
            PicInsn::Movlw { k } => {
                self.w = k;
                next()
            }
            PicInsn::Call { k } => {
                let to = self.paged(k);
                self.keep_place((self.place + 1) as u16);
                jump(to)
            }
            PicInsn::Goto { k } => jump(self.paged(k)),
            PicInsn::Retlw { k } => {
                self.w = k;
                self.go_back()
            }
            PicInsn::Return => self.go_back(),
            PicInsn::Nop | PicInsn::Retfie | PicInsn::Clrwdt | PicInsn::Sleep => next(),
            // No other instruction is of the group.
            _ => next(),
        }
    }

    /// W takes a result that sets Z.
    fn put_logic(&mut self, r: u8)
        ensures { self.new ≡ record self.old { w = r; zero = r == 0 } }
    {
        self.w = r;
        self.zero = r == 0;
    }

    fn paged(&self, k: u16) -> u32
        requires { k < 2048 }
        ensures { result ≡ paged self.now k }
    {
        u32::from(self.pclath / 8 % 4) * 2048 + u32::from(k)
    }

    fn keep_place(&mut self, back: u16)
        requires { self.old.depth < STACK_PLACES }
        ensures { self.new ≡ with_call self.old back }
    {
        self.stack[self.depth as usize] = back;
        self.depth += 1;
    }

    fn go_back(&mut self) -> Acted
        requires some { 0 < self.old.depth }
        requires within { self.old.depth ≤ STACK_PLACES }
        ensures state { self.new ≡ (returned self.old).state }
        ensures acted { result ≡ (returned self.old).acted }
    {
        self.depth -= 1;
        jump(u32::from(self.stack[self.depth as usize]))
    }
}

/// An instruction that skips where a test holds.
pub(crate) fn skip_if(acted: Acted, test: bool) -> Acted
    requires { IsNear acted.flow }
    ensures { result ≡ skipped acted test }
{
    if test {
        Acted {
            flow: past(acted.flow),
            cycles: 2,
            poll: acted.poll,
            sent: acted.sent,
        }
    } else {
        acted
    }
}

fn past(flow: Flow) -> Flow
    requires { IsNear flow }
    ensures { result ≡ past flow }
{
    match flow {
        Flow::Next | Flow::Skip => Flow::Skip,
        Flow::To(place) => Flow::To(place + 1),
    }
}

/// A skip by a test of what was read.
pub(crate) fn skip_where(answer: Answer, test: bool) -> Acted
    ensures { result ≡ skipped (act Flow.Next 1 answer.poll None) test }
{
    skip_if(
        Acted {
            flow: Flow::Next,
            cycles: 1,
            poll: answer.poll,
            sent: None,
        },
        test,
    )
}
