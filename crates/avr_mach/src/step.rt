//! One step of the machine.

ghost use Rattle.std.specs.Prelude.{◌≡◌, ◌+◌, ◌<◌, ◌^◌, IfSome};
ghost use Rattle.avr_devices.specs.Part.{mega16};
ghost use Rattle.chip_tables.specs.Step.{OnStuck};
ghost use Rattle.avr_mach.specs.Insn.{FieldsFit};
ghost use Rattle.avr_mach.specs.Step.{avr_step, word_at, insn_at, width_of, settled, stuck, went};

use crate::insn::{AvrInsn, decode, size_of};
use crate::state::{Acted, AvrState, Flow};
use chip_tables::mega16::FLASH_WORDS;
use chip_tables::{Env, StepEnd, StuckAt, StuckCause, Went};

impl AvrState {
    /// One step: the instruction at the machine's place is executed. `flash` has the words of program
    /// flash from 0 on; those that it lacks, and those past the 8192 of the chip, are erased. `env`
    /// has the answer to an instruction that asks, and the reading that a cycle begins with.
    pub fn step(&mut self, flash: &[u16], env: &Env) -> StepEnd
        ensures state { self.new ≡ (avr_step mega16 flash.now env.now self.old).state }
        ensures end { result ≡ (avr_step mega16 flash.now env.now self.old).end }

        // A machine that has no step stays as it is.
        ensures unchanged { OnStuck result (self.new ≡ self.old) }
    {
        let here = self.place;
        if here >= FLASH_WORDS {
            return self.stuck(flash, StuckCause::PastFlash);
        }
        match insn_at(flash, here) {
            None => self.stuck(flash, StuckCause::Undefined),
            Some(insn) => match self.obstacle(insn) {
                Some(cause) => self.stuck(flash, cause),
                None => {
                    let acted = self.exec(env, insn, here);
                    StepEnd::Went(self.settle(flash, here + u32::from(size_of(&insn)), acted))
                }
            },
        }
    }

    fn stuck(&self, flash: &[u16], cause: StuckCause) -> StepEnd
        ensures { result ≡ (stuck mega16 flash.now self.now cause).end }
    {
        StepEnd::Stuck(StuckAt {
            place: self.place,
            word: word_at(flash, self.place),
            cause,
        })
    }

    /// Comes to the place after an instruction; `next` is that of the one that follows it.
    fn settle(&mut self, flash: &[u16], next: u32, acted: Acted) -> Went
        requires next { next < FLASH_WORDS + 3 }
        requires cycles { acted.cycles < 8 }
        ensures state { self.new ≡ (settled mega16 flash.now next self.old acted.flow acted).state }
        ensures end { StepEnd.Went result ≡ (settled mega16 flash.now next self.old acted.flow acted).end }
    {
        match acted.flow {
            Flow::Next => self.come_to(next, acted.cycles, acted),
            Flow::To(place) => self.come_to(place, acted.cycles, acted),
            Flow::Skip => {
                let words = width_at(flash, next);
                self.come_to(next + u32::from(words), acted.cycles + words, acted)
            }
        }
    }

    fn come_to(&mut self, place: u32, cycles: u8, acted: Acted) -> Went
        ensures state { self.new ≡ (went self.old place cycles acted).state }
        ensures end { StepEnd.Went result ≡ (went self.old place cycles acted).end }
    {
        self.place = place;
        self.devices.pass(cycles);
        Went {
            cycles,
            poll: acted.poll,
            sent: acted.sent,
        }
    }
}

fn word_at(flash: &[u16], place: u32) -> u16
    ensures { result ≡ word_at mega16 flash.now place }
{
    if place >= FLASH_WORDS {
        return 0xffff;
    }
    match flash.get(place as usize) {
        Some(word) => *word,
        None => 0xffff,
    }
}

pub(crate) fn insn_at(flash: &[u16], place: u32) -> Option<AvrInsn>
    requires { place < 10000 }
    ensures value { result ≡ insn_at mega16 flash.now place }
    ensures fits { IfSome result FieldsFit }
{
    decode(word_at(flash, place), word_at(flash, place + 1))
}

fn width_at(flash: &[u16], place: u32) -> u8
    requires { place < 10000 }
    ensures value { result ≡ width_of (insn_at mega16 flash.now place) }
    ensures below { result < 3 }
{
    match insn_at(flash, place) {
        None => 1,
        Some(insn) => size_of(&insn),
    }
}
