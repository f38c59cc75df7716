//! One step of the machine.

ghost use Rattle.std.specs.Prelude.{◌≡◌, ◌+◌, ◌<◌, IfSome};
ghost use Rattle.chip_tables.specs.Step.{OnStuck};
ghost use Rattle.pic16_mach.specs.Insn.{FieldsFit};
ghost use Rattle.pic16_mach.specs.Step.{pic_step, word_at, insn_at, goes_to, stuck, went};

use crate::insn::{PicInsn, decode};
use crate::state::{Acted, Flow, PicState};
use chip_tables::{Env, StepEnd, StuckAt, StuckCause, Went};
use pic_devices::PicPart;

/// The word of erased program flash.
const ERASED: u16 = 0x3fff;

impl PicState {
    /// One step: the instruction at the machine's place is executed. `flash` has the words of program
    /// flash from 0 on; those that it lacks, and those past the flash of the part, are erased. `env` has
    /// the answer to an instruction that asks, and the reading that a cycle begins with.
    pub fn step(&mut self, flash: &[u16], env: &Env) -> StepEnd
        ensures state { self.new ≡ (pic_step self.old.part flash.now env.now self.old).state }
        ensures end { result ≡ (pic_step self.old.part flash.now env.now self.old).end }

        // It stays the same PIC.
        ensures part { self.new.part ≡ self.old.part }

        // A machine that has no step stays as it is.
        ensures unchanged { OnStuck result (self.new ≡ self.old) }
    {
        let part = self.part;
        let here = self.place;
        if here >= part.flash_words() {
            return self.stuck(part, flash, StuckCause::PastFlash);
        }
        match insn_at(part, flash, here) {
            None => self.stuck(part, flash, StuckCause::Undefined),
            Some(insn) => match self.obstacle(insn) {
                Some(cause) => self.stuck(part, flash, cause),
                None => {
                    let acted = self.exec(part, env, insn);
                    StepEnd::Went(self.come_to(goes_to(here, acted.flow), acted))
                }
            },
        }
    }

    fn stuck(&self, part: PicPart, flash: &[u16], cause: StuckCause) -> StepEnd
        ensures { result ≡ (stuck part flash.now self.now cause).end }
    {
        StepEnd::Stuck(StuckAt {
            place: self.place,
            word: word_at(part, flash, self.place),
            cause,
        })
    }

    fn come_to(&mut self, place: u32, acted: Acted) -> Went
        ensures state { self.new ≡ (went self.old place acted).state }
        ensures end { StepEnd.Went result ≡ (went self.old place acted).end }
    {
        self.place = place;
        self.devices.pass();
        Went {
            cycles: acted.cycles,
            poll: acted.poll,
            sent: acted.sent,
        }
    }
}

/// Where the machine goes on from a place.
fn goes_to(here: u32, flow: Flow) -> u32
    requires { here < 10000 }
    ensures { result ≡ goes_to here flow }
{
    match flow {
        Flow::Next => here + 1,
        Flow::Skip => here + 2,
        Flow::To(place) => place,
    }
}

fn word_at(part: PicPart, flash: &[u16], place: u32) -> u16
    ensures { result ≡ word_at part flash.now place }
{
    if place >= part.flash_words() {
        return ERASED;
    }
    match flash.get(place as usize) {
        Some(word) => *word,
        None => ERASED,
    }
}

pub(crate) fn insn_at(part: PicPart, flash: &[u16], place: u32) -> Option<PicInsn>
    ensures value { result ≡ insn_at part flash.now place }
    ensures fits { IfSome result FieldsFit }
{
    decode(word_at(part, flash, place))
}
