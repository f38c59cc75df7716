//! What the machine asks the outside for.

ghost use Rattle.std.specs.Prelude.{◌≡◌};
ghost use Rattle.pic16_mach.specs.Asks.{timer_ask, place_ask, bit_ask, insn_ask, unless_stuck_ask, ask_at};
ghost use Rattle.pic16_mach.specs.Control.{obstacle};
ghost use Rattle.pic16_mach.specs.Insn.{FieldsFit};
ghost use Rattle.pic16_mach.specs.Step.{pic_step};
ghost use Rattle.runs.specs.Chip.{steps_over};
ghost use Rattle.runs.specs.Run.{ask_of};

use crate::insn::PicInsn;
use crate::state::PicState;
use crate::step::insn_at;
use pic_devices::{PicDevices, PicPlace, PicRegister};
use runs::ask::Ask;

impl PicState {
    /// What the next step asks the outside for; nothing where there is no step. `flash` has the words of program flash from 0 on.
    #[tactic(auto, using(crate::proofs::AskLemmas::asks_is))]
    pub fn asks(&self, flash: &[u16]) -> Ask
        ensures { result ≡ ask_of (steps_over (pic_step self.now.part) flash.now) self.now }
    {
        self.ask_at(flash)
    }

    fn ask_at(&self, flash: &[u16]) -> Ask
        ensures { result ≡ ask_at self.now.part flash.now self.now }
    {
        if self.place >= self.part.flash_words() {
            return Ask::Nothing;
        }
        match insn_at(self.part, flash, self.place) {
            None => Ask::Nothing,
            Some(insn) => self.unless_stuck_ask(insn),
        }
    }

    fn unless_stuck_ask(&self, insn: PicInsn) -> Ask
        requires { FieldsFit insn }
        ensures { result ≡ unless_stuck_ask self.now.part insn self.now (obstacle insn self.now) }
    {
        match self.obstacle(insn) {
            Some(_) => Ask::Nothing,
            None => self.insn_ask(insn),
        }
    }

    fn insn_ask(&self, insn: PicInsn) -> Ask
        requires { FieldsFit insn }
        ensures { result ≡ insn_ask self.now.part insn self.now }
    {
        match insn {
            PicInsn::Btfsc { f, b } | PicInsn::Btfss { f, b } => {
                bit_ask(&self.devices, self.place_of(self.part, f), b)
            }
            _ => Ask::Nothing,
        }
    }
}

fn bit_ask(devices: &PicDevices, place: PicPlace, b: u8) -> Ask
    ensures { result ≡ bit_ask devices.now place b }
{
    if b == 2 {
        place_ask(devices, place)
    } else {
        Ask::Nothing
    }
}

fn place_ask(devices: &PicDevices, place: PicPlace) -> Ask
    ensures { result ≡ place_ask devices.now place }
{
    match place {
        PicPlace::Special(PicRegister::Pir1) => timer_ask(devices),
        PicPlace::Special(PicRegister::Adcon0) => Ask::Device,
        _ => Ask::Nothing,
    }
}

fn timer_ask(devices: &PicDevices) -> Ask
    ensures { result ≡ timer_ask devices.now }
{
    if !devices.timer.flag && devices.is_timing() {
        Ask::Reading
    } else {
        Ask::Nothing
    }
}
