//! What the machine asks the outside for.

ghost use Rattle.std.specs.Prelude.{◌≡◌};
ghost use Rattle.avr_devices.specs.Part.{mega16};
ghost use Rattle.avr_mach.specs.Asks.{timer_ask, in_ask, bit_ask, lds_ask, insn_ask, unless_stuck_ask, ask_at};
ghost use Rattle.avr_mach.specs.Control.{obstacle};
ghost use Rattle.avr_mach.specs.Step.{avr_step};
ghost use Rattle.runs.specs.Chip.{steps_over};
ghost use Rattle.runs.specs.Run.{ask_of};

use crate::insn::AvrInsn;
use crate::state::AvrState;
use crate::step::insn_at;
use avr_devices::{AvrDevices, IoRegister, register_at};
use chip_tables::mega16::{FLASH_WORDS, IO_FIRST, SRAM_FIRST};
use runs::ask::Ask;

impl AvrState {
    /// What the next step asks the outside for; nothing where there is no step. `flash` has the words of program flash from 0 on.
    #[tactic(auto, using(crate::proofs::AskLemmas::asks_is))]
    pub fn asks(&self, flash: &[u16]) -> Ask
        ensures { result ≡ ask_of (steps_over (avr_step mega16) flash.now) self.now }
    {
        self.ask_at(flash)
    }

    fn ask_at(&self, flash: &[u16]) -> Ask
        ensures { result ≡ ask_at flash.now self.now }
    {
        if self.place >= FLASH_WORDS {
            return Ask::Nothing;
        }
        match insn_at(flash, self.place) {
            None => Ask::Nothing,
            Some(insn) => self.unless_stuck_ask(insn),
        }
    }

    fn unless_stuck_ask(&self, insn: AvrInsn) -> Ask
        ensures { result ≡ unless_stuck_ask insn self.now (obstacle mega16 insn self.now) }
    {
        match self.obstacle(insn) {
            Some(_) => Ask::Nothing,
            None => insn_ask(insn, &self.devices),
        }
    }
}

fn insn_ask(insn: AvrInsn, devices: &AvrDevices) -> Ask
    ensures { result ≡ insn_ask insn devices.now }
{
    match insn {
        AvrInsn::In { a, .. } => in_ask(devices, register_at(a)),
        AvrInsn::Sbic { a, .. } | AvrInsn::Sbis { a, .. } => bit_ask(register_at(a)),
        AvrInsn::Lds { address, .. } => {
            if IO_FIRST <= address && address < SRAM_FIRST {
                lds_ask(devices, register_at((address - IO_FIRST) as u8))
            } else {
                Ask::Nothing
            }
        }
        _ => Ask::Nothing,
    }
}

fn in_ask(devices: &AvrDevices, register: IoRegister) -> Ask
    ensures { result ≡ in_ask devices.now register }
{
    match register {
        IoRegister::Tifr => timer_ask(devices),
        IoRegister::Adcsra => Ask::Device,
        _ => Ask::Nothing,
    }
}

fn bit_ask(register: IoRegister) -> Ask
    ensures { result ≡ bit_ask register }
{
    match register {
        IoRegister::Adcsra => Ask::Device,
        _ => Ask::Nothing,
    }
}

fn lds_ask(devices: &AvrDevices, register: IoRegister) -> Ask
    ensures { result ≡ lds_ask devices.now register }
{
    match register {
        IoRegister::Tifr => timer_ask(devices),
        _ => Ask::Nothing,
    }
}

fn timer_ask(devices: &AvrDevices) -> Ask
    ensures { result ≡ timer_ask devices.now }
{
    if !devices.timer.flag && devices.is_timing() {
        Ask::Reading
    } else {
        Ask::Nothing
    }
}
