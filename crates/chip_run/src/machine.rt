//! What a chip's written machine gives a run.

ghost use Rattle.std.specs.Prelude.{◌≡◌};
ghost use Rattle.runs.specs.Chip.{steps_over};
ghost use Rattle.runs.specs.Run.{ask_of};
ghost use Rattle.chip_meaning.specs.Chip.{Chip, Resets};
ghost use Rattle.chip_tables.specs.declared.settings.Settings.{Settings};

use chip_tables::{Env, PortBit, StepEnd};
use runs::ask::Ask;

/// The state of a chip's written machine.
pub trait ChipMachine {
    /// What its steps are, and what is to be seen of it between them.
    ghost chip: { Chip Self };

    /// What it may be at reset, by the settings of its devices.
    ghost resets: { Settings → Resets Self };

    /// What it asks for before its next step, with these words in its flash.
    fn asks(&self, flash: &[u16]) -> Ask
        ensures { result ≡ ask_of (steps_over chip.step flash.now) self.now };

    /// Takes a step.
    fn step(&mut self, flash: &[u16], env: &Env) -> StepEnd
        ensures state { self.new ≡ (chip.step flash.now env.now self.old).state }
        ensures end { result ≡ (chip.step flash.now env.now self.old).end };

    /// The byte at an address of data memory.
    fn cell(&self, address: u16) -> u8
        ensures { result ≡ (chip.view self.now).cell address };

    /// The latch of a port bit.
    fn latch(&self, b: PortBit) -> bool
        ensures { result ≡ (chip.view self.now).latch b };

    /// The byte at an address of the EEPROM.
    fn eeprom(&self, address: u16) -> u8
        ensures { result ≡ (chip.view self.now).eeprom address };
}
