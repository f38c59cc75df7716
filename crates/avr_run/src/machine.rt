//! The written ATmega16 as a run drives it.

ghost use Rattle.std.specs.Prelude.{◌≡◌, replicate};
ghost use Rattle.avr_mach.specs.Reset.{reset_state};
ghost use Rattle.chip_tables.specs.Bits.{bit_of};
ghost use Rattle.avr_devices.specs.Device.{port_of};
ghost use Rattle.avr_chip.specs.Machine.{IsReset, avr_chip};

use avr_devices::AvrPort;
use avr_mach::AvrState;
use chip_run::machine::ChipMachine;
use chip_tables::mega16::{EEPROM_BYTES, SRAM_BYTES};
use chip_tables::{Env, PortBit, Settings, StepEnd, bit_of};
use runs::ask::Ask;
use std::marker::Model;

/// An ATmega16 between two instructions. To contracts it is the state of the written machine.
#[derive(Drop)]
pub struct Atmega16 {
    state: AvrState,
}

impl Model for Atmega16 {
    ghost use Rattle.avr_mach.specs.declared.state.AvrState.{AvrState};

    ghost Value = { AvrState };

    ghost view = { λ r. r.state };
}

/// Whether a bit of a byte is 1; a byte has none from bit 8 on.
#[tactic(auto, using(crate::proofs::BitLemmas::none_above))]
fn is_set(byte: u8, b: u8) -> bool
    ensures { result ≡ bit_of byte b }
{
    b < 8 && bit_of(byte, b)
}

impl Atmega16 {
    /// The ATmega16 at reset with these bytes in its EEPROM. All registers and the SRAM are 0.
    pub fn reset(eeprom: &[u8; EEPROM_BYTES], settings: &Settings) -> Atmega16
        ensures reset { IsReset settings.now eeprom.now result }
        ensures zero { result ≡ reset_state (replicate SRAM_BYTES 0) (replicate 32 0) eeprom.now settings.now }
    {
        Atmega16 {
            state: AvrState::reset(&[0; SRAM_BYTES], &[0; 32], eeprom, settings),
        }
    }

    fn port(&self, port: u8) -> AvrPort
        ensures { result ≡ port_of self.now.devices port }
    {
        match port {
            0 => self.state.devices.port_a,
            1 => self.state.devices.port_b,
            2 => self.state.devices.port_c,
            _ => self.state.devices.port_d,
        }
    }
}

impl ChipMachine for Atmega16 {
    ghost chip = { avr_chip };

    ghost resets = { IsReset };

    fn asks(&self, flash: &[u16]) -> Ask {
        self.state.asks(flash)
    }

    fn step(&mut self, flash: &[u16], env: &Env) -> StepEnd {
        self.state.step(flash, env)
    }

    fn cell(&self, address: u16) -> u8 {
        self.state.ram_at(address)
    }

    fn latch(&self, b: PortBit) -> bool {
        is_set(self.port(b.port).latch, b.bit)
    }

    fn eeprom(&self, address: u16) -> u8 {
        match self.state.devices.eeprom.bytes.get(usize::from(address)) {
            Some(byte) => *byte,
            None => 0,
        }
    }
}
