//! Cases of the written PICs. The machine stays from case to case.

use crate::words::{CaseError, hex_byte, hex_word};
use chip_tables::{BaudSetting, Env, PinReading, PwmSetting, Settings, StepEnd, TimerSetting};
use pic_devices::PicPart;
use pic16_mach::PicState;
use std::alloc::Global;

const SETTINGS: Settings = Settings {
    timer: TimerSetting {
        control: 0x11,
        compare: 0x1387,
    },
    baud: Some(BaudSetting {
        divisor: 103,
        fast: true,
    }),
    pwm: Some(PwmSetting {
        control: 0x05,
        top: 250,
    }),
};

const READING: PinReading = PinReading {
    levels: [0xff, 0x34, 0x56, 0x78, 0xff],
    adc: [0, 0x3a5, 0, 0, 0, 0, 0, 0],
    rx: Some(0x41),
    tx_busy: false,
    ee_busy: false,
};

/// The last place of page 0 of program flash.
const LAST_OF_PAGE: usize = 0x7ff;

/// A machine, and the words from place 0 of its program flash on.
#[derive(Drop)]
pub struct Bench {
    machine: PicState,
    flash: [u16; 4],
}

impl Bench {
    pub fn new() -> Bench {
        Bench {
            machine: fresh(PicPart::F877),
            flash: [0x3fff; 4],
        }
    }

    /// `reset PART` makes a new machine, and `read` gives it the reading that a cycle begins with. `flash W W W W` sets the words
    /// that `step ASKED` goes through. `try WORD W ASKED` steps through a word at place 0 that stands alone, with W as given. ASKED
    /// is `ready` or `busy`. `far WORD` steps through a word at place 7FEh, the last but one of page 0. `put ADDRESS BYTE` and `get ADDRESS` write and read a file register through INDF. `status`, `pclath`,
    /// `place` and `depth` with a number set what they name. The other words show the machine.
    pub fn answer(&mut self, alloc: Global, words: &[&str]) -> Result<String, CaseError> {
        match words {
            ["reset", part] => {
                self.machine = fresh(part_of(part)?);
                done(alloc)
            }
            ["read"] => {
                self.machine.devices.reading = READING;
                done(alloc)
            }
            ["flash", a, b, c, d] => {
                self.flash = [hex_word(a)?, hex_word(b)?, hex_word(c)?, hex_word(d)?];
                done(alloc)
            }
            ["step", asked] => {
                let env = env(asked)?;
                shown(alloc, self.machine.step(&self.flash, &env))
            }
            ["try", word, w, asked] => shown(alloc, self.tried(word, w, asked)?),
            ["far", word] => shown(alloc, self.tried_far(hex_word(word)?)),
            ["put", address, x] => {
                self.point(hex_word(address)?);
                shown(alloc, self.tried("0080", x, "busy")?)
            }
            ["get", address] => self.got(alloc, hex_word(address)?),
            [what] => self.told(alloc, what),
            [what, number] => self.set(alloc, what, number),
            _ => Err(CaseError::NoCase),
        }
    }

    /// FSR and IRP get the address of a file register.
    fn point(&mut self, address: u16) {
        self.machine.fsr = (address % 256) as u8;
        self.machine.irp = address / 256 % 2 == 1;
    }

    fn got(&mut self, alloc: Global, address: u16) -> Result<String, CaseError> {
        self.point(address);
        let _end = self.tried("0800", "0", "busy")?;
        hex(alloc, u32::from(self.machine.w))
    }

    fn tried(&mut self, word: &str, w: &str, asked: &str) -> Result<StepEnd, CaseError> {
        let word = hex_word(word)?;
        let env = env(asked)?;
        self.machine.place = 0;
        self.machine.w = hex_byte(w)?;
        Ok(self.machine.step(&[word], &env))
    }

    fn tried_far(&mut self, word: u16) -> StepEnd {
        let mut flash = [0x3fff; LAST_OF_PAGE];
        flash[LAST_OF_PAGE - 1] = word;
        self.machine.place = LAST_OF_PAGE as u32 - 1;
        self.machine.step(&flash, &device_answer(false))
    }

    fn told(&self, alloc: Global, what: &str) -> Result<String, CaseError> {
        let machine = &self.machine;
        match what {
            "w" => hex(alloc, u32::from(machine.w)),
            "status" => hex(alloc, u32::from(machine.status())),
            "place" => hex(alloc, machine.place()),
            "depth" => hex(alloc, u32::from(machine.depth)),
            "modulator" => {
                let (duty, on) = (machine.pwm(), machine.devices.is_modulating());
                Ok(format!(in alloc; "{duty:x} {on}")?)
            }
            "port_b" => Ok(format!(in alloc; "{:x} {:x}", machine.direction(1), machine.latch(1))?),
            _ => Err(CaseError::NoCase),
        }
    }

    fn set(&mut self, alloc: Global, what: &str, number: &str) -> Result<String, CaseError> {
        let number = hex_word(number)?;
        let low = (number % 256) as u8;
        match what {
            "status" => self.machine.put_status(low),
            "pclath" => self.machine.pclath = low,
            "place" => self.machine.place = u32::from(number),
            "depth" => self.machine.depth = low,
            "eeprom" => {
                return hex(
                    alloc,
                    u32::from(self.machine.eeprom_at(u16::from(low % 128))),
                );
            }
            _ => return Err(CaseError::NoCase),
        }
        done(alloc)
    }
}

fn part_of(word: &str) -> Result<PicPart, CaseError> {
    match word {
        "F628" => Ok(PicPart::F628),
        "F877" => Ok(PicPart::F877),
        _ => Err(CaseError::NoCase),
    }
}

fn done(alloc: Global) -> Result<String, CaseError> {
    Ok(String::from_str(alloc, "done")?)
}

fn hex(alloc: Global, number: u32) -> Result<String, CaseError> {
    Ok(format!(in alloc; "{number:x}")?)
}

/// How a step ended: its cycles, poll and byte that was sent, or where it is stuck and why.
fn shown(alloc: Global, end: StepEnd) -> Result<String, CaseError> {
    match end {
        StepEnd::Went(went) => {
            Ok(format!(in alloc; "{} {:?} {:?}", went.cycles, went.poll, went.sent)?)
        }
        StepEnd::Stuck(at) => {
            Ok(format!(in alloc;
                "stuck at {:04x} word {:04x} {:?}",
                at.place, at.word, at.cause
            )?)
        }
    }
}

fn fresh(part: PicPart) -> PicState {
    PicState::reset(part, &[0; 512], 0, &[0xff; 256], &SETTINGS)
}

fn env(asked: &str) -> Result<Env, CaseError> {
    match asked {
        "ready" => Ok(device_answer(true)),
        "busy" => Ok(device_answer(false)),
        _ => Err(CaseError::NoCase),
    }
}

fn device_answer(ready: bool) -> Env {
    Env {
        ready,
        reading: READING,
    }
}
