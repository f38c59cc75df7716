//! Cases of the written ATmega16, with all numbers in hexadecimal digits. The machine stays from case to case.

use crate::words::{CaseError, hex_byte, hex_word, shown};
use avr_mach::AvrState;
use chip_tables::{BaudSetting, Env, PinReading, Settings, StepEnd, TimerSetting};
use std::alloc::Global;

const SETTINGS: Settings = Settings {
    timer: TimerSetting {
        control: 0x0a,
        compare: 0x1387,
    },
    baud: Some(BaudSetting {
        divisor: 103,
        fast: false,
    }),
    pwm: None,
};

const READING: PinReading = PinReading {
    levels: [0x12, 0x34, 0x56, 0x78, 0],
    adc: [0, 0x3a5, 0, 0, 0, 0, 0, 0],
    rx: Some(65),
    tx_busy: false,
    ee_busy: false,
};

/// A machine, and the words from place 0 of its program flash on.
#[derive(Drop)]
pub struct Bench {
    machine: AvrState,
    flash: [u16; 4],
}

impl Bench {
    pub fn new() -> Bench {
        Bench {
            machine: fresh(),
            flash: [0xffff; 4],
        }
    }

    /// `reset` makes a new machine, and `read` gives it the reading that a cycle begins with. `flash W W W W` sets the words that
    /// `step ASKED` goes through. `try WORD REG ASKED` steps through a word at place 0 that stands alone, with R16 as given. ASKED
    /// is `ready` or `busy`. `flags WORD REG REG SREG` steps a new machine through a word with R16, R17 and SREG as given, and
    /// shows R16 and SREG. The other words show the machine.
    pub fn answer(&mut self, alloc: Global, words: &[&str]) -> Result<String, CaseError> {
        match words {
            ["reset"] => {
                self.machine = fresh();
                done(alloc)
            }
            ["read"] => {
                self.machine.devices.reading = READING;
                done(alloc)
            }
            ["flash", a, b, c, d] => {
                self.flash = flash_of(a, b, c, d)?;
                done(alloc)
            }
            ["step", asked] => shown(alloc, &self.machine.step(&self.flash, &env(asked)?)),
            ["try", word, x, asked] => shown(alloc, &self.tried(word, x, asked)?),
            ["flags", word, x, y, sreg] => flags(alloc, word, x, y, sreg),
            [what] => self.told(alloc, what),
            [memory, address] => self.byte_at(alloc, memory, address),
            _ => Err(CaseError::NoCase),
        }
    }

    fn tried(&mut self, word: &str, x: &str, asked: &str) -> Result<StepEnd, CaseError> {
        let word = hex_word(word)?;
        let env = env(asked)?;
        self.machine.place = 0;
        self.machine.regs[16] = hex_byte(x)?;
        Ok(self.machine.step(&[word], &env))
    }

    fn told(&self, alloc: Global, what: &str) -> Result<String, CaseError> {
        let machine = &self.machine;
        match what {
            "place" => hex(alloc, machine.place()),
            "modulator" => hex(alloc, u32::from(machine.pwm())),
            "r16" => hex(alloc, u32::from(machine.regs[16])),
            "reading" => shown(alloc, &machine.devices.reading),
            "port_b" => Ok(format!(in alloc; "{:x} {:x}", machine.direction(1), machine.latch(1))?),
            _ => Err(CaseError::NoCase),
        }
    }

    fn byte_at(&self, alloc: Global, memory: &str, address: &str) -> Result<String, CaseError> {
        match memory {
            "ram" => hex(alloc, u32::from(self.machine.ram_at(hex_word(address)?))),
            "eeprom" => {
                let address = u16::from(hex_byte(address)?);
                hex(alloc, u32::from(self.machine.eeprom_at(address)))
            }
            _ => Err(CaseError::NoCase),
        }
    }
}

fn done(alloc: Global) -> Result<String, CaseError> {
    Ok(String::from_str(alloc, "done")?)
}

fn hex(alloc: Global, number: u32) -> Result<String, CaseError> {
    Ok(format!(in alloc; "{number:x}")?)
}

fn flash_of(a: &str, b: &str, c: &str, d: &str) -> Result<[u16; 4], CaseError> {
    Ok([hex_word(a)?, hex_word(b)?, hex_word(c)?, hex_word(d)?])
}

fn fresh() -> AvrState {
    AvrState::reset(&[0; 1024], &[0; 32], &[0xff; 512], &SETTINGS)
}

fn env(asked: &str) -> Result<Env, CaseError> {
    match asked {
        "ready" => Ok(device_answer(true)),
        "busy" => Ok(device_answer(false)),
        _ => Err(CaseError::NoCase),
    }
}

fn device_answer(ready: bool) -> Env {
    Env {
        ready,
        reading: READING,
    }
}

fn flags(alloc: Global, word: &str, x: &str, y: &str, sreg: &str) -> Result<String, CaseError> {
    let word = hex_word(word)?;
    let (x, y, sreg) = (hex_byte(x)?, hex_byte(y)?, hex_byte(sreg)?);
    let mut machine = fresh();
    machine.regs[16] = x;
    machine.regs[17] = y;
    machine.put_sreg(sreg);
    let end = machine.step(&[word], &device_answer(false));
    Ok(format!(in alloc; "{:x} {:x}, {end:?}", machine.regs[16], machine.sreg())?)
}
