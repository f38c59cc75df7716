//! One vector: the machine before and after a step.

ghost use Rattle.std.specs.Prelude.{◌<◌, IfSome};

use avr_devices::register_at;
use avr_mach::AvrState;
use chip_tables::{Env, PinReading, Settings, StepEnd, TimerSetting};

/// A machine before a step, the words at its place, and what its SRAM was filled by.
#[derive(Drop)]
struct Before {
    machine: AvrState,
    words: [u16; 3],
    seed: u8,
}

/// Whether the machine does what a vector says; `None` where the line is no vector.
pub fn agrees(line: &str) -> Option<bool> {
    let (before, after) = line.split_once(" | ")?;
    let mut start = start_of(before)?;
    let mut flash = [0xffff; 8192];
    for (place, word) in (start.machine.place as usize..).zip(start.words) {
        if place < flash.len() {
            flash[place] = word;
        }
    }
    let end = start.machine.step(&flash, &QUIET);
    is_after(&start, end, after)
}

const QUIET: Env = Env {
    ready: false,
    reading: PinReading {
        levels: [0, 0, 0, 0, 0],
        adc: [0, 0, 0, 0, 0, 0, 0, 0],
        rx: None,
        tx_busy: false,
        ee_busy: false,
    },
};

const SETTINGS: Settings = Settings {
    timer: TimerSetting {
        control: 0x09,
        compare: 0,
    },
    baud: None,
    pwm: None,
};

fn start_of(text: &str) -> Option<Before> {
    let mut parts = text.split(' ');
    let _name = parts.next()?;
    let place = number(parts.next()?)?;
    let words = [
        number(parts.next()?)?,
        number(parts.next()?)?,
        number(parts.next()?)?,
    ];
    let sreg = byte(parts.next()?)?;
    let stack = number(parts.next()?)?;
    let seed = byte(parts.next()?)?;
    let regs = registers(parts.next()?)?;
    let mut machine = AvrState::reset(&filled(seed), &regs, &[0; 512], &SETTINGS);
    machine.place = u32::from(place);
    machine.put_sreg(sreg);
    machine.stack = stack;
    put_registers(&mut machine, parts.next()?)?;
    Some(Before {
        machine,
        words,
        seed,
    })
}

fn is_after(found: &Before, end: StepEnd, text: &str) -> Option<bool> {
    let mut parts = text.split(' ');
    let place = number(parts.next()?)?;
    let cycles = parts.next()?.parse::<u8>().ok()?;
    let sreg = byte(parts.next()?)?;
    let stack = number(parts.next()?)?;
    let regs = registers(parts.next()?)?;
    let mut sram = filled(found.seed);
    put_changes(&mut sram, parts.next()?)?;
    let machine = &found.machine;
    let shown = shows_registers(machine, parts.next()?)?;
    Some(
        machine.place == u32::from(place)
            && cycles_of(end) == Some(cycles)
            && machine.sreg() == sreg
            && machine.stack == stack
            && machine.regs == regs
            && machine.sram == sram
            && shown,
    )
}

fn cycles_of(end: StepEnd) -> Option<u8> {
    match end {
        StepEnd::Went(went) => Some(went.cycles),
        StepEnd::Stuck(_) => None,
    }
}

fn number(text: &str) -> Option<u16> {
    u16::from_str_radix(text, 16).ok()
}

fn byte(text: &str) -> Option<u8> {
    u8::from_str_radix(text, 16).ok()
}

/// The SRAM that a seed gives.
fn filled(seed: u8) -> [u8; 1024] {
    let mut sram = [0; 1024];
    for (i, byte) in sram.iter_mut().enumerate() {
        *byte = ((7 * (i + 0x60) + usize::from(seed)) % 256) as u8;
    }
    sram
}

/// The registers from their digits.
fn registers(digits: &str) -> Option<[u8; 32]> {
    let digits = digits.as_bytes();
    if digits.len() != 64 {
        return None;
    }
    let mut regs = [0; 32];
    for (i, reg) in regs.iter_mut().enumerate() {
        *reg = digit(digits[2 * i])? * 16 + digit(digits[2 * i + 1])?;
    }
    Some(regs)
}

fn digit(byte: u8) -> Option<u8>
    ensures { IfSome result (λ d. d < 16) }
{
    match byte {
        b'0'..=b'9' => Some(byte - b'0'),
        b'a'..=b'f' => Some(byte - b'a' + 10),
        _ => None,
    }
}

fn put_registers(machine: &mut AvrState, list: &str) -> Option<()> {
    for pair in list.split(',') {
        let (address, value) = pair.split_once('=')?;
        let _sent = machine
            .devices
            .write(register_at(byte(address)?), byte(value)?, 1);
    }
    Some(())
}

fn shows_registers(machine: &AvrState, list: &str) -> Option<bool> {
    let mut all = true;
    for pair in list.split(',') {
        let (address, value) = pair.split_once('=')?;
        all = all && machine.devices.byte(register_at(byte(address)?)) == byte(value)?;
    }
    Some(all)
}

fn put_changes(sram: &mut [u8; 1024], list: &str) -> Option<()> {
    if list == "-" {
        return Some(());
    }
    for pair in list.split(',') {
        let (address, value) = pair.split_once('=')?;
        let place = usize::from(number(address)?.checked_sub(0x60)?);
        *sram.get_mut(place)? = byte(value)?;
    }
    Some(())
}
