//! One vector: the machine before and after a step.

use chip_tables::{Env, PinReading, Settings, StepEnd, TimerSetting};
use pic_devices::PicPart;
use pic16_mach::PicState;

/// A machine before a step, the words at its place, and what its RAM was filled by.
#[derive(Drop)]
struct Before {
    machine: PicState,
    words: [u16; 2],
    seed: u8,
}

/// Whether the machine does what a vector says; `None` where the line is no vector.
pub fn agrees(part: PicPart, line: &str) -> Option<bool> {
    let (before, after) = line.split_once(" | ")?;
    let mut start = start_of(part, before)?;
    let mut flash = [0x3fff; 8192];
    for (place, word) in (start.machine.place as usize..).zip(start.words) {
        if place < flash.len() {
            flash[place] = word;
        }
    }
    let end = start.machine.step(&flash, &QUIET);
    is_after(&start, end, after)
}

const QUIET: Env = Env {
    ready: false,
    reading: PinReading {
        levels: [0, 0, 0, 0, 0],
        adc: [0, 0, 0, 0, 0, 0, 0, 0],
        rx: None,
        tx_busy: false,
        ee_busy: false,
    },
};

const SETTINGS: Settings = Settings {
    timer: TimerSetting {
        control: 0x01,
        compare: 0,
    },
    baud: None,
    pwm: None,
};

fn start_of(part: PicPart, text: &str) -> Option<Before> {
    let mut parts = text.split(' ');
    let _name = parts.next()?;
    let place = number(parts.next()?)?;
    let words = [number(parts.next()?)?, number(parts.next()?)?];
    let w = byte(parts.next()?)?;
    let status = byte(parts.next()?)?;
    let fsr = byte(parts.next()?)?;
    let pclath = byte(parts.next()?)?;
    let kept = parts.next()?;
    let seed = byte(parts.next()?)?;
    let mut machine = PicState::reset(part, &filled(seed), w, &[0; 256], &SETTINGS);
    machine.place = u32::from(place);
    machine.put_status(status);
    machine.fsr = fsr;
    machine.pclath = pclath;
    if kept != "-" {
        machine.stack[0] = number(kept)?;
        machine.depth = 1;
    }
    Some(Before {
        machine,
        words,
        seed,
    })
}

fn is_after(found: &Before, end: StepEnd, text: &str) -> Option<bool> {
    let mut parts = text.split(' ');
    let place = number(parts.next()?)?;
    let cycles = parts.next()?.parse::<u8>().ok()?;
    let w = byte(parts.next()?)?;
    let status = byte(parts.next()?)?;
    let fsr = byte(parts.next()?)?;
    let pclath = byte(parts.next()?)?;
    let depth = byte(parts.next()?)?;
    let kept = parts.next()?;
    let mut ram = filled(found.seed);
    put_changes(&mut ram, parts.next()?)?;
    let machine = &found.machine;
    Some(
        machine.place == u32::from(place)
            && cycles_of(end) == Some(cycles)
            && machine.w == w
            && machine.status() == status
            && machine.fsr == fsr
            && machine.pclath == pclath
            && machine.depth == depth
            && keeps(machine, kept)?
            && machine.ram == ram,
    )
}

/// Whether the last place that the stack keeps is as the text says; `-` where it keeps none.
fn keeps(machine: &PicState, text: &str) -> Option<bool> {
    match machine.depth.checked_sub(1) {
        None => Some(text == "-"),
        Some(last) => Some(*machine.stack.get(last as usize)? == number(text)?),
    }
}

fn cycles_of(end: StepEnd) -> Option<u8> {
    match end {
        StepEnd::Went(went) => Some(went.cycles),
        StepEnd::Stuck(_) => None,
    }
}

fn number(text: &str) -> Option<u16> {
    u16::from_str_radix(text, 16).ok()
}

fn byte(text: &str) -> Option<u8> {
    u8::from_str_radix(text, 16).ok()
}

/// The RAM that a seed gives.
fn filled(seed: u8) -> [u8; 512] {
    let mut ram = [0; 512];
    for (address, byte) in ram.iter_mut().enumerate() {
        *byte = ((7 * address + usize::from(seed)) % 256) as u8;
    }
    ram
}

fn put_changes(ram: &mut [u8; 512], list: &str) -> Option<()> {
    if list == "-" {
        return Some(());
    }
    for pair in list.split(',') {
        let (address, value) = pair.split_once('=')?;
        *ram.get_mut(usize::from(number(address)?))? = byte(value)?;
    }
    Some(())
}
