//! Cases of the tables: the name of a table, a target, and the other arguments of the call in decimal digits.

use crate::words::{CaseError, number, short, shown, target};
use chip_tables::{
    CostKind, Target, adc_channel, baud_setting, configuration_word, cost, eeprom_have,
    flash_words, mega16, pic16, pin_of, pwm_pin, pwm_setting, ram_byte, ram_have, rx_pin,
    timer_setting, tx_pin,
};
use std::alloc::Global;

/// What the call gives.
pub fn answer(alloc: Global, words: &[&str]) -> Result<String, CaseError> {
    match words {
        [table, chip] => of_target(alloc, table, target(chip)?),
        [table, chip, one] => of_one(alloc, table, target(chip)?, one),
        [table, chip, one, other] => {
            of_two(alloc, table, target(chip)?, number(one)?, number(other)?)
        }
        _ => Err(CaseError::NoCase),
    }
}

fn of_target(alloc: Global, table: &str, chip: Target) -> Result<String, CaseError> {
    match table {
        "pins" => shown(alloc, &pin_count(chip)),
        "devices" => devices(alloc, chip),
        "memories" => memories(alloc, chip),
        "configuration" => shown(alloc, &configuration_word(chip)),
        "wait" => shown(alloc, &wait(chip)),
        _ => Err(CaseError::NoCase),
    }
}

fn devices(alloc: Global, chip: Target) -> Result<String, CaseError> {
    let (rx, tx, pwm) = (rx_pin(chip), tx_pin(chip), pwm_pin(chip));
    Ok(format!(in alloc; "{rx:?} {tx:?} {pwm:?}")?)
}

fn memories(alloc: Global, chip: Target) -> Result<String, CaseError> {
    let (ram, eeprom, flash) = (ram_have(chip), eeprom_have(chip), flash_words(chip));
    Ok(format!(in alloc; "{ram} {eeprom} {flash:?}")?)
}

/// The cycles of a turn of a waiting loop.
fn wait(chip: Target) -> Option<u32> {
    match chip {
        Target::F628 | Target::F877 => Some(pic16::WAIT_CYCLES),
        Target::Mega16 => Some(mega16::WAIT_CYCLES),
        Target::Interp | Target::AnsiC => None,
    }
}

fn of_one(alloc: Global, table: &str, chip: Target, word: &str) -> Result<String, CaseError> {
    match table {
        "pin" => shown(alloc, &pin_of(chip, short(word)?)),
        "channel" => shown(alloc, &adc_channel(chip, short(word)?)),
        "byte" => shown(alloc, &ram_byte(chip, number(word)?)),
        "cost" => shown(alloc, &cost(chip, kind(word)?)),
        _ => Err(CaseError::NoCase),
    }
}

fn of_two(
    alloc: Global,
    table: &str,
    chip: Target,
    one: u32,
    other: u32,
) -> Result<String, CaseError> {
    match table {
        "timer" => shown(alloc, &timer_setting(chip, one, other)),
        "baud" => shown(alloc, &baud_setting(chip, one, other)),
        "pwm" => shown(alloc, &pwm_setting(chip, one, other)),
        _ => Err(CaseError::NoCase),
    }
}

/// How many of the pins below 100 carry a port bit.
fn pin_count(chip: Target) -> usize {
    (0..100).filter(|pin| pin_of(chip, *pin).is_some()).count()
}

/// The kinds that the cases name.
fn kind(word: &str) -> Result<CostKind, CaseError> {
    match word {
        "Shift" => Ok(CostKind::Shift),
        "Table" => Ok(CostKind::Table),
        "SetPwm" => Ok(CostKind::SetPwm),
        "Persist" => Ok(CostKind::Persist),
        "MasterRelay" => Ok(CostKind::MasterRelay),
        "Linear" => Ok(CostKind::Linear),
        "Formatted" => Ok(CostKind::Formatted),
        "FormattedField" => Ok(CostKind::FormattedField),
        _ => Err(CaseError::NoCase),
    }
}
