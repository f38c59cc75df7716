//! The report of a project that was compiled.

ghost use Rattle.std.specs.Prelude.{◌≡◌, IfOk};
ghost use Rattle.std.specs.String.{string_bytes};
ghost use Rattle.ladder_lower.specs.Outcome.{IsSmall};
ghost use Rattle.ldmicro_top.specs.Report.{report, avr_report, c_report};

use crate::kept::kept_of;
use ladder_tree::names::Names;
use std::alloc::{AllocError, Global};

/// The report for the interpretable target: what the code needs, and how many operations it has, which is also the
/// most that a cycle executes.
pub fn report(alloc: Global, names: &Names, operations: usize) -> Result<String, AllocError>
    requires { IsSmall names.now }
    ensures { IfOk result (λ text. string_bytes text ≡ report names.now operations) }
{
    let kept = kept_of(names);
    let ram = kept.ram_need();
    let eeprom = kept.eeprom_need();
    format!(in alloc;
        "target Interpretable\noperations {operations}\nram {ram} of 8192\neeprom {eeprom} of 512\ncycles {operations}\n"
    )
}

/// The report for the ATmega16: how many words of program flash the code fills, what it keeps, and how many instruction cycles pass at most in a
/// cycle of the ladder and before the first.
pub fn avr_report(
    alloc: Global,
    names: &Names,
    words: u32,
    cycles: u32,
    boot: u32,
) -> Result<String, AllocError>
    requires { IsSmall names.now }
    ensures { IfOk result (λ text. string_bytes text ≡ avr_report names.now words cycles boot) }
{
    let kept = kept_of(names);
    let ram = kept.ram_need();
    let eeprom = kept.eeprom_need();
    format!(in alloc;
        "target ATmega16\nwords {words} of 8192\nram {ram} of 960\neeprom {eeprom} of 512\ncycles {cycles}\nboot {boot}\n"
    )
}

/// The report for C: what the text keeps, at 16 bits a variable and one a bit.
pub fn c_report(alloc: Global, names: &Names) -> Result<String, AllocError>
    requires { IsSmall names.now }
    ensures { IfOk result (λ text. string_bytes text ≡ c_report names.now) }
{
    let kept = kept_of(names);
    let ram = kept.ram_need();
    let eeprom = kept.eeprom_need();
    format!(in alloc; "target ANSI-C\nram {ram} of 8192\neeprom {eeprom} of 512\n")
}
