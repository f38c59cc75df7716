//! The configuration words.

ghost use Rattle.std.specs.Prelude.{◌≡◌};
ghost use Rattle.chip_tables.specs.Configuration.{configuration_of};

use crate::target::Target;

/// The configuration word of a compiled program: crystal oscillator, no watchdog, no low-voltage programming, no code protection; the chip waits for its
/// supply at power-up, and resets where it drops. None where the target has no such word.
pub fn configuration_word(target: Target) -> Option<u16>
    ensures { result ≡ configuration_of target }
{
    match target {
        Target::F628 => Some(0x3f62),
        Target::F877 => Some(0x3f72),
        Target::Mega16 | Target::Interp | Target::AnsiC => None,
    }
}
