//! What targets are called in the `MICRO` line of a project text.

ghost use Rattle.std.specs.Prelude.{◌≡◌};
ghost use Rattle.texts.specs.Lines.{pieces};
ghost use Rattle.ld_line.specs.Targets.{target_word, target_text, target_of, first_target};

use chip_tables::Target;
use texts::lines::split_piece;

/// All targets.
pub const TARGETS: [Target; 5] = [
    Target::F628,
    Target::F877,
    Target::Mega16,
    Target::Interp,
    Target::AnsiC,
];

/// The word that chooses the target.
fn target_word(target: Target) -> &'static str
    ensures { result.now ≡ target_word target }
{
    match target {
        Target::F628 => "PIC16F628",
        Target::F877 => "PIC16F877",
        Target::Mega16 => "ATmega16",
        Target::Interp => "Interpretable",
        Target::AnsiC => "ANSI",
    }
}

/// The whole text of the target, as it is printed.
pub fn target_text(target: Target) -> &'static str
    ensures { result.now ≡ target_text target }
{
    match target {
        Target::F628 => "Microchip PIC16F628 18-PDIP or 18-SOIC",
        Target::F877 => "Microchip PIC16F877 40-PDIP",
        Target::Mega16 => "Atmel AVR ATmega16 40-PDIP",
        Target::Interp => "Interpretable Byte Code",
        Target::AnsiC => "ANSI C Code",
    }
}

/// The target that a word chooses.
fn target_of(word: &[u8]) -> Option<Target>
    ensures { result ≡ target_of word.now }
{
    let mut targets = TARGETS.iter().copied();
    targets.find(|target| target_word(*target).as_bytes() == word)
}

/// The target of the first word that chooses one. Words are one space apart.
pub fn first_target(text: &[u8]) -> Option<Target>
    ensures { result ≡ first_target (pieces 32 text.now) }
{
    let mut rest = text;
    while let Some((word, behind)) = split_piece(b' ', rest) {
        match target_of(word) {
            Some(target) => return Some(target),
            None => rest = behind,
        }
    }
    target_of(rest)
}
