//! The lines above `PROGRAM`.

ghost use Rattle.std.specs.Prelude.{◌≡◌, IfOk, map};
ghost use Rattle.std.specs.Option.{option_map};
ghost use Rattle.ld_line.specs.Header.{behind_word, setting, pair_says, tokens_say, header_of};

use crate::number::{MOST_SETTING, natural_in};
use crate::said::{Said, made};
use crate::target::first_target;
use crate::tokens::{tokens, trimmed};
use chip_tables::Target;
use std::alloc::{AllocError, Global};

/// What a line above `PROGRAM` says.
#[derive(Clone, Copy, Debug, PartialEq, Eq)]
pub enum HeaderLine {
    /// The chip, if one of the five words names it.
    Micro(Option<Target>),
    /// The cycle time in microseconds.
    Cycle(u32),
    /// The crystal's frequency in hertz.
    Crystal(u32),
    /// The rate of the serial line in baud.
    Baud(u32),
    /// A line that is read and has no meaning.
    Compiled,
    /// A list of pins begins.
    Pins,
    /// The rungs begin.
    Program,
}

/// What stands behind the word, where the bytes begin with it.
fn behind_word<'a>(word: &[u8], bytes: &'a [u8]) -> Option<&'a [u8]>
    ensures { option_map (λ b. b.now) result ≡ behind_word word.now bytes.now }
{
    bytes.strip_prefix(word)
}

/// What a line of one token says.
#[tactic(auto, unfolding(crate::specs::Header::setting))]
fn setting(token: &[u8]) -> Said<HeaderLine>
    ensures { result ≡ setting token.now }
{
    if token == b"PROGRAM".as_slice() {
        return Said::Is(HeaderLine::Program);
    }
    if let Some(number) = behind_word(b"CYCLE=", token) {
        let said = natural_in(0, MOST_SETTING, number);
        return made!(said, cycle => HeaderLine::Cycle(cycle));
    }
    if let Some(number) = behind_word(b"CRYSTAL=", token) {
        let said = natural_in(0, MOST_SETTING, number);
        return made!(said, crystal => HeaderLine::Crystal(crystal));
    }
    if let Some(number) = behind_word(b"BAUD=", token) {
        let said = natural_in(0, MOST_SETTING, number);
        return made!(said, baud => HeaderLine::Baud(baud));
    }
    Said::Bad
}

/// What a line of two tokens says.
fn pair_says(first: &[u8], second: &[u8]) -> Said<HeaderLine>
    ensures { result ≡ pair_says first.now second.now }
{
    if first == b"IO".as_slice() && second == b"LIST".as_slice() {
        return Said::Is(HeaderLine::Pins);
    }
    Said::Bad
}

/// What a line says by its tokens.
fn tokens_say(tokens: &[&[u8]]) -> Said<HeaderLine>
    ensures { result ≡ tokens_say (map (λ t. t.now) tokens.now) }
{
    match tokens {
        [token] => setting(token),
        [first, second] => pair_says(first, second),
        _ => Said::Bad,
    }
}

/// What a line above `PROGRAM` says that is not blank.
pub fn header_line(alloc: Global, line: &[u8]) -> Result<Said<HeaderLine>, AllocError>
    ensures { IfOk result (λ said. said ≡ header_of line.now) }
{
    let text = trimmed(line);
    if let Some(words) = behind_word(b"MICRO=", text) {
        return Ok(Said::Is(HeaderLine::Micro(first_target(words))));
    }
    if behind_word(b"COMPILED=", text).is_some() {
        return Ok(Said::Is(HeaderLine::Compiled));
    }
    let tokens = tokens(alloc, line)?;
    Ok(tokens_say(tokens.as_slice()))
}
