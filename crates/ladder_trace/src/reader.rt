//! What is read of a trace, line by line.

ghost use Rattle.std.specs.Prelude.{◌≡◌, [], ◌∷◌, ◌++◌, map, filter, IfOk, OnOk};
ghost use Rattle.ladder_trace.specs.Token.{IsReadingOf};
ghost use Rattle.ladder_trace.specs.Line.{is_skipped, tokens, filled, eeprom_of, eeprom_alone, eeprom_says, count_of, timed, with_step, step_says, words_say, line_says, start};
ghost use Rattle.texts.specs.Keys.{Takes};
ghost use Rattle.texts.specs.Lines.{is_some_bytes};
ghost use Rattle.ladder_trace.specs.Held.{reading, draft};

use crate::levels::Levels;
use crate::token::take_tokens;
use crate::trace::{Step, Steps};
use chip_tables::EEPROM_MOST;
use hex::FromHexError;
use ladder_tree::element::Bytes;
use ladder_tree::names::Names;
use ld_base::list::List;
use std::alloc::{AllocError, Global};
use texts::digits::digits_to;
use texts::lines::{split_piece, without_return};

/// How many cycles the steps of a trace may have.
const MOST_CYCLES: u32 = 100_000;

/// What was read so far.
#[derive(Drop)]
pub struct Reader {
    /// Whether a line was not skipped.
    pub begun: bool,
    pub eeprom: Bytes,
    /// Those of the last step.
    pub levels: Levels,
    /// The cycles of all steps.
    pub cycles: u32,
    pub steps: Steps,
}

impl Reader {
    pub fn new(alloc: Global, names: &Names) -> Result<Reader, AllocError>
        ensures { IfOk result (λ reader. draft reader ≡ start names.now) }
    {
        let eeprom = filled(alloc, Vec::new(alloc))?;
        let levels = Levels::new(alloc, names)?;
        Ok(Reader {
            begun: false,
            eeprom,
            levels,
            cycles: 0,
            steps: Steps::new(alloc),
        })
    }

    /// Reads a line, and says whether it may stand where it stands.
    pub fn read(&mut self, alloc: Global, names: &Names, line: &[u8]) -> Result<bool, AllocError>
        requires { IsReadingOf names.now (reading self.old.levels) }
        ensures read { IfOk result (λ ok. Takes (line_says names.now (draft self.old) line.now) ok (draft self.new)) }
        ensures fits { IsReadingOf names.now (reading self.new.levels) }
    {
        let line = without_return(line);
        if is_skipped(line) {
            return Ok(true);
        }
        let words = tokens(alloc, line)?;
        self.take_words(alloc, names, words.as_slice())
    }

    fn take_words(
        &mut self,
        alloc: Global,
        names: &Names,
        words: &[&[u8]],
    ) -> Result<bool, AllocError>
        requires { IsReadingOf names.now (reading self.old.levels) }
        ensures read { IfOk result (λ ok. Takes (words_say names.now (draft self.old) (map (λ w. w.now) words.now)) ok (draft self.new)) }
        ensures fits { IsReadingOf names.now (reading self.new.levels) }
    {
        if let [word, rest @ ..] = words {
            if *word == b"eeprom".as_slice() {
                return self.take_eeprom(alloc, rest);
            }
        }
        self.take_step(alloc, names, words)
    }

    fn take_eeprom(&mut self, alloc: Global, words: &[&[u8]]) -> Result<bool, AllocError>
        ensures read { IfOk result (λ ok. Takes (eeprom_says (draft self.old) (map (λ w. w.now) words.now)) ok (draft self.new)) }
        ensures levels { reading self.new.levels ≡ reading self.old.levels }
    {
        if self.begun {
            return Ok(false);
        }
        match eeprom_alone(alloc, words)? {
            None => Ok(false),
            Some(bytes) => {
                self.begun = true;
                self.eeprom = bytes;
                Ok(true)
            }
        }
    }

    fn take_step(
        &mut self,
        alloc: Global,
        names: &Names,
        words: &[&[u8]],
    ) -> Result<bool, AllocError>
        requires { IsReadingOf names.now (reading self.old.levels) }
        ensures read { IfOk result (λ ok. Takes (step_says names.now (draft self.old) (map (λ w. w.now) words.now)) ok (draft self.new)) }
        ensures fits { IsReadingOf names.now (reading self.new.levels) }
    {
        let (times, tokens) = timed(words);
        self.levels.begin();
        if !take_tokens(alloc, names, &mut self.levels, tokens)? {
            return Ok(false);
        }
        self.add_step(alloc, times)
    }

    /// Adds a step with the levels, and says whether the cycles are no more than they may be.
    fn add_step(&mut self, alloc: Global, times: u32) -> Result<bool, AllocError>
        ensures read { IfOk result (λ ok. Takes (with_step (draft self.old) times (reading self.old.levels)) ok (draft self.new)) }
        ensures levels { reading self.new.levels ≡ reading self.old.levels }
    {
        let cycles = u64::from(self.cycles) + u64::from(times);
        if cycles > u64::from(MOST_CYCLES) {
            return Ok(false);
        }
        let reading = self.levels.reading(alloc)?;
        self.steps.push(Step { times, reading })?;
        self.begun = true;
        self.cycles = cycles as u32;
        Ok(true)
    }
}

/// Whether the line is empty or begins with `#`.
fn is_skipped(line: &[u8]) -> bool
    ensures { result ≡ is_skipped line.now }
{
    match line {
        [] => true,
        [first, ..] => *first == b'#',
    }
}

/// Appends a word, where it is not empty.
fn push_word<'a>(words: &mut Vec<&'a [u8]>, word: &'a [u8]) -> Result<(), AllocError>
    ensures { OnOk result (map (λ w. w.now) words.new.items ≡ map (λ w. w.now) words.old.items ++ filter is_some_bytes (word.now ∷ [])) }
{
    if word.is_empty() {
        return Ok(());
    }
    words.push(word)?;
    Ok(())
}

/// What stands between the spaces of a line.
fn tokens(alloc: Global, line: &[u8]) -> Result<Vec<&[u8]>, AllocError>
    ensures { IfOk result (λ found. map (λ t. t.now) found.items ≡ tokens line.now) }
{
    let mut found = Vec::new(alloc);
    let mut rest = line;
    while let Some((piece, behind)) = split_piece(b' ', rest) {
        push_word(&mut found, piece)?;
        rest = behind;
    }
    push_word(&mut found, rest)?;
    Ok(found)
}

/// The bytes of an EEPROM, with FFh behind those that are given.
fn filled(alloc: Global, given: Vec<u8>) -> Result<Bytes, AllocError>
    ensures { IfOk result (λ bytes. bytes ≡ filled given.items) }
{
    let mut bytes = given;
    let rest = vec![in alloc; 0xffu8; EEPROM_MOST.saturating_sub(bytes.len())]?;
    bytes.extend_from_slice(rest.as_slice())?;
    Ok(List::from_vec(bytes))
}

/// The bytes of an EEPROM, by digits.
fn eeprom_of(alloc: Global, digits: &[u8]) -> Result<Option<Bytes>, AllocError>
    ensures { IfOk result (λ bytes. bytes ≡ eeprom_of digits.now) }
{
    let bytes = match hex::decode(alloc, digits) {
        Ok(bytes) => bytes,
        Err(FromHexError::OutOfMemory) => return Err(AllocError),
        Err(_) => return Ok(None),
    };
    if bytes.is_empty() || bytes.len() > EEPROM_MOST {
        return Ok(None);
    }
    Ok(Some(filled(alloc, bytes)?))
}

/// The bytes of an EEPROM, where the only word is their digits.
fn eeprom_alone(alloc: Global, words: &[&[u8]]) -> Result<Option<Bytes>, AllocError>
    ensures { IfOk result (λ bytes. bytes ≡ eeprom_alone (map (λ w. w.now) words.now)) }
{
    match words {
        [digits] => eeprom_of(alloc, digits),
        _ => Ok(None),
    }
}

/// The number of cycles that a token says, as `N:`.
fn count_of(token: &[u8]) -> Option<u32>
    ensures { result ≡ count_of token.now }
{
    let (digits, behind) = split_piece(b':', token)?;
    if !behind.is_empty() {
        return None;
    }
    match digits_to(MOST_CYCLES, digits)? {
        0 => None,
        times => Some(times),
    }
}

/// For how many cycles a step holds, and its other tokens.
fn timed<'t, 'a>(words: &'t [&'a [u8]]) -> (u32, &'t [&'a [u8]])
    ensures times { result.0 ≡ (timed (map (λ w. w.now) words.now)).0 }
    ensures rest { map (λ w. w.now) result.1.now ≡ (timed (map (λ w. w.now) words.now)).1 }
{
    match words {
        [] => (1, words),
        [first, rest @ ..] => match count_of(first) {
            Some(times) => (times, rest),
            None => (1, words),
        },
    }
}
