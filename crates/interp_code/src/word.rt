//! The words of a line: names, numbers and bits.

ghost use Rattle.std.specs.Prelude.{◌≡◌, ◌≤◌, ◌∷◌, IfOk, IfSome};
ghost use Rattle.std.specs.Option.{option_map, option_and_then};
ghost use Rattle.std.specs.List.{list_all};
ghost use Rattle.std.specs.Str.{bytes_eq};
ghost use Rattle.texts.specs.Lines.{pieces};
ghost use Rattle.ladder_tree.specs.Names.{is_name_byte, is_name_within};
ghost use Rattle.interp_code.specs.Line as spec;
ghost use Rattle.interp_code.specs.Line.{counted, number_to};
ghost use Rattle.interp_code.specs.Said.{words_of};

use int_code::op::{BitDest, BitSource, NumSource};
use ladder_tree::element::Nums;
use std::alloc::{AllocError, Global};
use texts::digits::digits_to;
use texts::lines::split_piece;

/// The first word of a text, and the text of the others, if there are any. One space parts words.
pub fn first_word(text: &[u8]) -> (&[u8], Option<&[u8]>)
    ensures { pieces 32 text.now ≡ result.0.now ∷ words_of result.1 }
{
    match split_piece(b' ', text) {
        Some((word, behind)) => (word, Some(behind)),
        None => (text, None),
    }
}

/// Whether the bytes are those of the word.
pub fn is_word(bytes: &[u8], word: &str) -> bool
    ensures { result ≡ bytes_eq bytes.now word.now }
{
    bytes == word.as_bytes()
}

/// A bit that is written.
pub fn dest_of(word: &[u8]) -> Option<BitDest>
    ensures { result ≡ spec.dest_of word.now }
{
    match word.split_first() {
        Some((b'b', number)) => index(number).map(BitDest::B),
        Some((b'y', number)) => index(number).map(BitDest::Y),
        _ => None,
    }
}

/// A bit that is read.
pub fn source_of(word: &[u8]) -> Option<BitSource>
    ensures { result ≡ spec.source_of word.now }
{
    match word.split_first() {
        Some((b'b', number)) => index(number).map(BitSource::B),
        Some((b'x', number)) => index(number).map(BitSource::X),
        Some((b'y', number)) => index(number).map(BitSource::Y),
        _ => None,
    }
}

/// The number of a variable.
pub fn variable_of(word: &[u8]) -> Option<u32>
    ensures { result ≡ spec.variable_of word.now }
{
    match word.split_first() {
        Some((b'v', number)) => index(number),
        _ => None,
    }
}

/// A number that is read: a variable, or the number itself.
pub fn number_of(word: &[u8]) -> Option<NumSource>
    ensures { result ≡ spec.number_of word.now }
{
    match word.split_first() {
        Some((b'v', number)) => index(number).map(NumSource::V),
        Some(_) => integer(word).map(NumSource::N),
        None => None,
    }
}

/// The word, if it is a name.
pub fn name(word: &[u8]) -> Option<&[u8]>
    ensures { option_map (λ n. n.now) result ≡ spec.name word.now }
{
    if is_name(word) { Some(word) } else { None }
}

fn is_name(word: &[u8]) -> bool
    ensures { result ≡ is_name_within 66 word.now }
{
    match word {
        [] => false,
        [first, ..] => {
            if first.is_ascii_digit() {
                false
            } else if word.len() > 66 {
                false
            } else {
                are_name_bytes(word)
            }
        }
    }
}

fn are_name_bytes(word: &[u8]) -> bool
    ensures { result ≡ list_all is_name_byte word.now }
{
    word.iter().all(|b| is_name_byte(*b))
}

fn is_name_byte(b: u8) -> bool
    ensures { result ≡ is_name_byte b }
{
    b.is_ascii_alphabetic() || b.is_ascii_digit() || b == b'_'
}

/// The values of a table: so many, and no more words.
pub fn values_of(alloc: Global, count: u32, text: Option<&[u8]>) -> Result<Option<Nums>, AllocError>
    ensures { IfOk result (λ values. values ≡ option_and_then (counted count) (spec.integers (words_of text.entry))) }
{
    let mut values = Nums::new(alloc);
    let mut rest = text;
    while let Some(words) = rest {
        let (word, behind) = first_word(words);
        let Some(value) = integer(word) else {
            return Ok(None);
        };
        if values.len() >= count as usize {
            return Ok(None);
        }
        values.push(value)?;
        rest = behind;
    }
    if values.len() != count as usize {
        return Ok(None);
    }
    Ok(Some(values))
}

/// A number from -32768 to 32767.
pub fn integer(word: &[u8]) -> Option<i16>
    ensures { result ≡ spec.integer word.now }
{
    match word.split_first() {
        Some((b'-', digits)) => match digits_to(32768, digits) {
            Some(size) => Some((-(size as i32)) as i16),
            None => None,
        },
        Some(_) => match digits_to(32767, word) {
            Some(size) => Some(size as i16),
            None => None,
        },
        None => None,
    }
}

/// A number of bits, of variables, or of what else is numbered.
pub fn index(word: &[u8]) -> Option<u32>
    ensures { result ≡ spec.index word.now }
{
    digits_to(u32::MAX, word)
}

/// A number from 0 to the most.
pub fn number_to(most: u32, word: &[u8]) -> Option<u32>
    ensures value { result ≡ number_to most word.now }
    ensures range { IfSome result (λ n. n ≤ most) }
{
    match word.split_first() {
        Some((b'-', digits)) => digits_to(0, digits),
        Some(_) => digits_to(most, word),
        None => None,
    }
}
