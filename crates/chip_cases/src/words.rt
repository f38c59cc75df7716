//! The words of a case.

use chip_tables::Target;
use ld_base::list::List;
use std::alloc::{AllocError, Global};
use std::fmt::Debug;

/// Why a line has no answer.
#[derive(Clone, Copy)]
pub enum CaseError {
    /// It is no case.
    NoCase,
    Memory(AllocError),
}

impl From<AllocError> for CaseError {
    fn from(e: AllocError) -> CaseError {
        CaseError::Memory(e)
    }
}

/// A value in the form in which it is printed to find faults.
pub fn shown<T: Debug>(alloc: Global, value: &T) -> Result<String, CaseError> {
    Ok(format!(in alloc; "{value:?}")?)
}

pub fn target(word: &str) -> Result<Target, CaseError> {
    match word {
        "F628" => Ok(Target::F628),
        "F877" => Ok(Target::F877),
        "Mega16" => Ok(Target::Mega16),
        "Interp" => Ok(Target::Interp),
        "AnsiC" => Ok(Target::AnsiC),
        _ => Err(CaseError::NoCase),
    }
}

/// A number in decimal digits.
pub fn number(word: &str) -> Result<u32, CaseError> {
    word.parse::<u32>().map_err(|_| CaseError::NoCase)
}

/// A number of 16 bits in decimal digits.
pub fn short(word: &str) -> Result<u16, CaseError> {
    word.parse::<u16>().map_err(|_| CaseError::NoCase)
}

/// A number of 16 bits in hexadecimal digits.
pub fn hex_word(word: &str) -> Result<u16, CaseError> {
    u16::from_str_radix(word, 16).map_err(|_| CaseError::NoCase)
}

/// Numbers of 16 bits in hexadecimal digits.
pub fn hex_words(alloc: Global, digits: &[&str]) -> Result<List<u16>, CaseError> {
    let mut words = List::new(alloc);
    for word in digits {
        words.push(hex_word(word)?)?;
    }
    Ok(words)
}

/// A byte in hexadecimal digits.
pub fn hex_byte(word: &str) -> Result<u8, CaseError> {
    u8::from_str_radix(word, 16).map_err(|_| CaseError::NoCase)
}
