//! The words of a case.

use std::alloc::AllocError;

/// Why a line has no answer.
#[derive(Clone, Copy)]
pub enum CaseError {
    /// It is no case.
    NoCase,
    Memory(AllocError),
}

impl From<AllocError> for CaseError {
    fn from(e: AllocError) -> CaseError {
        CaseError::Memory(e)
    }
}

/// A number of 16 bits in hexadecimal digits.
pub fn hex_word(word: &str) -> Result<u16, CaseError> {
    u16::from_str_radix(word, 16).map_err(|_| CaseError::NoCase)
}

/// A byte in hexadecimal digits.
pub fn hex_byte(word: &str) -> Result<u8, CaseError> {
    u8::from_str_radix(word, 16).map_err(|_| CaseError::NoCase)
}
