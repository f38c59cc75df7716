//! Why a file is not read.

ghost use Rattle.std.specs.Prelude.{◌≡◌};

use std::alloc::AllocError;
use thiserror::Error;

/// What is wrong with a line. Where more than one is, it is the first of these.
#[derive(Clone, Copy, Debug, PartialEq, Eq, Error)]
pub enum HexCause {
    /// The line has not the form of a record, or stands behind the end record, or holds the byte
    /// with which the text is too long.
    #[error("no record")]
    BadRecord,
    /// The bytes of the record do not add up to 0 modulo 256.
    #[error("wrong sum")]
    BadSum,
    /// The chip has no byte at an address of the record.
    #[error("address outside the chip")]
    Outside,
    /// An address of the record was given before.
    #[error("address given twice")]
    Overlap,
    /// The text has no end record.
    #[error("no end record")]
    NoEnd,
}

/// The first line of a text with a fault, counted from 1. A text without an end record has its
/// fault behind its last line.
#[derive(Clone, Copy, Debug, PartialEq, Eq, Error)]
#[error("line {line}: {cause}")]
pub struct HexFault {
    pub line: u32,
    pub cause: HexCause,
}

/// Why a file is not read.
#[derive(Debug, Drop, Error)]
pub enum HexError {
    #[error(transparent)]
    Fault(HexFault),
    #[error(transparent)]
    Memory(AllocError),
}

impl From<AllocError> for HexError {
    ghost use Rattle.intel_hex.specs.declared.fault.HexError.TheVariants as hex;

    ghost from_gives = { λ a e. e ≡ hex.Memory a };

    fn from(e: AllocError) -> HexError {
        HexError::Memory(e)
    }
}
