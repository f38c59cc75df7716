//! What a line of a file says.

ghost use Rattle.std.specs.Prelude.{◌≡◌, IfOk};
ghost use Rattle.intel_hex.specs.Said.{said_of, said_by, kind_said};

use crate::fault::HexCause;
use crate::record::{DATA_TYPE, END_TYPE, UPPER_TYPE, sum_of};
use hex::FromHexError;
use ld_base::list::List;
use std::alloc::{AllocError, Global};
use texts::lines::without_return;

/// How many digits a record has at most: 255 bytes of data, and five more.
const MOST_DIGITS: usize = 520;

/// What a line says.
#[derive(Debug, Drop)]
pub enum Said {
    /// An empty line.
    Nothing,
    /// Bytes from an address on, which is the lower half of theirs.
    Data { address: u16, bytes: List<u8> },
    /// No record follows.
    End,
    /// The upper half of the addresses behind it.
    Upper(u16),
    /// No record, or one with a wrong sum.
    Broken(HexCause),
}

/// What a line says, which may end with a carriage return.
pub fn read_line(alloc: Global, line: &[u8]) -> Result<Said, AllocError>
    ensures { IfOk result (λ s. s ≡ said_of line.now) }
{
    let Some((mark, digits)) = without_return(line).split_first() else {
        return Ok(Said::Nothing);
    };
    if *mark != b':' || digits.len() > MOST_DIGITS {
        return Ok(Said::Broken(HexCause::BadRecord));
    }
    match hex::decode(alloc, digits) {
        Ok(bytes) => read_record(alloc, bytes.as_slice()),
        Err(FromHexError::OutOfMemory) => Err(AllocError),
        Err(_) => Ok(Said::Broken(HexCause::BadRecord)),
    }
}

/// What a record says, given all its bytes.
fn read_record(alloc: Global, bytes: &[u8]) -> Result<Said, AllocError>
    ensures { IfOk result (λ s. s ≡ said_by bytes.now) }
{
    let [count, high, low, kind, rest @ ..] = bytes else {
        return Ok(Said::Broken(HexCause::BadRecord));
    };
    let count = usize::from(*count);
    if rest.len() != count + 1 {
        return Ok(Said::Broken(HexCause::BadRecord));
    }
    let address = u16::from_be_bytes([*high, *low]);
    match read_kind(alloc, *kind, address, &rest[..count])? {
        None => Ok(Said::Broken(HexCause::BadRecord)),
        Some(_) if sum_of(bytes) != 0 => Ok(Said::Broken(HexCause::BadSum)),
        Some(said) => Ok(said),
    }
}

/// What a record of a type says; none where it has another form, or there is no such type.
fn read_kind(
    alloc: Global,
    kind: u8,
    address: u16,
    bytes: &[u8],
) -> Result<Option<Said>, AllocError>
    ensures { IfOk result (λ s. s ≡ kind_said kind address bytes.now) }
{
    match (kind, bytes) {
        (DATA_TYPE, _) => Ok(Some(Said::Data {
            address,
            bytes: List::from_vec(Vec::from_slice(alloc, bytes)?),
        })),
        (END_TYPE, []) => Ok(Some(Said::End)),
        (UPPER_TYPE, [high, low]) => Ok(Some(Said::Upper(u16::from_be_bytes([*high, *low])))),
        _ => Ok(None),
    }
}
