//! Cases of texts that are read, whole and in pieces.

ghost use Rattle.std.specs.Prelude.{◌<◌};

use ladder_tree::project::Project;
use ld_text::fault::TextError;
use ld_text::read::read_project;
use ld_text::reader::Reader;
use std::alloc::{AllocError, Global};

/// A refusal, with the number of its cause.
pub fn refusal(alloc: Global, e: TextError) -> Result<String, AllocError> {
    match e {
        TextError::Refused(fault) => {
            let number = fault.number();
            format!(in alloc; "refused {number} {fault:?}")
        }
        TextError::Memory(e) => Err(e),
    }
}

/// All of a project that was read, or why it was not.
fn described(alloc: Global, read: Result<Project, TextError>) -> Result<String, AllocError> {
    match read {
        Ok(project) => format!(in alloc; "{project:?}"),
        Err(e) => refusal(alloc, e),
    }
}

/// What a reader answers behind its first refusal: the same.
fn lasting(alloc: Global, mut reader: Reader, first: String) -> Result<String, AllocError> {
    let again = match reader.feed(b"\n") {
        Ok(()) => String::new(alloc),
        Err(e) => refusal(alloc, e)?,
    };
    let end = described(alloc, reader.end())?;
    if again == first && end == first {
        Ok(first)
    } else {
        String::from_str(alloc, "a refusal that does not last")
    }
}

/// What is answered to a text that is given in pieces of a size.
fn in_pieces(alloc: Global, text: &[u8], size: usize) -> Result<String, AllocError>
    requires { 0 < size }
{
    let mut reader = Reader::new(alloc);
    for piece in text.chunks(size) {
        if let Err(e) = reader.feed(piece) {
            let first = refusal(alloc, e)?;
            return lasting(alloc, reader, first);
        }
    }
    described(alloc, reader.end())
}

/// Whether a text is read. It is given whole and in pieces, which must not differ.
pub fn verdict(alloc: Global, text: &[u8]) -> Result<String, AllocError> {
    let whole = described(alloc, read_project(alloc, text))?;
    for size in [1, 3] {
        if in_pieces(alloc, text, size)? != whole {
            return format!(in alloc; "pieces of {size} bytes are not read as the whole");
        }
    }
    if whole.starts_with("refused") {
        Ok(whole)
    } else {
        String::from_str(alloc, "read")
    }
}
