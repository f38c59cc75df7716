//! Cases of lines and of pieces of a line.

use case_script::words;
use std::alloc::{AllocError, Global};
use texts::lines::{split_all, split_line};

/// The lines of a text, each in brackets.
pub fn lines(alloc: Global, text: &[u8]) -> Result<String, AllocError> {
    let mut found: Vec<&[u8]> = Vec::new(alloc);
    let mut rest = text;
    for _ in 0..text.len() {
        match split_line(rest) {
            Some((line, behind)) => {
                found.push(line)?;
                rest = behind;
            }
            None => break,
        }
    }
    if found.is_empty() {
        return String::from_str(alloc, "no line");
    }
    words(alloc, found.as_slice())
}

/// The pieces of a text between blanks, each in brackets.
pub fn blank_pieces(alloc: Global, text: &[u8]) -> Result<String, AllocError> {
    let found = split_all(alloc, b' ', text)?;
    words(alloc, found.as_slice())
}
