//! How texts and byte strings are shown in an answer.

use std::alloc::{AllocError, Global};

/// Appends bytes as the lines of a script's text. Behind a last line without a line feed stands a backslash.
pub fn push_lines(shown: &mut String, bytes: &[u8]) -> Result<(), AllocError> {
    let mut is_open = false;
    for (place, byte) in bytes.iter().enumerate() {
        if !is_open {
            shown.push_str(if *byte == b'\n' { "|" } else { "| " })?;
        }
        is_open = *byte != b'\n';
        let is_last = matches!(bytes.get(place + 1), None | Some(b'\n'));
        if *byte == b' ' && is_last {
            shown.push_str("\\s")?;
        } else {
            push_byte(shown, *byte)?;
        }
    }
    if is_open {
        shown.push_str("\\\n")?;
    }
    Ok(())
}

fn push_byte(shown: &mut String, byte: u8) -> Result<(), AllocError> {
    match byte {
        b'\r' => shown.push_str("\\r"),
        b'\t' => shown.push_str("\\t"),
        b'\n' | b' '..=b'~' => shown.push(char::from(byte)),
        _ => write!(shown, "\\x{byte:02x}"),
    }
}

/// Byte strings, each in brackets.
pub fn words(alloc: Global, list: &[&[u8]]) -> Result<String, AllocError> {
    let mut shown = String::new(alloc);
    for word in list {
        shown.push('[')?;
        for byte in *word {
            push_byte(&mut shown, *byte)?;
        }
        shown.push(']')?;
    }
    Ok(shown)
}
