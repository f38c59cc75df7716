//! The bytes for which a part of a script stands.

use std::alloc::AllocError;

/// Appends the bytes for which a part of a script stands.
pub fn push_written(text: &mut Vec<u8>, written: &str) -> Result<(), AllocError> {
    let mut is_first = true;
    for part in written.split("\\{") {
        if is_first {
            push_escaped(text, part, 1)?;
            is_first = false;
        } else {
            push_repeated(text, part)?;
        }
    }
    Ok(())
}

/// Appends what stands between braces, so many times, and once what stands behind them.
fn push_repeated(text: &mut Vec<u8>, part: &str) -> Result<(), AllocError> {
    let (inner, behind) = part.split_once('}').unwrap_or((part, ""));
    let (count, inner) = inner.split_once(' ').unwrap_or(("1", inner));
    let count = count.parse::<u32>().unwrap_or(1);
    for number in 0..count {
        push_escaped(text, inner, number.saturating_add(1))?;
    }
    push_escaped(text, behind, 1)
}

/// Appends bytes, of which a backslash makes the one behind it another.
fn push_escaped(text: &mut Vec<u8>, part: &str, number: u32) -> Result<(), AllocError> {
    let mut is_escaped = false;
    for byte in part.bytes() {
        if is_escaped {
            push_special(text, byte, number)?;
            is_escaped = false;
        } else if byte == b'\\' {
            is_escaped = true;
        } else {
            text.push(byte)?;
        }
    }
    Ok(())
}

/// Appends what the byte stands for behind a backslash.
fn push_special(text: &mut Vec<u8>, byte: u8, number: u32) -> Result<(), AllocError> {
    let meant = match byte {
        b'#' => return push_number(text, number),
        b'n' => b'\n',
        b'r' => b'\r',
        b't' => b'\t',
        b's' => b' ',
        b'0' => 0,
        _ => byte,
    };
    text.push(meant)?;
    Ok(())
}

/// Appends the digits of a number.
fn push_number(text: &mut Vec<u8>, number: u32) -> Result<(), AllocError> {
    let mut digits = [0u8; 10];
    let mut rest = number;
    for digit in &mut digits {
        *digit = b'0' + (rest % 10) as u8;
        rest /= 10;
    }
    let mut is_leading = true;
    for digit in digits.iter().rev() {
        is_leading = is_leading && *digit == b'0';
        if !is_leading {
            text.push(*digit)?;
        }
    }
    Ok(())
}
