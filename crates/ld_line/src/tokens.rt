//! The tokens of a line.

ghost use Rattle.std.specs.Prelude.{◌≡◌, ◌<◌, ◌≤◌, ◌∷◌, [], length, map, IfOk, MatchOption};
ghost use Rattle.std.specs.List.{position_or_len};
ghost use Rattle.ld_line.specs.Tokens.{is_blank, behind, before, without_returns, trimmed, runs, tokens, comment_text, is_magic};
ghost use Rattle.ld_line.specs.Steps.{IsFirstRun};

use std::alloc::{AllocError, Global};

/// How many bytes the word `COMMENT` and the blank behind it have.
const COMMENT_WIDTH: usize = 8;

/// Whether the byte is a space or a tab.
fn is_blank(byte: u8) -> bool
    ensures { result ≡ is_blank byte }
{
    byte == b' ' || byte == b'\t'
}

/// The line without the carriage returns at its end.
fn without_returns(line: &[u8]) -> &[u8]
    ensures { result.now ≡ without_returns line.now }
{
    let mut rest = line;
    while let Some((b'\r', front)) = rest.split_last() {
        rest = front;
    }
    rest
}

/// The bytes without the blanks in front.
fn behind_blanks(bytes: &[u8]) -> &[u8]
    ensures { result.now ≡ behind is_blank bytes.now }
{
    let mut rest = bytes;
    while let Some((byte, behind)) = rest.split_first() {
        if !is_blank(*byte) {
            return rest;
        }
        rest = behind;
    }
    rest
}

/// The bytes without the blanks at the end.
fn before_blanks(bytes: &[u8]) -> &[u8]
    ensures { result.now ≡ before is_blank bytes.now }
{
    let mut rest = bytes;
    while let Some((byte, front)) = rest.split_last() {
        if !is_blank(*byte) {
            return rest;
        }
        rest = front;
    }
    rest
}

/// The line without the carriage returns at its end, and then without blanks at both ends.
pub fn trimmed(line: &[u8]) -> &[u8]
    ensures { result.now ≡ trimmed line.now }
{
    before_blanks(behind_blanks(without_returns(line)))
}

/// How many bytes stand in front of the first blank.
fn token_width(bytes: &[u8]) -> usize
    ensures value { result ≡ position_or_len is_blank bytes.now }
    ensures within { result ≤ length bytes.now }
{
    let mut width = 0;
    for byte in bytes {
        if is_blank(*byte) {
            return width;
        }
        width += 1;
    }
    width
}

/// The first run of bytes that are no blanks, and what lies behind it.
fn first_run(bytes: &[u8]) -> Option<(&[u8], &[u8])>
    ensures { MatchOption result (runs bytes.now ≡ []) (λ p. IsFirstRun bytes.now p.0.now p.1.now) }
{
    let rest = behind_blanks(bytes);
    if rest.is_empty() {
        return None;
    }
    let width = token_width(rest);
    Some((&rest[..width], &rest[width..]))
}

/// The first token of the line, and what lies behind it; none where the line is blank.
pub fn first_token(line: &[u8]) -> Option<(&[u8], &[u8])>
    ensures { MatchOption result (tokens line.now ≡ []) (λ p. tokens line.now ≡ p.0.now ∷ runs p.1.now) }
{
    first_run(without_returns(line))
}

/// The tokens of the line in order.
pub fn tokens(alloc: Global, line: &[u8]) -> Result<Vec<&[u8]>, AllocError>
    ensures { IfOk result (λ found. map (λ t. t.now) found.items ≡ tokens line.now) }
{
    let mut found = Vec::new(alloc);
    let mut rest = without_returns(line);
    while let Some((token, behind)) = first_run(rest) {
        found.push(token)?;
        rest = behind;
    }
    Ok(found)
}

/// The text of a line whose first token is `COMMENT`: what stands behind the word and one blank.
/// Carriage returns at the end are no part of it, and blanks there are.
pub fn comment_text(line: &[u8]) -> &[u8]
    ensures { result.now ≡ comment_text line.now }
{
    let rest = behind_blanks(without_returns(line));
    &rest[rest.len().min(COMMENT_WIDTH)..]
}

/// Whether the line is the one that a project begins with.
pub fn is_magic(line: &[u8]) -> bool
    ensures { result ≡ is_magic line.now }
{
    trimmed(line) == b"LDmicro0.1".as_slice()
}
