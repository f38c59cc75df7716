//! Texts in lines, and lines in pieces.

ghost use Rattle.std.specs.Prelude.{◌≡◌, ◌≢◌, ◌+◌, ◌++◌, ◌∷◌, [], take, drop, map, IfOk, IfSome, IfNone, IsNone, All, ◌↔◌};
ghost use Rattle.std.specs.Option.{option_map};
ghost use Rattle.texts.specs.Lines.{pieces, cut, without_return, IsFirstLine, IsFirstPiece};

use std::alloc::{AllocError, Global};

/// The first line without its line feed, and the text behind it; none of an empty text.
///
/// A carriage return in front of the line feed belongs to the line.
pub fn split_line(text: &[u8]) -> Option<(&[u8], &[u8])>
    ensures none { IsNone result ↔ (text.now ≡ []) }
    ensures line { IfSome result (λ p. IsFirstLine text.now p.0.now p.1.now) }
{
    if text.is_empty() {
        return None;
    }
    match split_piece(b'\n', text) {
        Some((line, rest)) => Some((line, rest)),
        None => Some((text, &text[text.len()..])),
    }
}

/// The bytes in front of the first separator and those behind it; none where the text has none.
pub fn split_piece(separator: u8, text: &[u8]) -> Option<(&[u8], &[u8])>
    ensures cut { option_map (λ p. (p.0.now, p.1.now)) result ≡ cut separator text.now }
    ensures piece { IfSome result (λ p. IsFirstPiece separator text.now p.0.now p.1.now) }
    ensures none { IfNone result (All (λ x. x ≢ separator) text.now) }
{
    let place = first_place(separator, text)?;
    Some((&text[..place], &text[place + 1..]))
}

/// The line without one carriage return at its end.
pub fn without_return(line: &[u8]) -> &[u8]
    ensures { result.now ≡ without_return line.now }
{
    match line.split_last() {
        Some((b'\r', front)) => front,
        _ => line,
    }
}

/// The place of the first separator.
fn first_place(separator: u8, text: &[u8]) -> Option<usize>
    ensures found { IfSome result (λ k. (text.now ≡ take k text.now ++ separator ∷ drop (k + 1) text.now) × All (λ x. x ≢ separator) (take k text.now)) }
    ensures none { IfNone result (All (λ x. x ≢ separator) text.now) }
{
    let mut place = 0;
    for byte in text {
        if *byte == separator {
            return Some(place);
        }
        place += 1;
    }
    None
}

/// The pieces of the text between the separators, in order: one more than there are separators.
pub fn split_all<'a>(
    alloc: Global,
    separator: u8,
    text: &'a [u8],
) -> Result<Vec<&'a [u8]>, AllocError>
    ensures { IfOk result (λ v. map (λ p. p.now) v.items ≡ pieces separator text.now) }
{
    let mut found = Vec::new(alloc);
    let mut rest = text;
    while let Some((piece, behind)) = split_piece(separator, rest) {
        found.push(piece)?;
        rest = behind;
    }
    found.push(rest)?;
    Ok(found)
}
