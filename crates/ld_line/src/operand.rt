//! Names, flags and operands.

ghost use Rattle.std.specs.Prelude.{◌≡◌, IfOk, slice_index_or};
ghost use Rattle.std.specs.List.{list_all};
ghost use Rattle.ladder_tree.specs.Names.{is_name, is_name_byte};
ghost use Rattle.texts.specs.Digits.{is_digit};
ghost use Rattle.ld_line.specs.Operands.{name, flag, is_character, operand};

use crate::number::integer;
use crate::said::{Said, made};
use ladder_tree::element::{Name, Operand};
use ladder_tree::limits::NAME_BYTES;
use ld_base::list::List;
use std::alloc::{AllocError, Global};

/// Whether a byte is a letter, a digit or `_`.
fn is_name_byte(byte: u8) -> bool
    ensures { result ≡ is_name_byte byte }
{
    byte.is_ascii_alphanumeric() || byte == b'_'
}

/// Whether each byte of the token can stand in a name.
fn has_name_bytes(token: &[u8]) -> bool
    ensures { result ≡ list_all is_name_byte token.now }
{
    token.iter().all(|byte| is_name_byte(*byte))
}

/// Whether the token begins with a digit.
fn begins_with_digit(token: &[u8]) -> bool
    ensures { result ≡ is_digit (slice_index_or token.now 0 0) }
{
    match token {
        [] => false,
        [first, ..] => first.is_ascii_digit(),
    }
}

/// Whether the token is a name: 1 to 64 letters, digits or `_`, not beginning with a digit.
pub fn is_name(token: &[u8]) -> bool
    ensures { result ≡ is_name token.now }
{
    if token.is_empty() || token.len() > NAME_BYTES {
        return false;
    }
    !begins_with_digit(token) && has_name_bytes(token)
}

/// A list that holds the bytes.
pub fn copy_of(alloc: Global, bytes: &[u8]) -> Result<List<u8>, AllocError>
    ensures { IfOk result (λ copy. copy ≡ bytes.now) }
{
    Ok(List::from_vec(Vec::from_slice(alloc, bytes)?))
}

/// The name that the token is.
pub fn name(alloc: Global, token: &[u8]) -> Result<Said<Name>, AllocError>
    ensures { IfOk result (λ said. said ≡ name token.now) }
{
    if is_name(token) {
        Ok(Said::Is(copy_of(alloc, token)?))
    } else {
        Ok(Said::Bad)
    }
}

/// The flag that the token is: `0` or `1` alone.
pub fn flag(token: &[u8]) -> Said<bool>
    ensures { result ≡ flag token.now }
{
    match token {
        b"0" => Said::Is(false),
        b"1" => Said::Is(true),
        _ => Said::Bad,
    }
}

/// Whether the token is one byte from `!` to `~` between quotes.
fn is_character(token: &[u8]) -> bool
    ensures { result ≡ is_character token.now }
{
    match token {
        [b'\'', character, b'\''] => 0x21 <= *character && *character <= 0x7e,
        _ => false,
    }
}

/// The operand that the token is: a name, the number of a character as `'c'`, or a number of 16 bits.
#[tactic(auto, unfolding(crate::specs::Operands::operand))]
pub fn operand(alloc: Global, token: &[u8]) -> Result<Said<Operand>, AllocError>
    ensures { IfOk result (λ said. said ≡ operand token.now) }
{
    if is_name(token) {
        return Ok(Said::Is(Operand::Var(copy_of(alloc, token)?)));
    }
    if is_character(token) {
        return Ok(Said::Is(Operand::Num(i16::from(token[1]))));
    }
    let said = integer(token);
    Ok(made!(said, value => Operand::Num(value)))
}
