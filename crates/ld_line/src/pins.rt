//! The lines of a pin list.

ghost use Rattle.std.specs.Prelude.{◌≡◌, IfOk, map};
ghost use Rattle.ld_line.specs.Pins.{pin_line, pin_of_line};

use crate::number::{MOST_PIN, natural_in};
use crate::operand::name;
use crate::said::{Said, both, made};
use ladder_tree::project::PinLine;
use std::alloc::{AllocError, Global};

/// What a line of a pin list says.
#[derive(Drop)]
pub enum PinsLine {
    /// A name and its pin.
    Pin(PinLine),
    /// The list ends.
    End,
}

/// The name and its pin.
fn pin_line(alloc: Global, token: &[u8], pin: &[u8]) -> Result<Said<PinsLine>, AllocError>
    ensures { IfOk result (λ said. said ≡ pin_line token.now pin.now) }
{
    let said = both(name(alloc, token)?, natural_in(0, MOST_PIN, pin));
    Ok(made!(said, (name, pin) => PinsLine::Pin(PinLine { name, pin: pin as u16 })))
}

/// What a line of a pin list says by its tokens: `name at number`, or `END`.
pub fn pins_line(alloc: Global, tokens: &[&[u8]]) -> Result<Said<PinsLine>, AllocError>
    ensures { IfOk result (λ said. said ≡ pin_of_line (map (λ t. t.now) tokens.now)) }
{
    match tokens {
        [token] if *token == b"END".as_slice() => Ok(Said::Is(PinsLine::End)),
        [name, word, pin] if *word == b"at".as_slice() => pin_line(alloc, name, pin),
        _ => Ok(Said::Bad),
    }
}
