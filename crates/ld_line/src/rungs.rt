//! The lines below `PROGRAM`.

ghost use Rattle.std.specs.Prelude.{◌≡◌, IfOk, map};
ghost use Rattle.ld_line.specs.Rungs.{alone, element_by, rung_tokens_say};

use crate::element::element;
use crate::said::{Said, bare, made};
use crate::word::{Word, word_of};
use ladder_tree::element::LeafKind;
use std::alloc::{AllocError, Global};

/// How the nodes of a form that `END` closes stand: one after another, or side by side.
#[derive(Clone, Copy, Debug, PartialEq, Eq)]
pub enum Circuit {
    Series,
    Parallel,
}

/// What a line below `PROGRAM` says.
#[derive(Drop)]
pub enum RungLine {
    /// A rung begins.
    Rung,
    /// A SERIES or a PARALLEL begins.
    Open(Circuit),
    /// What began last and is still open ends.
    End,
    /// An element.
    Element(LeafKind),
}

/// What a token says that stands alone on its line.
fn alone(token: &[u8]) -> Option<RungLine>
    ensures { result ≡ alone token.now }
{
    if token == b"RUNG".as_slice() {
        Some(RungLine::Rung)
    } else if token == b"SERIES".as_slice() {
        Some(RungLine::Open(Circuit::Series))
    } else if token == b"PARALLEL".as_slice() {
        Some(RungLine::Open(Circuit::Parallel))
    } else if token == b"END".as_slice() {
        Some(RungLine::End)
    } else {
        None
    }
}

/// What the line of an element says.
fn element_by(
    alloc: Global,
    word: Option<Word>,
    operands: &[&[u8]],
    line: &[u8],
) -> Result<Said<RungLine>, AllocError>
    ensures { IfOk result (λ said. said ≡ element_by word (map (λ t. t.now) operands.now) line.now) }
{
    let Some(word) = word else {
        return Ok(Said::Bad);
    };
    let said = element(alloc, word, operands, line)?;
    Ok(made!(said, kind => RungLine::Element(kind)))
}

/// What a line below `PROGRAM` says, by its tokens. The line itself holds a comment's text.
pub fn rung_line(alloc: Global, tokens: &[&[u8]], line: &[u8]) -> Result<Said<RungLine>, AllocError>
    ensures { IfOk result (λ said. said ≡ rung_tokens_say (map (λ t. t.now) tokens.now) line.now) }
{
    let [token, operands @ ..] = tokens else {
        return Ok(Said::Bad);
    };
    match alone(token) {
        Some(said) => Ok(bare(said, operands)),
        None => element_by(alloc, word_of(token), operands, line),
    }
}
