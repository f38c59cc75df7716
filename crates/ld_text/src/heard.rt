//! What a line of a project text says at its place.

ghost use Rattle.std.specs.Prelude.{◌≡◌, ℕ, [], ◌∷◌, map, IfOk};
ghost use Rattle.ld_line.specs.Header.{header_of};
ghost use Rattle.ld_line.specs.Said.{said_map};
ghost use Rattle.ld_line.specs.Tokens.{tokens};
ghost use Rattle.ld_text.specs.declared.heard.LineForm.TheVariants as form;
ghost use Rattle.ld_text.specs.declared.place.Site.TheVariants as site;
ghost use Rattle.ld_text.specs.Faults.{counting, begins_unbuilt};
ghost use Rattle.ld_text.specs.Place.{between, inside, said_in};

use crate::place::Site;
use chip_tables::Target;
use ladder_tree::element::Leaf;
use ld_line::header::{HeaderLine, header_line};
use ld_line::pins::{PinsLine, pins_line};
use ld_line::rungs::{Circuit, RungLine, rung_line};
use ld_line::said::Said;
use ld_line::tokens::{is_magic, tokens};
use ld_line::word::{Word, is_built, word_of};
use std::alloc::{AllocError, Global};

/// A line of a project's rungs.
#[derive(Drop)]
pub enum Mark {
    /// A rung begins.
    Rung,
    /// A SERIES or a PARALLEL begins.
    Open(Circuit),
    /// What began last and is still open ends.
    End,
    Element(Leaf),
}

/// What a line says.
#[derive(Drop)]
pub enum LineForm {
    Blank,
    /// The line that a project text begins with.
    Magic,
    /// A line above `PROGRAM`, or `PROGRAM`.
    Header(HeaderLine),
    /// A line of a pin list.
    Pins(PinsLine),
    /// A line below `PROGRAM`.
    Body(Mark),
}

/// What is heard of a line: what it says, and whether it begins with a word that is not built.
#[derive(Drop)]
pub struct Heard {
    pub said: Said<LineForm>,
    pub is_unbuilt: bool,
}

/// What line 1 says.
fn first_said(line: &[u8]) -> Said<LineForm>
    ensures { (number : ℕ) → result ≡ said_in site.First number line.now }
{
    if is_magic(line) {
        Said::Is(LineForm::Magic)
    } else {
        Said::Bad
    }
}

/// What a line without tokens says at a part of the text.
fn blank_said(site: Site, line: &[u8]) -> Said<LineForm>
    requires { tokens line.now ≡ [] }
    ensures { (number : ℕ) → result ≡ said_in site number line.now }
{
    match site {
        Site::First => first_said(line),
        Site::Header | Site::Pins | Site::Between | Site::Inside => Said::Is(LineForm::Blank),
    }
}

/// What a line says between two rungs.
fn between(said: &Said<RungLine>) -> Said<LineForm>
    ensures { result ≡ between said.now }
{
    match said {
        Said::Is(RungLine::Rung) => Said::Is(LineForm::Body(Mark::Rung)),
        _ => Said::Bad,
    }
}

/// What the line of the number says in a rung.
fn inside(number: u32, said: Said<RungLine>) -> Said<LineForm>
    ensures { result ≡ inside number said }
{
    match said {
        Said::Bad => Said::Bad,
        Said::Range => Said::Range,
        Said::Is(RungLine::Rung) => Said::Bad,
        Said::Is(RungLine::Open(circuit)) => Said::Is(LineForm::Body(Mark::Open(circuit))),
        Said::Is(RungLine::End) => Said::Is(LineForm::Body(Mark::End)),
        Said::Is(RungLine::Element(kind)) => {
            let leaf = Leaf { line: number, kind };
            Said::Is(LineForm::Body(Mark::Element(leaf)))
        }
    }
}

/// What a line above `PROGRAM` says.
fn header_said(alloc: Global, line: &[u8]) -> Result<Said<LineForm>, AllocError>
    ensures { IfOk result (λ said. said ≡ said_map form.Header (header_of line.now)) }
{
    Ok(match header_line(alloc, line)? {
        Said::Bad => Said::Bad,
        Said::Range => Said::Range,
        Said::Is(line) => Said::Is(LineForm::Header(line)),
    })
}

fn pins_form(said: Said<PinsLine>) -> Said<LineForm>
    ensures { result ≡ said_map form.Pins said }
{
    match said {
        Said::Bad => Said::Bad,
        Said::Range => Said::Range,
        Said::Is(line) => Said::Is(LineForm::Pins(line)),
    }
}

/// The target whose words count at a part of the text, below the MICRO line of the target.
fn counting(site: Site, target: Option<Target>) -> Target
    ensures { result ≡ counting site target }
{
    match (site, target) {
        (Site::Inside, Some(target)) => target,
        _ => Target::Interp,
    }
}

/// Whether the line that begins with the token begins with a word that is not built for the target.
fn is_unbuilt(target: Target, token: &[u8]) -> bool
    ensures { result ≡ begins_unbuilt target (token.now ∷ []) }
{
    match word_of(token) {
        Some(word) => !is_built(target, word),
        None => false,
    }
}

/// What the line of the number, which has these tokens, says at a part of the text.
fn said_by_tokens(
    alloc: Global,
    site: Site,
    number: u32,
    line: &[u8],
    words: &[&[u8]],
) -> Result<Said<LineForm>, AllocError>
    requires { map (λ t. t.now) words.now ≡ tokens line.now }
    ensures { IfOk result (λ said. said ≡ said_in site number line.now) }
{
    if words.is_empty() {
        return Ok(blank_said(site, line));
    }
    match site {
        Site::First => Ok(first_said(line)),
        Site::Header => header_said(alloc, line),
        Site::Pins => Ok(pins_form(pins_line(alloc, words)?)),
        Site::Between => {
            let said = rung_line(alloc, words, line)?;
            Ok(between(&said))
        }
        Site::Inside => Ok(inside(number, rung_line(alloc, words, line)?)),
    }
}

/// Hears the line of the number at a part of the text, below the MICRO line of the target.
pub fn hear(
    alloc: Global,
    site: Site,
    target: Option<Target>,
    number: u32,
    line: &[u8],
) -> Result<Heard, AllocError>
    ensures said { IfOk result (λ heard. heard.said ≡ said_in site number line.now) }
    ensures unbuilt { IfOk result (λ heard. heard.is_unbuilt ≡ begins_unbuilt (counting site target) (tokens line.now)) }
{
    let words = tokens(alloc, line)?;
    let is_unbuilt = match words.as_slice() {
        [] => false,
        [token, ..] => is_unbuilt(counting(site, target), token),
    };
    let said = said_by_tokens(alloc, site, number, line, words.as_slice())?;
    Ok(Heard { said, is_unbuilt })
}
