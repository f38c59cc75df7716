//! The line that is shown of a cycle.

ghost use Rattle.std.specs.Prelude.{◌≡◌, ◌++◌, codes, length, IfOk, OnOk};
ghost use Rattle.std.specs.Fmt.{decimal, signed_decimal};
ghost use Rattle.hex.specs.Hex.{encode_lower};
ghost use Rattle.ladder_trace.specs.Shown.{level_text, named, all_named, word_text, shown_text, IsViewOf};

use ladder_meaning::reading::View;
use ladder_tree::element::{Bytes, Name};
use ladder_tree::names::Names;
use ld_base::list::List;
use std::alloc::{AllocError, Global};
use texts::Text;

/// The line of a cycle, with its line feed: its number, which a run counts from 1, and what the view shows, by the names
/// in order. The bytes of the EEPROM are pairs of hexadecimal digits in lower case.
pub fn shown_line(alloc: Global, names: &Names, cycle: u32, view: &View) -> Result<Text, AllocError>
    requires { IsViewOf names.now view.now }
    ensures { IfOk result (λ line. line ≡ shown_text names.now cycle view.now) }
{
    let mut line = format!(in alloc; "{cycle}")?.into_bytes();
    push_levels(&mut line, names.outputs.as_slice(), view.outputs.as_slice())?;
    push_levels(&mut line, names.relays.as_slice(), view.relays.as_slice())?;
    push_values(
        alloc,
        &mut line,
        names.variables.as_slice(),
        view.variables.as_slice(),
    )?;
    push_number(alloc, &mut line, " pwm=", view.pwm)?;
    push_number(alloc, &mut line, " sent=", view.sent)?;
    push_bytes(alloc, &mut line, " ee=", &view.eeprom)?;
    line.push(b'\n')?;
    Ok(List::from_vec(line))
}

/// Appends a name and what it has.
fn push_named(line: &mut Vec<u8>, name: &Name, text: &str) -> Result<(), AllocError>
    ensures { OnOk result (line.new.items ≡ line.old.items ++ named name.now text.now) }
{
    line.push(b' ')?;
    line.extend_from_slice(name.as_slice())?;
    line.push(b'=')?;
    line.extend_from_slice(text.as_bytes())
}

fn level_text(level: bool) -> &'static str
    ensures { result.now ≡ level_text level }
{
    if level { "1" } else { "0" }
}

/// Appends the levels of names.
fn push_levels(line: &mut Vec<u8>, names: &[Name], levels: &[bool]) -> Result<(), AllocError>
    requires { length levels.now ≡ length names.now }
    ensures { OnOk result (line.new.items ≡ line.old.items ++ all_named level_text names.now levels.now) }
{
    for place in 0..names.len() {
        push_named(line, &names[place], level_text(levels[place]))?;
    }
    Ok(())
}

/// Appends the numbers of names.
fn push_values(
    alloc: Global,
    line: &mut Vec<u8>,
    names: &[Name],
    values: &[i16],
) -> Result<(), AllocError>
    requires { length values.now ≡ length names.now }
    ensures { OnOk result (line.new.items ≡ line.old.items ++ all_named signed_decimal names.now values.now) }
{
    for place in 0..names.len() {
        let value = values[place];
        let text = format!(in alloc; "{value}")?;
        push_named(line, &names[place], text.as_str())?;
    }
    Ok(())
}

/// Appends a word and the text behind it.
fn push_word(line: &mut Vec<u8>, word: &str, text: &str) -> Result<(), AllocError>
    ensures { OnOk result (line.new.items ≡ line.old.items ++ (word.now ++ text.now)) }
{
    line.extend_from_slice(word.as_bytes())?;
    line.extend_from_slice(text.as_bytes())
}

/// Appends a word and a number, where there is one.
fn push_number(
    alloc: Global,
    line: &mut Vec<u8>,
    word: &str,
    number: Option<u8>,
) -> Result<(), AllocError>
    ensures { OnOk result (line.new.items ≡ line.old.items ++ word_text word.now decimal number) }
{
    match number {
        None => Ok(()),
        Some(number) => {
            let text = format!(in alloc; "{number}")?;
            push_word(line, word, text.as_str())
        }
    }
}

/// Appends a word and the digits of bytes, where there are any.
fn push_bytes(
    alloc: Global,
    line: &mut Vec<u8>,
    word: &str,
    bytes: &Option<Bytes>,
) -> Result<(), AllocError>
    ensures { OnOk result (line.new.items ≡ line.old.items ++ word_text word.now encode_lower bytes.now) }
{
    match bytes {
        None => Ok(()),
        Some(bytes) => {
            let digits = hex::encode(alloc, bytes.as_slice())?;
            push_word(line, word, digits.as_str())
        }
    }
}
