//! Writing an image.

ghost use Rattle.std.specs.Prelude.{◌≡◌, ◌+◌, ◌*◌, ◌≤◌, ◌<◌, ◌%◌, ◌^◌, ◌++◌, ◌∷◌, [], length, sum, IfOk, OnOk, Some};
ghost use Rattle.chip_tables.specs.declared.memory.TheConstants.{FLASH_MOST};
ghost use Rattle.intel_hex.specs.Areas.{is_pic, flash_of};
ghost use Rattle.intel_hex.specs.Record.{line_of, closing, bytes_of};
ghost use Rattle.intel_hex.specs.Text.{word_bytes, data_lines, record_count, upper_line, config_line, hex_text};

use crate::image::Image;
use crate::record::{DATA_TYPE, END_TYPE, UPPER_TYPE, sum_of};
use chip_tables::Target;
use ld_base::list::List;
use std::alloc::{AllocError, Global};
use texts::Text;

/// How many words stand in one record.
const WORDS_IN_RECORD: usize = 8;

/// The address of a PIC's configuration word.
const CONFIG_ADDRESS: u16 = 0x400e;

/// The Intel HEX file of an image, in upper case: on a PIC the record that sets the upper half of
/// the addresses, then all words, then on a PIC the configuration word if there is one, and the
/// end record. Each line ends with a line feed.
pub fn write_hex(alloc: Global, image: &Image) -> Result<Text, AllocError>
    requires { length image.now.words ≤ flash_of image.now.target }
    ensures { IfOk result (λ t. t ≡ hex_text image.now) }
{
    let is_pic = is_pic(image.target);
    let mut text = Vec::new(alloc);
    push_upper(alloc, &mut text, is_pic)?;
    push_words(alloc, &mut text, image.words.as_slice())?;
    push_config(alloc, &mut text, is_pic, image.config)?;
    push_line(alloc, &mut text, END_TYPE, 0, &[])?;
    Ok(List::from_vec(text))
}

pub fn is_pic(target: Target) -> bool
    ensures { result ≡ is_pic target }
{
    match target {
        Target::F628 | Target::F877 => true,
        Target::Mega16 | Target::Interp | Target::AnsiC => false,
    }
}

fn push_upper(alloc: Global, text: &mut Vec<u8>, is_pic: bool) -> Result<(), AllocError>
    ensures { OnOk result (text.new.items ≡ text.old.items ++ upper_line is_pic) }
{
    if is_pic {
        push_line(alloc, text, UPPER_TYPE, 0, &[0, 0])?;
    }
    Ok(())
}

fn push_config(
    alloc: Global,
    text: &mut Vec<u8>,
    is_pic: bool,
    config: Option<u16>,
) -> Result<(), AllocError>
    ensures { OnOk result (text.new.items ≡ text.old.items ++ config_line is_pic config) }
{
    match config {
        Some(word) if is_pic => push_data(alloc, text, CONFIG_ADDRESS, &[word]),
        _ => Ok(()),
    }
}

/// Appends the records of words from address 0 on.
fn push_words(alloc: Global, text: &mut Vec<u8>, words: &[u16]) -> Result<(), AllocError>
    requires { length words.now ≤ FLASH_MOST }
    ensures { OnOk result (text.new.items ≡ text.old.items ++ data_lines (record_count (length words.now)) 0 words.now) }
{
    let mut rest = words;
    for place in 0..words.len().div_ceil(WORDS_IN_RECORD) {
        let (front, behind) = rest.split_at(WORDS_IN_RECORD.min(rest.len()));
        push_data(alloc, text, (16 * place) as u16, front)?;
        rest = behind;
    }
    Ok(())
}

/// Appends the record of words at an address.
fn push_data(
    alloc: Global,
    text: &mut Vec<u8>,
    address: u16,
    words: &[u16],
) -> Result<(), AllocError>
    requires { length words.now ≤ 8 }
    ensures { OnOk result (text.new.items ≡ text.old.items ++ line_of 0 address (word_bytes words.now)) }
{
    let mut bytes = Vec::new(alloc);
    for word in words {
        bytes.push((word % 256) as u8)?;
        bytes.push((word / 256) as u8)?;
    }
    push_line(alloc, text, DATA_TYPE, address, bytes.as_slice())
}

/// Appends the line of a record.
fn push_line(
    alloc: Global,
    text: &mut Vec<u8>,
    kind: u8,
    address: u16,
    payload: &[u8],
) -> Result<(), AllocError>
    requires { length payload.now < 256 }
    ensures { OnOk result (text.new.items ≡ text.old.items ++ line_of kind address payload.now) }
{
    let [high, low] = address.to_be_bytes();
    let mut bytes = vec![in alloc; payload.len() as u8, high, low, kind]?;
    bytes.extend_from_slice(payload)?;
    let closing = 0u8.wrapping_sub(sum_of(bytes.as_slice()));
    bytes.push(closing)?;
    let pairs = hex::encode_upper(alloc, bytes.as_slice())?;
    text.push(b':')?;
    text.extend_from_slice(pairs.as_bytes())?;
    text.push(b'\n')?;
    Ok(())
}
