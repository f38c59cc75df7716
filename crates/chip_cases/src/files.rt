//! Cases of Intel HEX files. In their texts a comma stands for a line feed, and a semicolon for a carriage return.

use crate::words::{CaseError, hex_word, hex_words, target};
use chip_tables::{Target, flash_words};
use intel_hex::fault::HexError;
use intel_hex::image::Image;
use intel_hex::read::read_hex;
use intel_hex::write::write_hex;
use ld_base::list::List;
use std::alloc::Global;

/// `read TARGET TEXT` gives how many words the image has, the last one and the configuration word, or the fault.
/// `write TARGET CONFIG WORDS` gives the text of an image; CONFIG is `-` where it has none.
pub fn answer(alloc: Global, words: &[&str]) -> Result<String, CaseError> {
    match words {
        ["read", chip] => read(alloc, target(chip)?, ""),
        ["read", chip, text] => read(alloc, target(chip)?, text),
        ["write", chip, config, words @ ..] => {
            write(alloc, target(chip)?, config_of(config)?, words)
        }
        _ => Err(CaseError::NoCase),
    }
}

fn config_of(word: &str) -> Result<Option<u16>, CaseError> {
    if word == "-" {
        return Ok(None);
    }
    Ok(Some(hex_word(word)?))
}

fn read(alloc: Global, chip: Target, text: &str) -> Result<String, CaseError> {
    let bytes = bytes_of(alloc, text)?;
    match read_hex(alloc, chip, bytes.as_slice()) {
        Ok(image) => shown(alloc, image.words.as_slice(), image.config),
        Err(HexError::Fault(fault)) => Ok(format!(in alloc; "{fault}")?),
        Err(HexError::Memory(e)) => Err(e.into()),
    }
}

fn bytes_of(alloc: Global, text: &str) -> Result<List<u8>, CaseError> {
    let mut bytes = List::new(alloc);
    for byte in text.as_bytes() {
        bytes.push(match byte {
            b',' => b'\n',
            b';' => b'\r',
            other => *other,
        })?;
    }
    Ok(bytes)
}

fn shown(alloc: Global, words: &[u16], config: Option<u16>) -> Result<String, CaseError> {
    let count = words.len();
    let last = words.last().copied();
    Ok(format!(in alloc; "{count} {last:?} {config:?}")?)
}

fn write(
    alloc: Global,
    chip: Target,
    config: Option<u16>,
    digits: &[&str],
) -> Result<String, CaseError> {
    let Some(room) = flash_words(chip) else {
        return Err(CaseError::NoCase);
    };
    let words = hex_words(alloc, digits)?;
    if words.len() > room as usize {
        return Err(CaseError::NoCase);
    }
    let image = Image {
        target: chip,
        words,
        config,
    };
    let text = write_hex(alloc, &image)?;
    in_a_line(alloc, text.as_slice())
}

fn in_a_line(alloc: Global, text: &[u8]) -> Result<String, CaseError> {
    let mut shown = String::new(alloc);
    for byte in text {
        shown.push(if *byte == b'\n' { ',' } else { *byte as char })?;
    }
    Ok(shown)
}
