//! The image that the bytes of a file make.

ghost use Rattle.std.specs.Prelude.{◌≡◌, ◌≤◌, ◌<◌, ◌+◌, ◌*◌, length, map, IfOk};
ghost use Rattle.std.specs.List.{range_with_len};
ghost use Rattle.intel_hex.specs.Kept.{image_of, word_at, word_of, word_count, config_of, erased};
ghost use Rattle.intel_hex.specs.Loaded.{held, memory_size};

use crate::image::{Image, Words};
use crate::loaded::program_bytes;
use crate::write::is_pic;
use chip_tables::Target;
use ld_base::list::List;
use std::alloc::{AllocError, Global};

/// The place of a PIC's configuration word.
const CONFIG_PLACE: usize = 0x2007;

/// The image that bytes make, each at its address.
pub fn image(alloc: Global, target: Target, bytes: &[Option<u8>]) -> Result<Image, AllocError>
    requires { length bytes.now ≡ memory_size }
    ensures { IfOk result (λ i. i ≡ image_of target (held bytes.now)) }
{
    let is_pic = is_pic(target);
    let count = word_count(bytes, program_bytes(target));
    Ok(Image {
        target,
        words: words(alloc, is_pic, bytes, count)?,
        config: config(is_pic, bytes),
    })
}

/// How many words there are up to the last with a byte below the limit.
fn word_count(bytes: &[Option<u8>], limit: usize) -> usize
    requires { limit ≤ length bytes.now }
    ensures value { result ≡ word_count (held bytes.now) limit }
    ensures bound { 2 * result ≤ limit + 1 }
{
    let mut count = 0;
    for address in 0..limit {
        if bytes[address].is_some() {
            count = address / 2 + 1;
        }
    }
    count
}

/// The first words.
fn words(
    alloc: Global,
    is_pic: bool,
    bytes: &[Option<u8>],
    count: usize,
) -> Result<Words, AllocError>
    requires { 2 * count ≤ length bytes.now }
    ensures { IfOk result (λ ws. ws ≡ map (word_at is_pic (held bytes.now)) (range_with_len 0 count)) }
{
    let mut words = List::new(alloc);
    for place in 0..count {
        words.push(word(is_pic, bytes, place))?;
    }
    Ok(words)
}

/// The word at a place.
fn word(is_pic: bool, bytes: &[Option<u8>], place: usize) -> u16
    requires { 2 * place + 1 < length bytes.now }
    ensures { result ≡ word_at is_pic (held bytes.now) place }
{
    let [high, low] = erased(is_pic).to_be_bytes();
    let low = bytes[2 * place].unwrap_or(low);
    let high = bytes[2 * place + 1].unwrap_or(high);
    let word = u16::from_be_bytes([high, low]);
    if is_pic { word % 0x4000 } else { word }
}

/// A word that no record gave.
fn erased(is_pic: bool) -> u16
    ensures { result ≡ erased is_pic }
{
    if is_pic { 0x3fff } else { 0xffff }
}

/// A PIC's configuration word, if one of its bytes was given.
fn config(is_pic: bool, bytes: &[Option<u8>]) -> Option<u16>
    requires { length bytes.now ≡ memory_size }
    ensures { result ≡ config_of is_pic (held bytes.now) }
{
    let is_given = bytes[2 * CONFIG_PLACE].is_some() || bytes[2 * CONFIG_PLACE + 1].is_some();
    if is_pic && is_given {
        Some(word(is_pic, bytes, CONFIG_PLACE))
    } else {
        None
    }
}
