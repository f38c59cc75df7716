//! Reading a file.

ghost use Rattle.std.specs.Prelude.{◌≡◌, IfOk, IfErr, Ok};
ghost use Rattle.intel_hex.specs.Verdict.{hex_verdict, IsCause};

use crate::fault::{HexCause, HexError, HexFault};
use crate::image::Image;
use crate::kept::image;
use crate::loaded::Loaded;
use chip_tables::Target;
use std::alloc::{AllocError, Global};
use texts::limits::{FILE_BYTES, judged};
use texts::lines::split_line;

/// The image that an Intel HEX file gives a chip, or the first line with a fault.
///
/// A carriage return at a line's end and empty lines do not count. The digits are of either case,
/// and records come in any order. Kept are the program words, and a PIC's configuration word; what
/// else a PIC's file has of identification words and EEPROM may be there, and is dropped. A byte
/// that no record gives to a word is that of the erased word, 3FFFh on a PIC and FFFFh on an AVR.
/// A target that is no chip has no memory, so no record may have data.
pub fn read_hex(alloc: Global, target: Target, text: &[u8]) -> Result<Image, HexError>
    ensures image { IfOk result (λ i. hex_verdict target text.now ≡ Ok i) }
    ensures error { IfErr result (IsCause (hex_verdict target text.now)) }
{
    let is_long = text.len() > FILE_BYTES;
    let mut loaded = Loaded::new(alloc)?;
    let mut rest = judged(FILE_BYTES, text);
    let mut line = 0;
    while let Some((bytes, behind)) = split_line(rest) {
        line += 1;
        if is_long && behind.is_empty() {
            return fault(line, HexCause::BadRecord);
        }
        if let Some(cause) = loaded.read(alloc, target, bytes)? {
            return fault(line, cause);
        }
        rest = behind;
    }
    if !loaded.is_ended {
        return fault(line + 1, HexCause::NoEnd);
    }
    Ok(image(alloc, target, loaded.bytes())?)
}

fn fault(line: u32, cause: HexCause) -> Result<Image, HexError>
    ensures { result ≡ Err (HexError.Fault (record { line = line; cause = cause })) }
{
    Err(HexError::Fault(HexFault { line, cause }))
}
