//! Reading a project text that is at hand whole.

ghost use Rattle.std.specs.Prelude.{IfOk, IfErr};
ghost use Rattle.ld_text.specs.Text.{IsReadAs, IsCause, text_fault, judged};
ghost use Rattle.ld_text.specs.Within.{IsWithin};

use crate::fault::TextError;
use crate::reader::Reader;
use ladder_tree::project::Project;
use std::alloc::Global;
use texts::limits::{FILE_BYTES, judged};

/// Reads a project text. No more than `FILE_BYTES` bytes and one are read, so a longer text may be cut there:
/// the line that holds that byte is refused, or an earlier one.
pub fn read_project(alloc: Global, text: &[u8]) -> Result<Project, TextError>
    ensures read { IfOk result (IsReadAs (judged text.now)) }
    ensures within { IfOk result IsWithin }
    ensures refused { IfErr result (IsCause (text_fault (judged text.now))) }
{
    let mut reader = Reader::new(alloc);
    if let Err(e) = reader.feed(judged(FILE_BYTES, text)) {
        return Err(e);
    }
    reader.end()
}
