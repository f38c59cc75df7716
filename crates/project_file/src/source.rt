//! Reading a project from a file, piece by piece.

ghost use Rattle.std.specs.Prelude.{◌≡◌, ℕ, true, List, [], Some, None, IfOk, IsErrOf};
ghost use Rattle.ld_base.specs.Bytes.{SameHeld};
ghost use Rattle.ld_text.specs.Reading.{Stands};
ghost use Rattle.ld_text.specs.Text.{IsReadAs, text_fault, judged};
ghost use Rattle.ld_text.specs.Within.{IsWithin};
ghost use Rattle.project_file.specs.Source.{SourceCounts, IfRefused};

use crate::fault::SourceFault;
use ladder_tree::project::Project;
use ld_base::files::Files;
use ld_text::reader::Reader;
use std::alloc::Global;
use texts::limits::FILE_BYTES;

/// How many bytes one read asks for.
const PIECE: usize = 4096;

/// Feeds a new reader with the opened file: to its end, to the first byte past the limit of a project text and no further, or to the
/// piece with which the text is refused.
fn feed_file<F: Files>(files: &mut F, reader: &mut Reader) -> Result<(), SourceFault>
    requires open { F.is_open files.old ≡ true }
    requires fresh { Stands reader.old [] }
    ensures writing { F.is_writing files.new ≡ F.is_writing files.old }
    ensures counts { SourceCounts (F.counts files.old) (F.counts files.new) result }
    ensures fed { IfOk result (λ u. (text : List ℕ) × Stands reader.new text × (F.tells ≡ true → text ≡ judged (F.left files.old))) }
    ensures refused { IfRefused result (λ fault. F.tells ≡ true → text_fault (judged (F.left files.old)) ≡ Some fault) }
    ensures present { IsErrOf result SourceFault.Absent → ⊥ }
    ensures held { F.tells ≡ true → SameHeld (F.held files.old) (F.held files.new) }
{
    let mut buf = [0u8; PIECE];
    let mut taken = 0;
    while taken <= FILE_BYTES {
        let room = PIECE.min(FILE_BYTES + 1 - taken);
        let n = files.read(&mut buf[..room])?;
        if n == 0 {
            return Ok(());
        }
        if let Err(e) = reader.feed(&buf[..n]) {
            return Err(SourceFault::from(e));
        }
        taken += n;
    }
    Ok(())
}

/// The project that a file holds. It is read piece by piece, and no piece is kept: reading ends with the piece in which the text is
/// refused, or at the first byte past the limit of a project text, so whatever the file holds behind that is never asked for.
pub fn read_source<F: Files>(
    alloc: Global,
    files: &mut F,
    name: &str,
) -> Result<Project, SourceFault>
    ensures writing { F.is_writing files.new ≡ F.is_writing files.old }
    ensures counts { SourceCounts (F.counts files.old) (F.counts files.new) result }
    ensures within { IfOk result IsWithin }
    ensures read { F.tells ≡ true → IfOk result (λ p. (text : List ℕ) × (F.held files.old name.now ≡ Some text) × IsReadAs (judged text) p) }
    ensures refused { F.tells ≡ true → IfRefused result (λ fault. (text : List ℕ) × (F.held files.old name.now ≡ Some text) × (text_fault (judged text) ≡ Some fault)) }
    ensures absent { F.tells ≡ true → IsErrOf result SourceFault.Absent → F.held files.old name.now ≡ None }
    ensures held { F.tells ≡ true → SameHeld (F.held files.old) (F.held files.new) }
{
    files.open(name)?;
    let mut reader = Reader::new(alloc);
    feed_file(files, &mut reader)?;
    Ok(reader.end()?)
}
