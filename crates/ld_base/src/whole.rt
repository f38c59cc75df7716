//! Whole pieces, and whole files.

ghost use Rattle.std.specs.Prelude.{◌≡◌, ℕ, ◌+◌, ◌^◌, ◌<◌, ◌≤◌, true, List, ◌++◌, length, take, Some, None, OnOk, IfOk, IsErrOf};
ghost use Rattle.ld_base.specs.Counts.{OpenCounts, ReadCounts, WriteCounts, OutCount};
ghost use Rattle.ld_base.specs.Bytes.{SameHeld, Grows};

use crate::files::{FileFault, Files, OpenFault, Out};
use std::alloc::Global;

/// How many bytes one read asks for.
const BUFFER: usize = 4096;

/// Appends the whole piece to what was written. A fault appends a front of it.
pub fn write_out<O: Out>(out: &mut O, piece: &[u8]) -> Result<(), FileFault>
    ensures count { OutCount (O.fault_count out.old) (O.fault_count out.new) result }
    ensures whole { O.tells ≡ true → OnOk result (O.written out.new ≡ O.written out.old ++ piece.now) }
    ensures part { O.tells ≡ true → (front : List ℕ) × (rest : List ℕ) × (piece.now ≡ front ++ rest) × (O.written out.new ≡ O.written out.old ++ front) }
{
    let mut rest = piece;
    while !rest.is_empty() {
        let n = out.write(rest)?;
        rest = &rest[n..];
    }
    Ok(())
}

/// Appends the whole piece to the file being written. A fault appends a front of it.
pub fn write_file<F: Files>(files: &mut F, piece: &[u8]) -> Result<(), FileFault>
    requires { F.is_writing files.old ≡ true }
    ensures open { F.is_open files.new ≡ F.is_open files.old }
    ensures writing { F.is_writing files.new ≡ true }
    ensures counts { WriteCounts (F.counts files.old) (F.counts files.new) result }
    ensures target { F.tells ≡ true → F.target files.new ≡ F.target files.old }
    ensures whole { F.tells ≡ true → OnOk result (Grows (F.held files.old) (F.held files.new) (F.target files.old) piece.now) }
    ensures part { F.tells ≡ true → (front : List ℕ) × (rest : List ℕ) × (piece.now ≡ front ++ rest) × Grows (F.held files.old) (F.held files.new) (F.target files.old) front }
{
    let mut rest = piece;
    while !rest.is_empty() {
        let n = files.write(rest)?;
        rest = &rest[n..];
    }
    Ok(())
}

/// Reads to the end, or to the first byte past the limit and no further.
fn read_rest<F: Files>(alloc: Global, files: &mut F, limit: usize) -> Result<Vec<u8>, FileFault>
    requires open { F.is_open files.old ≡ true }
    requires small { limit < 2 ^ 62 }
    ensures open { F.is_open files.new ≡ true }
    ensures writing { F.is_writing files.new ≡ F.is_writing files.old }
    ensures counts { ReadCounts (F.counts files.old) (F.counts files.new) result }
    ensures short { IfOk result (λ v. length v.items ≤ limit + 1) }
    ensures bytes { F.tells ≡ true → IfOk result (λ v. v.items ≡ take (limit + 1) (F.left files.old)) }
    ensures held { F.tells ≡ true → SameHeld (F.held files.old) (F.held files.new) }
{
    let mut all = Vec::new(alloc);
    let mut buf = [0u8; BUFFER];
    while all.len() <= limit {
        let room = BUFFER.min(limit + 1 - all.len());
        let n = files.read(&mut buf[..room])?;
        if n == 0 {
            return Ok(all);
        }
        all.extend_from_slice(&buf[..n])?;
    }
    Ok(all)
}

/// The bytes of a file, and of a longer one those up to the first past the limit.
///
/// The file stays open. A caller sees that the file was longer by a length of `limit + 1`.
pub fn read_file<F: Files>(
    alloc: Global,
    files: &mut F,
    name: &str,
    limit: usize,
) -> Result<Vec<u8>, OpenFault>
    requires { limit < 2 ^ 62 }
    ensures writing { F.is_writing files.new ≡ F.is_writing files.old }
    ensures counts { OpenCounts (F.counts files.old) (F.counts files.new) result }
    ensures bytes { F.tells ≡ true → IfOk result (λ v. (bytes : List ℕ) × (F.held files.old name.now ≡ Some bytes) × (v.items ≡ take (limit + 1) bytes)) }
    ensures absent { F.tells ≡ true → IsErrOf result OpenFault.Absent → F.held files.old name.now ≡ None }
    ensures held { F.tells ≡ true → SameHeld (F.held files.old) (F.held files.new) }
{
    files.open(name)?;
    Ok(read_rest(alloc, files, limit)?)
}
