//! Files in memory, which fail at the calls that they are told to.

ghost use Rattle.std.specs.Prelude.{◌≡◌, ℕ, List, true, false, Some, None, Ok, Err, OnOk, OnErr, IfOk, is_ok, length, take, drop, min, [], ◌∷◌, ◌++◌, ◌+◌, ◌^◌, ◌<◌, IsErrOf, ◌↔◌, if◌then◌else◌, is_some};
ghost use Rattle.ld_base.specs.Bytes.{SameHeld, HoldsThen, Grows};
ghost use Rattle.ld_base.specs.Counts.{one_more, read_failed, absent, write_failed, OpenCounts, ReadCounts, WriteCounts};
ghost use Rattle.ld_base.specs.Entries.{now_of};

use crate::entries::{Entry, bytes_of, grow, hold};
use crate::files::{FileFault, Files, OpenFault};
use std::alloc::{AllocError, Global};

/// Files in memory. Each call of a method of `Files` that opens, reads, creates, writes or
/// finishes has a number, from 1 on, and those whose numbers `fail_at` was given answer `Failed`.
#[derive(Debug, Drop)]
pub struct MemFiles {
    alloc: Global,
    files: Vec<Entry>,
    /// The name of the file that was opened last.
    source: Vec<u8>,
    /// How many of its bytes were read.
    at: usize,
    is_open: bool,
    /// The name of the file that was created last.
    target: Vec<u8>,
    is_writing: bool,
    calls: u64,
    failing: Vec<u64>,
    reads: u64,
    absences: u64,
    writes: u64,
}

impl MemFiles {
    ghost use Rattle.ld_base.specs.MemFiles.{held_by, counts_of, calls_of, failing_of, is_open_of, is_writing_of, fails_next, SameCalls};

    pub fn new(alloc: Global) -> MemFiles
        ensures held { (n : List ℕ) → held_by result n ≡ None }
        ensures counts { counts_of result ≡ record { reads = 0; absences = 0; writes = 0 } }
        ensures calls { calls_of result ≡ 0 }
        ensures failing { failing_of result ≡ [] }
        ensures closed { is_open_of result ≡ false }
        ensures idle { is_writing_of result ≡ false }
    {
        MemFiles {
            alloc,
            files: Vec::new(alloc),
            source: Vec::new(alloc),
            at: 0,
            is_open: false,
            target: Vec::new(alloc),
            is_writing: false,
            calls: 0,
            failing: Vec::new(alloc),
            reads: 0,
            absences: 0,
            writes: 0,
        }
    }

    /// Makes the name hold the bytes in place of what it held.
    pub fn put(&mut self, name: &str, bytes: &[u8]) -> Result<(), AllocError>
        ensures ok { OnOk result (HoldsThen (held_by self.old) (held_by self.new) name.now bytes.now) }
        ensures err { OnErr result (SameHeld (held_by self.old) (held_by self.new)) }
        ensures calls { SameCalls self.old self.new }
        ensures failing { failing_of self.new ≡ failing_of self.old }
    {
        let bytes = Vec::from_slice(self.alloc, bytes)?;
        hold(self.alloc, &mut self.files, name.as_bytes(), bytes)
    }

    /// What the name holds, or none.
    pub fn get(&self, name: &str) -> Option<&[u8]>
        ensures { now_of result ≡ held_by self.now name.now }
    {
        bytes_of(&self.files, name.as_bytes())
    }

    /// Makes the call of that number fail. The first call has the number 1.
    pub fn fail_at(&mut self, call: u64) -> Result<(), AllocError>
        ensures ok { OnOk result (failing_of self.new ≡ failing_of self.old ++ call ∷ []) }
        ensures err { OnErr result (failing_of self.new ≡ failing_of self.old) }
        ensures held { SameHeld (held_by self.old) (held_by self.new) }
        ensures calls { SameCalls self.old self.new }
    {
        self.failing.push(call)?;
        Ok(())
    }

    /// Whether the name is held.
    fn holds(&self, name: &str) -> bool
        ensures { result ≡ is_some (held_by self.now name.now) }
    {
        self.get(name).is_some()
    }

    /// Counts a call, and says whether it is to fail.
    fn fails(&mut self) -> bool
        ensures counted { self.new ≡ record self.old { calls = one_more self.old.calls } }
        ensures set { result ≡ fails_next self.old }
    {
        self.calls = self.calls.saturating_add(1);
        self.failing.contains(&self.calls)
    }
}

impl Files for MemFiles {
    ghost use Rattle.ld_base.specs.MemFiles.{held_by, counts_of, left_of, target_of, is_open_of, is_writing_of, fails_next, CountsCall};

    ghost tells = { true };

    ghost held = { held_by };

    ghost left = { left_of };

    ghost target = { target_of };

    ghost is_open = { is_open_of };

    ghost is_writing = { is_writing_of };

    ghost counts = { counts_of };

    fn open(&mut self, name: &str) -> Result<(), OpenFault>
        ensures open { is_open_of self.new ≡ is_ok result }
        ensures writing { is_writing_of self.new ≡ is_writing_of self.old }
        ensures counts { OpenCounts (counts_of self.old) (counts_of self.new) result }
        ensures opened { OnOk result (held_by self.old name.now ≡ Some (left_of self.new)) }
        ensures absent { IsErrOf result OpenFault.Absent ↔ ((fails_next self.old ≡ false) × (held_by self.old name.now ≡ None)) }
        ensures held { SameHeld (held_by self.old) (held_by self.new) }

        ensures call { CountsCall self.old self.new }
        ensures fails { IsErrOf result OpenFault.Failed ↔ (fails_next self.old ≡ true) }
        ensures counted { counts_of self.new ≡ (if fails_next self.old then read_failed (counts_of self.old) else (if is_some (held_by self.old name.now) then counts_of self.old else absent (counts_of self.old))) }
    {
        self.is_open = false;
        if self.fails() {
            self.reads = self.reads.saturating_add(1);
            return Err(OpenFault::Failed);
        }
        if !self.holds(name) {
            self.absences = self.absences.saturating_add(1);
            return Err(OpenFault::Absent);
        }
        self.source = Vec::from_slice(self.alloc, name.as_bytes())?;
        self.at = 0;
        self.is_open = true;
        Ok(())
    }

    fn read(&mut self, buf: &mut [u8]) -> Result<usize, FileFault>
        requires { is_open_of self.old ≡ true }
        ensures open { is_open_of self.new ≡ true }
        ensures writing { is_writing_of self.new ≡ is_writing_of self.old }
        ensures counts { ReadCounts (counts_of self.old) (counts_of self.new) result }
        ensures bytes { IfOk result (λ n. left_of self.old ≡ take n buf.new ++ left_of self.new) }
        ensures err { OnErr result (left_of self.new ≡ left_of self.old) }
        ensures held { SameHeld (held_by self.old) (held_by self.new) }

        ensures call { CountsCall self.old self.new }
        ensures answer { result ≡ (if fails_next self.old then Err FileFault.Failed else Ok (min (length buf.new) (length (left_of self.old)))) }
        ensures counted { counts_of self.new ≡ (if fails_next self.old then read_failed (counts_of self.old) else counts_of self.old) }
    {
        if self.fails() {
            self.reads = self.reads.saturating_add(1);
            return Err(FileFault::Failed);
        }
        let n = match bytes_of(&self.files, &self.source) {
            None => 0,
            Some(bytes) => copy_from(bytes, self.at, buf),
        };
        self.at = self.at.saturating_add(n);
        Ok(n)
    }

    fn create(&mut self, name: &str) -> Result<(), FileFault>
        ensures open { is_open_of self.new ≡ is_open_of self.old }
        ensures writing { is_writing_of self.new ≡ is_ok result }
        ensures counts { WriteCounts (counts_of self.old) (counts_of self.new) result }
        ensures created { OnOk result ((target_of self.new ≡ name.now) × HoldsThen (held_by self.old) (held_by self.new) name.now []) }
        ensures err { OnErr result (SameHeld (held_by self.old) (held_by self.new)) }

        ensures call { CountsCall self.old self.new }
        ensures fails { IsErrOf result FileFault.Failed ↔ (fails_next self.old ≡ true) }
        ensures counted { counts_of self.new ≡ (if fails_next self.old then write_failed (counts_of self.old) else counts_of self.old) }
    {
        self.is_writing = false;
        if self.fails() {
            self.writes = self.writes.saturating_add(1);
            return Err(FileFault::Failed);
        }
        self.target = Vec::from_slice(self.alloc, name.as_bytes())?;
        hold(
            self.alloc,
            &mut self.files,
            name.as_bytes(),
            Vec::new(self.alloc),
        )?;
        self.is_writing = true;
        Ok(())
    }

    fn write(&mut self, piece: &[u8]) -> Result<usize, FileFault>
        requires { is_writing_of self.old ≡ true }
        ensures open { is_open_of self.new ≡ is_open_of self.old }
        ensures writing { is_writing_of self.new ≡ true }
        ensures counts { WriteCounts (counts_of self.old) (counts_of self.new) result }
        ensures target { target_of self.new ≡ target_of self.old }
        ensures appended { IfOk result (λ n. Grows (held_by self.old) (held_by self.new) (target_of self.old) (take n piece.now)) }
        ensures err { OnErr result (SameHeld (held_by self.old) (held_by self.new)) }

        ensures call { CountsCall self.old self.new }
        ensures whole { IfOk result (λ n. n ≡ length piece.now) }
        ensures fails { IsErrOf result FileFault.Failed ↔ (fails_next self.old ≡ true) }
        ensures counted { counts_of self.new ≡ (if fails_next self.old then write_failed (counts_of self.old) else counts_of self.old) }
    {
        if self.fails() {
            self.writes = self.writes.saturating_add(1);
            return Err(FileFault::Failed);
        }
        grow(&mut self.files, &self.target, piece)?;
        Ok(piece.len())
    }

    fn finish(&mut self) -> Result<(), FileFault>
        requires { is_writing_of self.old ≡ true }
        ensures open { is_open_of self.new ≡ is_open_of self.old }
        ensures writing { is_writing_of self.new ≡ false }
        ensures counts { WriteCounts (counts_of self.old) (counts_of self.new) result }
        ensures held { SameHeld (held_by self.old) (held_by self.new) }

        ensures call { CountsCall self.old self.new }
        ensures answer { result ≡ (if fails_next self.old then Err FileFault.Failed else Ok tt) }
        ensures counted { counts_of self.new ≡ (if fails_next self.old then write_failed (counts_of self.old) else counts_of self.old) }
    {
        self.is_writing = false;
        if self.fails() {
            self.writes = self.writes.saturating_add(1);
            return Err(FileFault::Failed);
        }
        Ok(())
    }

    fn read_faults(&self) -> u64 {
        self.reads
    }

    fn absences(&self) -> u64 {
        self.absences
    }

    fn write_faults(&self) -> u64 {
        self.writes
    }
}

/// Copies what lies behind a place into the front of the buffer, and says how many bytes that is.
fn copy_from(bytes: &[u8], at: usize, buf: &mut [u8]) -> usize
    ensures count { result ≡ min (length buf.new) (length (drop at bytes.now)) }
    ensures bytes { drop at bytes.now ≡ take result buf.new ++ drop (at + result) bytes.now }
    ensures end { 0 < length buf.new → result ≡ 0 → drop at bytes.now ≡ [] }
    ensures fits { at + result < 2 ^ 64 }
{
    if at >= bytes.len() {
        return 0;
    }
    let n = buf.len().min(bytes.len() - at);
    buf[..n].copy_from_slice(&bytes[at..at + n]);
    n
}
