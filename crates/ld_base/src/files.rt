//! Files and an output, by what they hold and how often they failed.
//!
//! Each fault but want of memory has a count that rises with it, so that a caller can tell a fault
//! of the outside from one of its own. No count falls, and none rises past the greatest `u64`.

ghost use Rattle.std.specs.Prelude.{◌≡◌, ℕ, ◌+◌, ◌<◌, ◌≤◌, Bool, true, false, List, [], ◌++◌, length, take, Some, None, is_ok, OnOk, OnErr, IfOk, IsErrOf};
ghost use Rattle.ld_base.specs.Counts.{Counts, OpenCounts, ReadCounts, WriteCounts, OutCount};
ghost use Rattle.ld_base.specs.Bytes.{Held, SameHeld, HoldsThen, Grows};

use std::alloc::{AllocError, AllocFailed};

/// Why a call on an open file, or on an output, did nothing.
#[derive(Debug, Drop)]
pub enum FileFault {
    /// The outside refused it, and its count of such faults rose.
    Failed,
    Memory(AllocError),
}

/// Why a file was not opened, or not read to its end.
#[derive(Debug, Drop)]
pub enum OpenFault {
    /// No file has the name.
    Absent,
    Failed,
    Memory(AllocError),
}

/// Files under their names, of which one at a time is read and one is written.
pub trait Files {
    /// Whether it tells what names hold.
    ghost tells: { Bool };

    /// What names hold, where it tells.
    ghost held: { Self → Held };

    /// The unread rest of the opened file, where it tells.
    ghost left: { Self → List ℕ };

    /// The name of the file being written, where it tells.
    ghost target: { Self → List ℕ };

    /// Whether a file is opened for reading.
    ghost is_open: { Self → Bool };

    /// Whether a file is being written.
    ghost is_writing: { Self → Bool };

    /// How often it failed, by kind.
    ghost counts: { Self → Counts };

    /// Opens a file at its first byte, in place of the one that was open.
    ///
    /// After an error no file is open.
    fn open(&mut self, name: &str) -> Result<(), OpenFault>
        ensures open { is_open self.new ≡ is_ok result }
        ensures writing { is_writing self.new ≡ is_writing self.old }
        ensures counts { OpenCounts (counts self.old) (counts self.new) result }
        ensures opened { tells ≡ true → OnOk result (held self.old name.now ≡ Some (left self.new)) }
        ensures absent { tells ≡ true → IsErrOf result OpenFault.Absent → held self.old name.now ≡ None }
        ensures held { tells ≡ true → SameHeld (held self.old) (held self.new) };

    /// Reads the next bytes into the front of the buffer, and says how many they are.
    fn read(&mut self, buf: &mut [u8]) -> Result<usize, FileFault>
        requires { is_open self.old ≡ true }
        ensures open { is_open self.new ≡ true }
        ensures writing { is_writing self.new ≡ is_writing self.old }
        ensures counts { ReadCounts (counts self.old) (counts self.new) result }
        ensures bound { IfOk result (λ n. n ≤ length buf.new) }
        ensures bytes { tells ≡ true → IfOk result (λ n. left self.old ≡ take n buf.new ++ left self.new) }
        ensures end { tells ≡ true → 0 < length buf.new → IfOk result (λ n. n ≡ 0 → left self.old ≡ []) }
        ensures err { tells ≡ true → OnErr result (left self.new ≡ left self.old) }
        ensures held { tells ≡ true → SameHeld (held self.old) (held self.new) };

    /// Makes the name hold no bytes, and begins to write it.
    ///
    /// After an error no file is being written.
    fn create(&mut self, name: &str) -> Result<(), FileFault>
        ensures open { is_open self.new ≡ is_open self.old }
        ensures writing { is_writing self.new ≡ is_ok result }
        ensures counts { WriteCounts (counts self.old) (counts self.new) result }
        ensures created { tells ≡ true → OnOk result ((target self.new ≡ name.now) × HoldsThen (held self.old) (held self.new) name.now []) }
        ensures err { tells ≡ true → OnErr result (SameHeld (held self.old) (held self.new)) };

    /// Appends the front of the piece, and says how many bytes it has.
    fn write(&mut self, piece: &[u8]) -> Result<usize, FileFault>
        requires { is_writing self.old ≡ true }
        ensures open { is_open self.new ≡ is_open self.old }
        ensures writing { is_writing self.new ≡ true }
        ensures counts { WriteCounts (counts self.old) (counts self.new) result }
        ensures bound { IfOk result (λ n. n ≤ length piece.now) }
        ensures some { 0 < length piece.now → IfOk result (λ n. 0 < n) }
        ensures target { tells ≡ true → target self.new ≡ target self.old }
        ensures appended { tells ≡ true → IfOk result (λ n. Grows (held self.old) (held self.new) (target self.old) (take n piece.now)) }
        ensures err { tells ≡ true → OnErr result (SameHeld (held self.old) (held self.new)) };

    /// Ends writing, also where it answers a fault. The bytes stay.
    fn finish(&mut self) -> Result<(), FileFault>
        requires { is_writing self.old ≡ true }
        ensures open { is_open self.new ≡ is_open self.old }
        ensures writing { is_writing self.new ≡ false }
        ensures counts { WriteCounts (counts self.old) (counts self.new) result }
        ensures held { tells ≡ true → SameHeld (held self.old) (held self.new) };

    /// How often opening or reading failed.
    fn read_faults(&self) -> u64
        ensures { result ≡ (counts self.now).reads };

    /// How often a name was absent.
    fn absences(&self) -> u64
        ensures { result ≡ (counts self.now).absences };

    /// How often creating, writing or finishing failed.
    fn write_faults(&self) -> u64
        ensures { result ≡ (counts self.now).writes };
}

/// Where bytes are written one behind the other, as the standard output.
pub trait Out {
    /// Whether it tells what was written.
    ghost tells: { Bool };

    /// What was written, where it tells.
    ghost written: { Self → List ℕ };

    /// How often writing failed.
    ghost fault_count: { Self → ℕ };

    /// Appends the front of the piece, and says how many bytes it has.
    fn write(&mut self, piece: &[u8]) -> Result<usize, FileFault>
        ensures count { OutCount (fault_count self.old) (fault_count self.new) result }
        ensures bound { IfOk result (λ n. n ≤ length piece.now) }
        ensures some { 0 < length piece.now → IfOk result (λ n. 0 < n) }
        ensures appended { tells ≡ true → IfOk result (λ n. written self.new ≡ written self.old ++ take n piece.now) }
        ensures err { tells ≡ true → OnErr result (written self.new ≡ written self.old) };

    /// How often writing failed.
    fn faults(&self) -> u64
        ensures { result ≡ fault_count self.now };
}

impl From<AllocError> for FileFault {
    ghost use Rattle.ld_base.specs.declared.files.FileFault.TheVariants as file;

    ghost from_gives = { λ a e. e ≡ file.Memory a };

    fn from(e: AllocError) -> FileFault {
        FileFault::Memory(e)
    }
}

impl From<AllocError> for OpenFault {
    ghost use Rattle.ld_base.specs.declared.files.OpenFault.TheVariants as opening;

    ghost from_gives = { λ a e. e ≡ opening.Memory a };

    fn from(e: AllocError) -> OpenFault {
        OpenFault::Memory(e)
    }
}

impl From<FileFault> for OpenFault {
    ghost use Rattle.ld_base.specs.Widened.{widened};

    ghost from_gives = { λ a e. e ≡ widened a };

    fn from(e: FileFault) -> OpenFault {
        match e {
            FileFault::Failed => OpenFault::Failed,
            FileFault::Memory(e) => OpenFault::Memory(e),
        }
    }
}
