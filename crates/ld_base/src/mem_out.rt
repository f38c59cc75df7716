//! An output in memory, which fails at the calls that it is told to.

ghost use Rattle.std.specs.Prelude.{◌≡◌, ◌++◌, ◌∷◌, [], ◌<◌, length, take, Err, IsErrOf, ◌↔◌, OnOk, OnErr, IfOk, if◌then◌else◌, true};
ghost use Rattle.ld_base.specs.Counts.{one_more, OutCount};

use crate::files::{FileFault, Out};
use std::alloc::{AllocError, Global};

/// An output in memory. The calls of `write` are numbered from 1 on, and those whose numbers
/// `fail_at` was given answer `Failed`.
#[derive(Debug, Drop)]
pub struct MemOut {
    bytes: Vec<u8>,
    calls: u64,
    failing: Vec<u64>,
    faults: u64,
}

impl MemOut {
    ghost use Rattle.ld_base.specs.MemOut.{out_bytes, out_faults, out_calls, out_failing, out_fails_next};

    pub fn new(alloc: Global) -> MemOut
        ensures bytes { out_bytes result ≡ [] }
        ensures faults { out_faults result ≡ 0 }
        ensures calls { out_calls result ≡ 0 }
        ensures failing { out_failing result ≡ [] }
    {
        MemOut {
            bytes: Vec::new(alloc),
            calls: 0,
            failing: Vec::new(alloc),
            faults: 0,
        }
    }

    /// Makes the write of that number fail. The first write has the number 1.
    pub fn fail_at(&mut self, call: u64) -> Result<(), AllocError>
        ensures ok { OnOk result (out_failing self.new ≡ out_failing self.old ++ call ∷ []) }
        ensures err { OnErr result (out_failing self.new ≡ out_failing self.old) }
        ensures bytes { out_bytes self.new ≡ out_bytes self.old }
        ensures faults { out_faults self.new ≡ out_faults self.old }
        ensures calls { out_calls self.new ≡ out_calls self.old }
    {
        self.failing.push(call)?;
        Ok(())
    }

    /// What was written, from the first byte on.
    pub fn bytes(&self) -> &[u8]
        ensures { result.now ≡ out_bytes self.now }
    {
        &self.bytes
    }

    /// Counts a call, and says whether it is to fail.
    fn fails(&mut self) -> bool
        ensures counted { self.new ≡ record self.old { calls = one_more self.old.calls } }
        ensures set { result ≡ out_fails_next self.old }
    {
        self.calls = self.calls.saturating_add(1);
        self.failing.contains(&self.calls)
    }
}

impl Out for MemOut {
    ghost use Rattle.ld_base.specs.MemOut.{out_bytes, out_faults, out_calls, out_failing, out_fails_next};

    ghost tells = { true };

    ghost written = { out_bytes };

    ghost fault_count = { out_faults };

    fn write(&mut self, piece: &[u8]) -> Result<usize, FileFault>
        ensures count { OutCount (out_faults self.old) (out_faults self.new) result }
        ensures appended { IfOk result (λ n. out_bytes self.new ≡ out_bytes self.old ++ take n piece.now) }
        ensures err { OnErr result (out_bytes self.new ≡ out_bytes self.old) }

        ensures calls { out_calls self.new ≡ one_more (out_calls self.old) }
        ensures failing { out_failing self.new ≡ out_failing self.old }
        ensures whole { IfOk result (λ n. n ≡ length piece.now) }
        ensures fails { IsErrOf result FileFault.Failed ↔ (out_fails_next self.old ≡ true) }
        ensures counted { out_faults self.new ≡ (if out_fails_next self.old then one_more (out_faults self.old) else out_faults self.old) }
    {
        if self.fails() {
            self.faults = self.faults.saturating_add(1);
            return Err(FileFault::Failed);
        }
        self.bytes.extend_from_slice(piece)?;
        Ok(piece.len())
    }

    fn faults(&self) -> u64 {
        self.faults
    }
}
