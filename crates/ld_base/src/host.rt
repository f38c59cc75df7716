//! The files and the standard output of the system.
//!
//! No contract can say what the system keeps or shows, so these two tell nothing of content. What
//! they say of faults is proved, and that the bytes arrive is the system's promise.

ghost use Rattle.std.specs.Prelude.{◌≡◌, ◌≤◌, ◌<◌, length, IfOk, false, None, []};

use crate::files::{FileFault, Files, OpenFault, Out};
use std::io::{self, ErrorKind, Read, Write};
use std::{fs, rt};

/// The files of the system, under their paths. Nothing is kept back: each write is the system's.
#[derive(Drop)]
pub struct HostFiles<'a, R: rt::Files> {
    rt: &'a R,
    source: Option<R::File>,
    target: Option<R::File>,
    reads: u64,
    absences: u64,
    writes: u64,
}

impl<'a, R: rt::Files> HostFiles<'a, R> {
    ghost use Rattle.ld_base.specs.Host.{is_host_open, is_host_writing, host_counts};

    pub fn new(rt: &'a R) -> Self
        ensures closed { is_host_open result ≡ false }
        ensures idle { is_host_writing result ≡ false }
        ensures counts { host_counts result ≡ record { reads = 0; absences = 0; writes = 0 } }
    {
        HostFiles {
            rt,
            source: None,
            target: None,
            reads: 0,
            absences: 0,
            writes: 0,
        }
    }
}

impl<R: rt::Files> Files for HostFiles<'_, R> {
    ghost use Rattle.ld_base.specs.Host.{is_host_open, is_host_writing, host_counts};

    ghost tells = { false };

    ghost held = { λ _ _. None };

    ghost left = { λ _. [] };

    ghost target = { λ _. [] };

    ghost is_open = { is_host_open };

    ghost is_writing = { is_host_writing };

    ghost counts = { host_counts };

    fn open(&mut self, name: &str) -> Result<(), OpenFault> {
        self.source = None;
        match fs::open(self.rt, name) {
            Ok(file) => {
                self.source = Some(file);
                Ok(())
            }
            Err(e) => {
                if e.kind() == ErrorKind::NotFound {
                    self.absences = self.absences.saturating_add(1);
                    return Err(OpenFault::Absent);
                }
                self.reads = self.reads.saturating_add(1);
                Err(OpenFault::Failed)
            }
        }
    }

    fn read(&mut self, buf: &mut [u8]) -> Result<usize, FileFault> {
        let Some(file) = &mut self.source else {
            unreachable!()
        };
        match read_once(file, buf) {
            Ok(n) => Ok(n),
            Err(_) => {
                self.reads = self.reads.saturating_add(1);
                Err(FileFault::Failed)
            }
        }
    }

    fn create(&mut self, name: &str) -> Result<(), FileFault> {
        self.target = None;
        match fs::create(self.rt, name) {
            Ok(file) => {
                self.target = Some(file);
                Ok(())
            }
            Err(_) => {
                self.writes = self.writes.saturating_add(1);
                Err(FileFault::Failed)
            }
        }
    }

    fn write(&mut self, piece: &[u8]) -> Result<usize, FileFault> {
        let Some(file) = &mut self.target else {
            unreachable!()
        };
        match write_once(file, piece) {
            Ok(n) => Ok(n),
            Err(_) => {
                self.writes = self.writes.saturating_add(1);
                Err(FileFault::Failed)
            }
        }
    }

    fn finish(&mut self) -> Result<(), FileFault> {
        let Some(mut file) = self.target.take() else {
            unreachable!()
        };
        match file.flush() {
            Ok(()) => Ok(()),
            Err(_) => {
                self.writes = self.writes.saturating_add(1);
                Err(FileFault::Failed)
            }
        }
    }

    fn read_faults(&self) -> u64 {
        self.reads
    }

    fn absences(&self) -> u64 {
        self.absences
    }

    fn write_faults(&self) -> u64 {
        self.writes
    }
}

/// What prints, as an output. Nothing is kept back: each write is the system's.
#[derive(Drop)]
pub struct HostOut<'a, P: io::Print> {
    rt: &'a P,
    faults: u64,
}

impl<'a, P: io::Print> HostOut<'a, P> {
    ghost use Rattle.ld_base.specs.Host.{host_faults};

    pub fn new(rt: &'a P) -> Self
        ensures { host_faults result ≡ 0 }
    {
        HostOut { rt, faults: 0 }
    }
}

impl<P: io::Print> Out for HostOut<'_, P> {
    ghost use Rattle.ld_base.specs.Host.{host_faults};

    ghost tells = { false };

    ghost written = { λ _. [] };

    ghost fault_count = { host_faults };

    fn write(&mut self, piece: &[u8]) -> Result<usize, FileFault> {
        match write_once(&mut io::writer(self.rt), piece) {
            Ok(n) => Ok(n),
            Err(_) => {
                self.faults = self.faults.saturating_add(1);
                Err(FileFault::Failed)
            }
        }
    }

    fn faults(&self) -> u64 {
        self.faults
    }
}

/// Reads once, and anew where a signal came between.
fn read_once<T: Read>(from: &mut T, buf: &mut [u8]) -> io::Result<usize>
    ensures { IfOk result (λ n. n ≤ length buf.new) }
{
    for _ in 0..u64::MAX {
        match from.read(buf) {
            Ok(n) => return Ok(n),
            Err(e) => {
                if e.kind() != ErrorKind::Interrupted {
                    return Err(e);
                }
            }
        }
    }
    Err(io::Error::from(ErrorKind::Interrupted))
}

/// Writes once, and anew where a signal came between. To write nothing of a piece that is not
/// empty is an error.
fn write_once<T: Write>(to: &mut T, piece: &[u8]) -> io::Result<usize>
    ensures bound { IfOk result (λ n. n ≤ length piece.now) }
    ensures some { 0 < length piece.now → IfOk result (λ n. 0 < n) }
{
    for _ in 0..u64::MAX {
        match to.write(piece) {
            Ok(n) => {
                if n == 0 && !piece.is_empty() {
                    return Err(io::Error::from(ErrorKind::WriteZero));
                }
                return Ok(n);
            }
            Err(e) => {
                if e.kind() != ErrorKind::Interrupted {
                    return Err(e);
                }
            }
        }
    }
    Err(io::Error::from(ErrorKind::Interrupted))
}
