//! Files of which each has no end.

ghost use Rattle.std.specs.Prelude.{false, None, []};

use ld_base::files::{FileFault, Files, OpenFault};

/// How every file begins. Blank lines follow, without end.
const FIRST_LINE: &[u8; 11] = b"LDmicro0.1\n";

/// How many bytes a blank line has, with its line feed.
const BLANK_LINE: usize = 64;

/// Files that hold a project's first line and then blank lines without end, whatever their names. Nothing that is written is kept.
#[derive(Debug, Drop)]
pub struct Endless {
    is_open: bool,
    is_writing: bool,
    given: u64,
}

impl Endless {
    pub fn new() -> Endless {
        Endless {
            is_open: false,
            is_writing: false,
            given: 0,
        }
    }

    /// How many bytes were given so far.
    pub fn given(&self) -> u64 {
        self.given
    }
}

/// The byte of every file at a place.
fn byte_at(place: u64) -> u8 {
    let place = place as usize;
    if place < FIRST_LINE.len() {
        FIRST_LINE[place]
    } else if (place - FIRST_LINE.len()) % BLANK_LINE == BLANK_LINE - 1 {
        b'\n'
    } else {
        b' '
    }
}

impl Files for Endless {
    ghost tells = { false };

    ghost held = { λ _ _. None };

    ghost left = { λ _. [] };

    ghost target = { λ _. [] };

    ghost is_open = { λ files. files.is_open };

    ghost is_writing = { λ files. files.is_writing };

    ghost counts = { λ _. record { reads = 0; absences = 0; writes = 0 } };

    fn open(&mut self, _name: &str) -> Result<(), OpenFault> {
        self.is_open = true;
        Ok(())
    }

    fn read(&mut self, buf: &mut [u8]) -> Result<usize, FileFault> {
        let start = self.given;
        for place in 0..buf.len() {
            buf[place] = byte_at(start.saturating_add(place as u64));
        }
        self.given = start.saturating_add(buf.len() as u64);
        Ok(buf.len())
    }

    fn create(&mut self, _name: &str) -> Result<(), FileFault> {
        self.is_writing = true;
        Ok(())
    }

    fn write(&mut self, piece: &[u8]) -> Result<usize, FileFault> {
        Ok(piece.len())
    }

    fn finish(&mut self) -> Result<(), FileFault> {
        self.is_writing = false;
        Ok(())
    }

    fn read_faults(&self) -> u64 {
        0
    }

    fn absences(&self) -> u64 {
        0
    }

    fn write_faults(&self) -> u64 {
        0
    }
}
