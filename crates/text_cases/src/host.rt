//! Cases of the real files and the real output.

use ld_base::files::{FileFault, Files, OpenFault, Out};
use ld_base::host::{HostFiles, HostOut};
use ld_base::whole::{read_file, write_file, write_out};
use std::{fs, io};

/// A file that is made where the program runs, and taken away.
const NAME: &str = "made.tmp";

/// Writes, reads and misses a real file, and writes to the real output.
pub fn show(rt: &HostRuntime) -> io::Result<()> {
    println!(rt; "\n# Real files and the real output")?;
    let mut files = HostFiles::new(rt);
    let is_made = is_made(&mut files).is_ok();
    println!(rt; "made: {is_made}")?;
    if let Ok(bytes) = read_file(rt.alloc(), &mut files, NAME, 100) {
        let is_same = bytes.as_slice() == b"coil\n".as_slice();
        println!(rt; "read as made: {is_same}")?;
    }
    fs::remove_file(rt, NAME)?;
    let is_absent = matches!(files.open(NAME), Err(OpenFault::Absent));
    println!(rt; "absent: {is_absent}")?;
    let counts = (files.absences(), files.read_faults(), files.write_faults());
    println!(rt; "absences, reads and writes that failed: {counts:?}")?;
    let mut out = HostOut::new(rt);
    let is_written = write_out(&mut out, b"contact\n").is_ok();
    let faults = out.faults();
    println!(rt; "written: {is_written}, faults: {faults}")
}

fn is_made<F: Files>(files: &mut F) -> Result<(), FileFault> {
    files.create(NAME)?;
    write_file(files, b"coil\n")?;
    files.finish()
}
