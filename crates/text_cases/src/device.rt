//! Cases of files and of the output of which one call fails.

use case_script::push_lines;
use ld_base::files::{FileFault, Files, OpenFault, Out};
use ld_base::mem_files::MemFiles;
use ld_base::mem_out::MemOut;
use ld_base::whole::{read_file, write_file, write_out};
use std::alloc::{AllocError, Global};

/// Opens a file, reads of it, creates another, writes to it and finishes it, where the call of this number fails.
pub fn calls(alloc: Global, argument: &str) -> Result<String, AllocError> {
    let mut files = MemFiles::new(alloc);
    files.put("source", b"contact")?;
    files.fail_at(argument.parse::<u64>().unwrap_or(0))?;
    let mut buf = [0u8; 4];
    if files.open("source").is_ok() {
        let _ = files.read(&mut buf);
    }
    if files.create("dest").is_ok() {
        let _ = files.write(b"coil");
        let _ = files.finish();
    }
    let reads = files.read_faults();
    let writes = files.write_faults();
    format!(in alloc; "{reads} reads and {writes} writes failed")
}

/// Writes a file whole, reads it up to a limit, and opens an absent one.
pub fn file(alloc: Global, argument: &str) -> Result<String, AllocError> {
    let limit = usize::from(argument.parse::<u16>().unwrap_or(0));
    let mut files = MemFiles::new(alloc);
    if files.create("dest").is_err()
        || write_file(&mut files, b"contact").is_err()
        || files.finish().is_err()
    {
        return String::from_str(alloc, "a call failed");
    }
    let mut text = String::new(alloc);
    push_lines(&mut text, files.get("dest").unwrap_or(b""))?;
    if let Ok(front) = read_file(alloc, &mut files, "dest", limit) {
        push_lines(&mut text, front.as_slice())?;
    }
    if matches!(files.open("other"), Err(OpenFault::Absent)) {
        write!(text, "{} absent\n", files.absences())?;
    }
    Ok(text)
}

/// Writes three pieces to an output, where the call of this number fails.
pub fn output(alloc: Global, argument: &str) -> Result<String, AllocError> {
    let mut out = MemOut::new(alloc);
    out.fail_at(argument.parse::<u64>().unwrap_or(0))?;
    let mut text = String::new(alloc);
    for piece in [b"relay ".as_slice(), b"timer ", b"coil"] {
        match write_out(&mut out, piece) {
            Ok(()) => text.push_str("written\n")?,
            Err(FileFault::Failed) => text.push_str("failed\n")?,
            Err(FileFault::Memory(e)) => return Err(e),
        }
    }
    push_lines(&mut text, out.bytes())?;
    write!(text, "{} faults\n", out.faults())?;
    Ok(text)
}
