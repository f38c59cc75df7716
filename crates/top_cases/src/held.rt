//! The files of the runs.

use ld_base::mem_files::MemFiles;
use std::alloc::{AllocError, Global};

#[derive(Drop)]
struct Entry {
    name: String,
    bytes: Vec<u8>,
}

/// The files with which runs begin.
#[derive(Drop)]
pub struct Held {
    entries: Vec<Entry>,
}

impl Held {
    pub fn new(alloc: Global) -> Held {
        Held {
            entries: Vec::new(alloc),
        }
    }

    /// A file holds the bytes from now on.
    pub fn put(&mut self, alloc: Global, name: &str, bytes: &[u8]) -> Result<(), AllocError> {
        let bytes = Vec::from_slice(alloc, bytes)?;
        for entry in &mut self.entries {
            if entry.name.as_str() == name {
                entry.bytes = bytes;
                return Ok(());
            }
        }
        let name = String::from_str(alloc, name)?;
        self.entries.push(Entry { name, bytes })?;
        Ok(())
    }

    /// What a file holds; nothing where there is none.
    pub fn get(&self, name: &str) -> &[u8] {
        for entry in self.entries.as_slice() {
            if entry.name.as_str() == name {
                return entry.bytes.as_slice();
            }
        }
        b""
    }

    /// The same files, in memory.
    pub fn files(&self, alloc: Global) -> Result<MemFiles, AllocError> {
        let mut files = MemFiles::new(alloc);
        for entry in self.entries.as_slice() {
            files.put(entry.name.as_str(), entry.bytes.as_slice())?;
        }
        Ok(files)
    }
}
