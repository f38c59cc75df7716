//! Cases of whole runs.

use crate::held::Held;
use case_script::push_lines;
use ld_base::mem_files::MemFiles;
use ld_base::mem_out::MemOut;
use ldmicro_top::run::run;
use std::alloc::{AllocError, Global};
use std::rc::RcStr;

/// Which calls fail, from 1: of the files, and of the output. 0 is no call.
#[derive(Clone, Copy)]
pub struct Failing {
    pub file_call: u64,
    pub out_call: u64,
}

/// No call fails.
pub const NONE: Failing = Failing {
    file_call: 0,
    out_call: 0,
};

/// What is left of a run.
#[derive(Drop)]
pub struct Left {
    pub code: u8,
    pub printed: Vec<u8>,
    pub files: MemFiles,
}

/// Runs the words over the files.
pub fn run_words(
    alloc: Global,
    held: &Held,
    words: &str,
    failing: Failing,
) -> Result<Left, AllocError> {
    let mut files = held.files(alloc)?;
    let mut out = MemOut::new(alloc);
    files.fail_at(failing.file_call)?;
    out.fail_at(failing.out_call)?;
    let mut list = Vec::new(alloc);
    for word in words.split(' ') {
        list.push(RcStr::from_str(alloc, word)?)?;
    }
    let status = run(alloc, list.as_slice(), &mut files, &mut out);
    Ok(Left {
        code: status.code(),
        printed: Vec::from_slice(alloc, out.bytes())?,
        files,
    })
}

/// The exit status, and what was printed: in the same line where it is one line.
pub fn told(alloc: Global, left: &Left) -> Result<String, AllocError> {
    let printed = left.printed.as_slice();
    let mut text = format!(in alloc; "status {}", left.code)?;
    match printed.split_last() {
        None => {}
        Some((b'\n', line)) if !line.contains(&b'\n') => {
            text.push_str(": ")?;
            for byte in line {
                text.push(char::from(*byte))?;
            }
        }
        Some(_) => {
            text.push('\n')?;
            push_lines(&mut text, printed)?;
        }
    }
    Ok(text)
}

/// What the last of the words holds behind a run, beside what it held and what it holds behind a run without a fault.
pub fn destination(
    alloc: Global,
    held: &Held,
    words: &str,
    left: &Left,
) -> Result<&'static str, AllocError> {
    let name = words.split(' ').last().unwrap_or("");
    let whole = run_words(alloc, held, words, NONE)?;
    let Some(found) = left.files.get(name) else {
        return Ok("is absent");
    };
    let wanted = whole.files.get(name).unwrap_or(b"");
    Ok(if found == held.get(name) {
        "is as before"
    } else if found.is_empty() {
        "is empty"
    } else if found == wanted {
        "is whole"
    } else {
        "holds something else"
    })
}
