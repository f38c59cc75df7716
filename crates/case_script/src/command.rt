//! The commands of a script.

use crate::written::push_written;
use std::alloc::{AllocError, Global};

/// A command, with its text.
#[derive(Drop)]
pub struct Command<'a> {
    /// The line that it stands on.
    pub line: &'a str,
    /// What stands in front of the line's first blank.
    pub word: &'a str,
    /// What stands behind that.
    pub argument: &'a str,
    /// The bytes of the argument and of the further lines.
    pub text: Vec<u8>,
}

/// The commands of a script, its comments among them.
pub fn commands(alloc: Global, script: &str) -> Result<Vec<Command<'_>>, AllocError> {
    let mut all: Vec<Command<'_>> = Vec::new(alloc);
    for line in script.lines() {
        if line.is_empty() {
            continue;
        }
        match (line.strip_prefix('|'), all.last_mut()) {
            (Some(more), Some(last)) => push_line(&mut last.text, more)?,
            _ => all.push(begin(alloc, line)?)?,
        }
    }
    Ok(all)
}

fn push_line(text: &mut Vec<u8>, more: &str) -> Result<(), AllocError> {
    push_written(text, more.strip_prefix(' ').unwrap_or(more))?;
    text.push(b'\n')?;
    Ok(())
}

fn begin(alloc: Global, line: &str) -> Result<Command<'_>, AllocError> {
    let (word, argument) = line.split_once(' ').unwrap_or((line, ""));
    let mut text = Vec::new(alloc);
    push_written(&mut text, argument)?;
    Ok(Command {
        line,
        word,
        argument,
        text,
    })
}
