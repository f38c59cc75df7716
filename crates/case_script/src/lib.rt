//! Scripts of cases. A program reads one from its standard input and prints it with an answer behind each command, and the gate
//! compares what it printed with what is wanted.
//!
//! A line of a script is a comment, as `# What is refused`; a command, which is a word and behind a blank its argument; a line
//! `| so` of the command's text; or empty. The text is the argument, and behind it each of the command's lines with a line feed.
//! In both, `\n`, `\r`, `\t`, `\s` (a space) and `\0` stand for bytes, `\{3 ab}` for `ababab`, and within that `\#` for the
//! number of the repetition, from 1.
#![tactic(auto)]

mod command;
mod shown;
mod written;

pub use command::{Command, commands};
pub use shown::{push_lines, words};
use std::alloc::{AllocError, Global};
use std::io;

/// What answers the commands of a script.
pub trait Answers {
    /// The answer to a command, in one line without its end, or in several lines.
    fn answer(&mut self, alloc: Global, command: &Command<'_>) -> Result<String, AllocError>;
}

/// Prints the script, with the answers in their places.
pub fn play<C: Answers>(
    rt: &(impl Print + AllocGlobal),
    script: &str,
    cases: &mut C,
) -> io::Result<()> {
    for command in commands(rt.alloc(), script)?.as_slice() {
        let line = command.line;
        if command.word == "#" {
            println!(rt; "\n{line}")?;
            continue;
        }
        let answer = cases.answer(rt.alloc(), command)?;
        if answer.is_empty() {
            println!(rt; "{line}")?;
        } else if answer.contains('\n') {
            print!(rt; "{line}\n{answer}")?;
        } else {
            println!(rt; "{line} -> {answer}")?;
        }
    }
    Ok(())
}
