//! The answer to each command.

use crate::command_runs::{Failing, NONE, destination, run_words, told};
use crate::held::Held;
use crate::needs::needs;
use case_script::{Answers, Command, push_lines};
use std::alloc::{AllocError, Global};

/// The files of the runs, and what stands in front of the rungs that follow.
#[derive(Drop)]
pub struct Runs {
    held: Held,
    front: Vec<u8>,
}

impl Runs {
    pub fn new(alloc: Global) -> Runs {
        Runs {
            held: Held::new(alloc),
            front: Vec::new(alloc),
        }
    }

    /// The file `a` holds the text behind its front.
    fn put_project(&mut self, alloc: Global, text: &[u8]) -> Result<(), AllocError> {
        let mut all = Vec::from_slice(alloc, self.front.as_slice())?;
        all.extend_from_slice(text)?;
        self.held.put(alloc, "a", all.as_slice())
    }

    /// Compiles the text from `a` to `b`, which holds something else before.
    fn compiled(&mut self, alloc: Global, text: &[u8]) -> Result<String, AllocError> {
        self.put_project(alloc, text)?;
        self.held.put(alloc, "b", b"old")?;
        self.failing(alloc, "0 0 /c a b")
    }

    /// What the cycles of `a` over a trace show by `/s`, and whether `/r` shows the same of what `/c` makes of it.
    fn shown(&mut self, alloc: Global, trace: &[u8]) -> Result<String, AllocError> {
        self.held.put(alloc, "t", trace)?;
        let simulated = run_words(alloc, &self.held, "/s a t", NONE)?;
        let compiled = run_words(alloc, &self.held, "/c a b", NONE)?;
        self.held
            .put(alloc, "b", compiled.files.get("b").unwrap_or(b""))?;
        let run = run_words(alloc, &self.held, "/r a b t", NONE)?;
        let mut text = String::new(alloc);
        push_lines(&mut text, simulated.printed.as_slice())?;
        if run.code == simulated.code && run.printed == simulated.printed {
            text.push_str("and the same of what it compiles to\n")?;
        } else {
            text.push_str("but of what it compiles to\n")?;
            push_lines(&mut text, run.printed.as_slice())?;
        }
        Ok(text)
    }

    /// Runs words behind the numbers of the calls that fail.
    fn failing(&self, alloc: Global, argument: &str) -> Result<String, AllocError> {
        let (file_call, rest) = argument.split_once(' ').unwrap_or(("", argument));
        let (out_call, words) = rest.split_once(' ').unwrap_or(("", rest));
        let failing = Failing {
            file_call: file_call.parse::<u64>().unwrap_or(0),
            out_call: out_call.parse::<u64>().unwrap_or(0),
        };
        let found = run_words(alloc, &self.held, words, failing)?;
        let dest = destination(alloc, &self.held, words, &found)?;
        let name = words.split(' ').last().unwrap_or("");
        let told = told(alloc, &found)?;
        if told.contains('\n') {
            format!(in alloc; "{told}{name} {dest}\n")
        } else {
            format!(in alloc; "{told}; {name} {dest}")
        }
    }

    /// Runs the words, and keeps what the files hold then.
    fn run(&mut self, alloc: Global, words: &str) -> Result<String, AllocError> {
        let found = run_words(alloc, &self.held, words, NONE)?;
        for name in words.split(' ') {
            if let Some(bytes) = found.files.get(name) {
                self.held.put(alloc, name, bytes)?;
            }
        }
        told(alloc, &found)
    }
}

/// The lines of a file.
fn lines(alloc: Global, bytes: &[u8]) -> Result<String, AllocError> {
    let mut text = String::new(alloc);
    push_lines(&mut text, bytes)?;
    Ok(text)
}

impl Answers for Runs {
    fn answer(&mut self, alloc: Global, command: &Command<'_>) -> Result<String, AllocError> {
        let text = command.text.as_slice();
        let argument = command.argument;
        match command.word {
            "front" => self.front = Vec::from_slice(alloc, text)?,
            "rungs" => self.put_project(alloc, text)?,
            "file" => {
                let bytes = text.get(argument.len()..).unwrap_or(b"");
                self.held.put(alloc, argument, bytes)?;
            }
            "compile" => return self.compiled(alloc, text),
            "show" => return self.shown(alloc, text),
            "fail" => return self.failing(alloc, argument),
            "run" => return self.run(alloc, argument),
            "text" => return lines(alloc, self.held.get(argument)),
            "needs" => return needs(alloc, self.held.get("a"), argument),
            _ => return String::from_str(alloc, "no such command"),
        }
        Ok(String::new(alloc))
    }
}
