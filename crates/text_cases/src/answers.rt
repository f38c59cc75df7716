//! The answer to each command.

use crate::device::{calls, file, output};
use crate::lines::{blank_pieces, lines};
use crate::names::listed;
use crate::printing::{print_unread, printed};
use crate::reading::verdict;
use case_script::{Answers, Command};
use chip_tables::Target;
use std::alloc::{AllocError, Global};

/// What stands around the texts that follow, and the target for which projects are printed.
#[derive(Drop)]
pub struct Texts {
    front: Vec<u8>,
    back: Vec<u8>,
    target: Target,
}

impl Texts {
    pub fn new(alloc: Global) -> Texts {
        Texts {
            front: Vec::new(alloc),
            back: Vec::new(alloc),
            target: Target::Interp,
        }
    }

    /// The text between its front and its back.
    fn whole(&self, alloc: Global, text: &[u8]) -> Result<Vec<u8>, AllocError> {
        let mut all = Vec::from_slice(alloc, self.front.as_slice())?;
        all.extend_from_slice(text)?;
        all.extend_from_slice(self.back.as_slice())?;
        Ok(all)
    }

    /// What a text is asked for.
    fn asked(&self, alloc: Global, word: &str, text: &[u8]) -> Result<String, AllocError> {
        let text = self.whole(alloc, text)?;
        match word {
            "read" => verdict(alloc, text.as_slice()),
            "print" => printed(alloc, text.as_slice(), self.target),
            "names" => listed(alloc, text.as_slice()),
            _ => String::from_str(alloc, "no such command"),
        }
    }
}

impl Answers for Texts {
    fn answer(&mut self, alloc: Global, command: &Command<'_>) -> Result<String, AllocError> {
        let text = command.text.as_slice();
        match command.word {
            "front" => self.front = Vec::from_slice(alloc, text)?,
            "back" => self.back = Vec::from_slice(alloc, text)?,
            "target" => self.target = target_of(command.argument),
            "lines" => return lines(alloc, text),
            "pieces" => return blank_pieces(alloc, text),
            "unread" => return print_unread(alloc),
            "calls" => return calls(alloc, command.argument),
            "whole" => return file(alloc, command.argument),
            "output" => return output(alloc, command.argument),
            word => return self.asked(alloc, word, text),
        }
        Ok(String::new(alloc))
    }
}

fn target_of(name: &str) -> Target {
    match name {
        "PIC16F628" => Target::F628,
        "PIC16F877" => Target::F877,
        "ATmega16" => Target::Mega16,
        "C" => Target::AnsiC,
        _ => Target::Interp,
    }
}
