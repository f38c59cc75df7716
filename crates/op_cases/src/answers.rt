//! The answer to each command.

use crate::formed::{formed, nests, table, wrapped};
use crate::places::{cell, fit, flag};
use crate::program_texts::{sizes, verdict, written};
use crate::runs::{cycles, lines};
use crate::traces::{saved, steps};
use case_script::{Answers, Command};
use chip_tables::PwmSetting;
use ladder_trace::duty::DutyShown;
use std::alloc::{AllocError, Global};

/// What stands around the texts that follow, the text of the program that runs, and how it runs.
#[derive(Drop)]
pub struct Programs {
    front: Vec<u8>,
    back: Vec<u8>,
    program: Vec<u8>,
    /// Which write of a run fails, from 1; 0 is none.
    failing: u64,
    duty: DutyShown,
}

impl Programs {
    pub fn new(alloc: Global) -> Programs {
        Programs {
            front: Vec::new(alloc),
            back: Vec::new(alloc),
            program: Vec::new(alloc),
            failing: 0,
            duty: DutyShown::Hidden,
        }
    }

    /// The text between its front and its back.
    fn whole(&self, alloc: Global, text: &[u8]) -> Result<Vec<u8>, AllocError> {
        let mut all = Vec::from_slice(alloc, self.front.as_slice())?;
        all.extend_from_slice(text)?;
        all.extend_from_slice(self.back.as_slice())?;
        Ok(all)
    }

    /// What an interpretable text is asked for.
    fn asked_of_text(&self, alloc: Global, command: &Command<'_>) -> Result<String, AllocError> {
        let text = self.whole(alloc, command.text.as_slice())?;
        match command.word {
            "read" => verdict(alloc, text.as_slice()),
            "sizes" => sizes(alloc, text.as_slice()),
            _ => written(alloc, text.as_slice()),
        }
    }

    /// What a trace is asked for.
    fn asked_of_trace(&self, alloc: Global, command: &Command<'_>) -> Result<String, AllocError> {
        let program = self.program.as_slice();
        let trace = command.text.as_slice();
        match command.word {
            "steps" => steps(alloc, program, trace),
            "eeprom" => saved(alloc, program, trace),
            "cycles" => cycles(alloc, program, trace),
            _ => lines(alloc, program, trace, self.duty, self.failing),
        }
    }

    /// What numbers are asked for.
    fn asked_of_numbers(&self, alloc: Global, command: &Command<'_>) -> Result<String, AllocError> {
        let argument = command.argument;
        match command.word {
            "formed" => formed(alloc, self.front.as_slice(), argument),
            "nests" => nests(alloc, argument),
            "table" => table(alloc, argument),
            "wrap" => wrapped(alloc, argument),
            "fit" => fit(alloc, argument),
            "cell" => cell(alloc, argument),
            "bit" => flag(alloc, argument),
            _ => String::from_str(alloc, "no such command"),
        }
    }
}

/// Keeps a text in the stead of another.
fn keep(kept: &mut Vec<u8>, text: &[u8]) -> Result<(), AllocError> {
    kept.clear();
    kept.extend_from_slice(text)?;
    Ok(())
}

/// How a duty is shown by a word: not, as it is, or on a chip whose duty register has a value at 100 percent.
fn duty_of(word: &str) -> DutyShown {
    if word == "shown" {
        return DutyShown::Exact;
    }
    match word.parse::<u16>() {
        Ok(top) => DutyShown::Least(PwmSetting { control: 0, top }),
        Err(_) => DutyShown::Hidden,
    }
}

impl Answers for Programs {
    fn answer(&mut self, alloc: Global, command: &Command<'_>) -> Result<String, AllocError> {
        let text = command.text.as_slice();
        let kept = match command.word {
            "front" => keep(&mut self.front, text),
            "back" => keep(&mut self.back, text),
            "program" => keep(&mut self.program, text),
            "failing" => {
                self.failing = command.argument.parse::<u64>().unwrap_or(0);
                Ok(())
            }
            "duty" => {
                self.duty = duty_of(command.argument);
                Ok(())
            }
            "read" | "sizes" | "write" => return self.asked_of_text(alloc, command),
            "steps" | "eeprom" | "cycles" | "lines" => return self.asked_of_trace(alloc, command),
            _ => return self.asked_of_numbers(alloc, command),
        };
        kept?;
        Ok(String::new(alloc))
    }
}
