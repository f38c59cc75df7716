//! The answer to each command.

use crate::lowered::{Refusal, lowered};
use crate::run::cycles;
use case_script::{Answers, Command};
use chip_tables::Target;
use std::alloc::{AllocError, Global};

/// The chip, what stands in front of the rungs that follow, and the text of the ladder that runs.
#[derive(Drop)]
pub struct Ladders {
    target: Target,
    front: Vec<u8>,
    ladder: Vec<u8>,
}

impl Ladders {
    pub fn new(alloc: Global) -> Ladders {
        Ladders {
            target: Target::Mega16,
            front: Vec::new(alloc),
            ladder: Vec::new(alloc),
        }
    }

    /// The ladder is that of the rungs.
    fn put_rungs(&mut self, text: &[u8]) -> Result<(), AllocError> {
        self.ladder.clear();
        self.ladder.extend_from_slice(self.front.as_slice())?;
        self.ladder.extend_from_slice(text)
    }

    /// What the cycles of the ladder's code show over a trace.
    fn shown(&self, alloc: Global, trace: &[u8]) -> Result<String, AllocError> {
        match lowered(alloc, self.ladder.as_slice(), self.target) {
            Ok(ladder) => cycles(alloc, &ladder, trace),
            Err(refusal) => refused(alloc, refusal),
        }
    }

    /// How many primitives the ladder's code has, and how many a cycle begins at most.
    fn counted(&self, alloc: Global) -> Result<String, AllocError> {
        let code = match lowered(alloc, self.ladder.as_slice(), self.target) {
            Ok(ladder) => ladder.code,
            Err(refusal) => return refused(alloc, refusal),
        };
        let mut turns = 0u64;
        for primitive in code.as_slice() {
            turns = turns.saturating_add(u64::from(primitive.turns));
        }
        format!(in alloc; "{} primitives, {turns} in a cycle", code.len())
    }
}

/// Why a ladder has no primitives.
fn refused(alloc: Global, refusal: Refusal) -> Result<String, AllocError> {
    match refusal {
        Refusal::Project(fault) => format!(in alloc; "refused {fault:?}"),
        Refusal::Room(fault) => format!(in alloc; "refused {fault:?}"),
        Refusal::NoChip => String::from_str(alloc, "no chip"),
        Refusal::NotBuilt => String::from_str(alloc, "not built"),
        Refusal::Memory(e) => Err(e),
    }
}

fn target_of(name: &str) -> Target {
    match name {
        "PIC16F628" => Target::F628,
        "PIC16F877" => Target::F877,
        "ATmega16" => Target::Mega16,
        "C" => Target::AnsiC,
        _ => Target::Interp,
    }
}

impl Answers for Ladders {
    fn answer(&mut self, alloc: Global, command: &Command<'_>) -> Result<String, AllocError> {
        let text = command.text.as_slice();
        match command.word {
            "target" => self.target = target_of(command.argument),
            "front" => self.front = Vec::from_slice(alloc, text)?,
            "rungs" => self.put_rungs(text)?,
            "cycles" => return self.shown(alloc, text),
            "count" => return self.counted(alloc),
            _ => return String::from_str(alloc, "no such command"),
        }
        Ok(String::new(alloc))
    }
}
