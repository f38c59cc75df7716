//! Cases of what a project needs on a chip, and of its rules.

use chip_tables::Target;
use ladder_rules::{Legal, boot_cap, check, cycle_cap, word_need};
use ladder_tree::fault::ProjectFault;
use ladder_tree::names::names_in_order;
use ld_text::fault::TextError;
use ld_text::read::read_project;
use ldmicro_top::status::{Status, status_line};
use std::alloc::{AllocError, Global};

/// What the project of a text needs on a target: words of code, cycles of a cycle, and cycles of the start.
pub fn needs(alloc: Global, text: &[u8], target: &str) -> Result<String, AllocError> {
    match aimed(alloc, text, target_of(target)) {
        Ok(Ok(legal)) => sums(alloc, &legal),
        Ok(Err(fault)) | Err(TextError::Refused(fault)) => refusal(alloc, fault),
        Err(TextError::Memory(e)) => Err(e),
    }
}

/// The line of a refusal, without its end.
fn refusal(alloc: Global, fault: ProjectFault) -> Result<String, AllocError> {
    let line = status_line(alloc, Status::Refused(fault))?;
    String::from_str(alloc, line.as_str().trim_end())
}

/// The project of a text for another target, where it keeps the rules.
fn aimed(
    alloc: Global,
    text: &[u8],
    target: Target,
) -> Result<Result<Legal, ProjectFault>, TextError> {
    let mut project = read_project(alloc, text)?;
    let names = names_in_order(alloc, &project)?;
    project.target = target;
    Ok(check(project, names))
}

fn target_of(name: &str) -> Target {
    match name {
        "PIC16F628" => Target::F628,
        "PIC16F877" => Target::F877,
        "ATmega16" => Target::Mega16,
        "C" => Target::AnsiC,
        _ => Target::Interp,
    }
}

fn sums(alloc: Global, legal: &Legal) -> Result<String, AllocError> {
    let words = word_need(legal);
    let cycle = cycle_cap(legal);
    let boot = boot_cap(legal);
    format!(in alloc; "{words} words, {cycle} cycles, {boot} at boot")
}
