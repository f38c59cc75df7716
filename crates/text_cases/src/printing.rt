//! Cases of projects that are printed and read again.

use crate::reading::refusal;
use case_script::push_lines;
use chip_tables::Target;
use ladder_tree::element::{Leaf, LeafKind, Operand};
use ladder_tree::project::{Node, Nodes, PinList, Project, Rung, Rungs};
use ld_base::list::List;
use ld_print::write::write_project;
use ld_text::read::read_project;
use std::alloc::{AllocError, Global};

/// The project of a text, printed for a target. Where that is read, the same project has to come back.
pub fn printed(alloc: Global, text: &[u8], target: Target) -> Result<String, AllocError> {
    let mut project = match read_project(alloc, text) {
        Ok(project) => project,
        Err(e) => return refusal(alloc, e),
    };
    project.target = target;
    let printed = write_project(alloc, &project)?;
    if target == Target::Interp && !is_read_again(alloc, &project, printed.as_slice())? {
        return String::from_str(alloc, "another project is read from what was printed");
    }
    let mut shown = String::new(alloc);
    push_lines(&mut shown, printed.as_slice())?;
    Ok(shown)
}

/// Whether what was printed of a project is read as an equal one, which prints the same.
fn is_read_again(alloc: Global, project: &Project, printed: &[u8]) -> Result<bool, AllocError> {
    let Ok(again) = read_project(alloc, printed) else {
        return Ok(false);
    };
    let equal = without_lines(alloc, project)? == without_lines(alloc, &again)?;
    let same = write_project(alloc, &again)?.as_slice() == printed;
    Ok(equal && same)
}

/// All that a project holds, but for the numbers of lines.
fn without_lines(alloc: Global, project: &Project) -> Result<Vec<u8>, AllocError> {
    let text = format!(in alloc; "{project:?}")?;
    let mut kept = Vec::new(alloc);
    for byte in text.bytes() {
        if !byte.is_ascii_digit() || !kept.as_slice().ends_with(b"line: ") {
            kept.push(byte)?;
        }
    }
    Ok(kept)
}

/// A project with the elements that no text is read to have yet, printed.
pub fn print_unread(alloc: Global) -> Result<String, AllocError> {
    let linear = LeafKind::Linear {
        dest: List::from_vec(b"a".to_vec(alloc)?),
        index: Operand::Num(25),
        points: List::from_vec([0, 0, 100, 50].to_vec(alloc)?),
    };
    let formatted = LeafKind::Formatted {
        name: List::from_vec(b"n".to_vec(alloc)?),
        text: List::from_vec(b"P=\\3\n".to_vec(alloc)?),
    };
    let mut nodes = Nodes::new(alloc);
    for kind in [linear, formatted] {
        nodes.push(Node::Leaf(Leaf { line: 1, kind }))?;
    }
    let mut rungs = Rungs::new(alloc);
    rungs.push(Rung { nodes })?;
    let project = Project {
        target: Target::AnsiC,
        cycle: 10_000,
        crystal: 4_000_000,
        baud: 2400,
        pins: PinList::new(alloc),
        rungs,
    };
    let mut shown = String::new(alloc);
    push_lines(&mut shown, write_project(alloc, &project)?.as_slice())?;
    Ok(shown)
}
