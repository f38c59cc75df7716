//! Cases of a project's names.

use crate::reading::refusal;
use ladder_tree::names::{NameList, Names, names_in_order};
use ld_text::read::read_project;
use std::alloc::{AllocError, Global};

/// The names of a text's project by their kinds, in order of first appearance, and how many memories it has.
pub fn listed(alloc: Global, text: &[u8]) -> Result<String, AllocError> {
    let project = match read_project(alloc, text) {
        Ok(project) => project,
        Err(e) => return refusal(alloc, e),
    };
    let names = names_in_order(alloc, &project)?;
    kinds(alloc, &names)
}

fn kinds(alloc: Global, names: &Names) -> Result<String, AllocError> {
    let mut shown = String::new(alloc);
    let lists = [
        ("inputs", &names.inputs),
        ("outputs", &names.outputs),
        ("relays", &names.relays),
        ("variables", &names.variables),
        ("analog", &names.analog),
        ("persistent", &names.persistent),
    ];
    for (kind, list) in lists {
        if !list.is_empty() {
            shown.push_str(kind)?;
            push_names(&mut shown, list)?;
            shown.push_str("; ")?;
        }
    }
    write!(shown, "memories {}", names.memories)?;
    Ok(shown)
}

fn push_names(shown: &mut String, names: &NameList) -> Result<(), AllocError> {
    for name in names.as_slice() {
        shown.push(' ')?;
        for byte in name.as_slice() {
            shown.push(char::from(*byte))?;
        }
    }
    Ok(())
}
