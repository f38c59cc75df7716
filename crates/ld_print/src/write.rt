//! Printing a project.

ghost use Rattle.std.specs.Prelude.{◌≡◌, ◌+◌, ◌∷◌, [], ◌++◌, OnOk, IfOk, min, codes, replicate};
ghost use Rattle.texts.specs.Lines.{joined};
ghost use Rattle.ld_print.specs.Printed.{indented, pin_line, pin_lines, node_lines, nodes_lines, rung_lines, rungs_lines, head_lines, printed};

use crate::words::push_element;
use ladder_tree::project::{Node, PinLine, Project, Rung};
use ld_base::list::List;
use ld_line::target::target_text;
use std::alloc::{AllocError, Global};
use texts::Text;
use texts::limits::LINE_BYTES;

/// How many spaces each SERIES, PARALLEL and rung puts in front of the lines in it.
const STEP: usize = 4;

/// Appends spaces.
fn push_spaces(text: &mut Vec<u8>, count: usize) -> Result<(), AllocError>
    ensures { OnOk result (text.new.items ≡ text.old.items ++ replicate count 32) }
{
    for _ in 0..count {
        text.push(b' ')?;
    }
    Ok(())
}

/// Appends a line with its line feed. It has no indent where it would be too long with it.
fn push_line(text: &mut Vec<u8>, indent: usize, words: &[u8]) -> Result<(), AllocError>
    ensures { OnOk result (text.new.items ≡ text.old.items ++ joined (indented indent words.now ∷ [])) }
{
    if indent <= LINE_BYTES && words.len() <= LINE_BYTES - indent {
        push_spaces(text, indent)?;
    }
    text.extend_from_slice(words)?;
    text.push(b'\n')?;
    Ok(())
}

/// The indent of the lines in a form. It grows no more once no line has it.
fn deeper(indent: usize) -> usize
    ensures { min 513 result ≡ min 513 (indent + 4) }
{
    if indent > LINE_BYTES {
        return indent;
    }
    indent + STEP
}

/// Appends the lines of a node.
#[cycle(nodes)]
fn push_node(
    alloc: Global,
    text: &mut Vec<u8>,
    indent: usize,
    node: &Node,
) -> Result<(), AllocError>
    ensures { OnOk result (text.new.items ≡ text.old.items ++ joined (node_lines node.now indent)) }
{
    match node {
        Node::Leaf(leaf) => {
            let mut words = Vec::new(alloc);
            push_element(alloc, &mut words, &leaf.kind)?;
            push_line(text, indent, words.as_slice())
        }
        Node::Series(nodes) => push_form(alloc, text, indent, "SERIES", nodes.as_slice()),
        Node::Parallel(nodes) => push_form(alloc, text, indent, "PARALLEL", nodes.as_slice()),
    }
}

/// Appends the line that opens a form, the lines of its nodes, and its `END`.
#[cycle(nodes)]
fn push_form(
    alloc: Global,
    text: &mut Vec<u8>,
    indent: usize,
    word: &str,
    nodes: &[Node],
) -> Result<(), AllocError>
    ensures { OnOk result (text.new.items ≡ text.old.items ++ joined (indented indent word.now ∷ (nodes_lines (indent + 4) nodes.now ++ indented indent (codes "END") ∷ []))) }
{
    push_line(text, indent, word.as_bytes())?;
    push_nodes(alloc, text, deeper(indent), nodes)?;
    push_line(text, indent, b"END")?;
    Ok(())
}

/// Appends the lines of nodes, one after another.
#[cycle(nodes)]
fn push_nodes(
    alloc: Global,
    text: &mut Vec<u8>,
    indent: usize,
    nodes: &[Node],
) -> Result<(), AllocError>
    ensures { OnOk result (text.new.items ≡ text.old.items ++ joined (nodes_lines indent nodes.now)) }
{
    for node in nodes {
        push_node(alloc, text, indent, node)?;
    }
    Ok(())
}

/// Appends the lines of a rung.
fn push_rung(alloc: Global, text: &mut Vec<u8>, rung: &Rung) -> Result<(), AllocError>
    ensures { OnOk result (text.new.items ≡ text.old.items ++ joined (rung_lines rung.now)) }
{
    push_line(text, 0, b"RUNG")?;
    push_nodes(alloc, text, STEP, rung.nodes.as_slice())?;
    push_line(text, 0, b"END")?;
    Ok(())
}

/// Appends the lines of rungs.
fn push_rungs(alloc: Global, text: &mut Vec<u8>, rungs: &[Rung]) -> Result<(), AllocError>
    ensures { OnOk result (text.new.items ≡ text.old.items ++ joined (rungs_lines rungs.now)) }
{
    for rung in rungs {
        push_rung(alloc, text, rung)?;
    }
    Ok(())
}

/// Appends the line of a pin.
fn push_pin(alloc: Global, text: &mut Vec<u8>, pin: &PinLine) -> Result<(), AllocError>
    ensures { OnOk result (text.new.items ≡ text.old.items ++ joined (pin_line pin.now ∷ [])) }
{
    text.extend_from_slice(b"    ")?;
    text.extend_from_slice(pin.name.as_slice())?;
    let end = format!(in alloc; " at {}\n", pin.pin)?;
    text.extend_from_slice(end.as_bytes())
}

/// Appends the lines of pins.
fn push_pins(alloc: Global, text: &mut Vec<u8>, pins: &[PinLine]) -> Result<(), AllocError>
    ensures { OnOk result (text.new.items ≡ text.old.items ++ joined (pin_lines pins.now)) }
{
    for pin in pins {
        push_pin(alloc, text, pin)?;
    }
    Ok(())
}

/// Appends the lines down to `IO LIST`.
fn push_head(alloc: Global, text: &mut Vec<u8>, project: &Project) -> Result<(), AllocError>
    ensures { OnOk result (text.new.items ≡ text.old.items ++ joined (head_lines project.now)) }
{
    let head = format!(in alloc;
        "LDmicro0.1\nMICRO={}\nCYCLE={}\nCRYSTAL={}\nBAUD={}\n\nIO LIST\n",
        target_text(project.target),
        project.cycle,
        project.crystal,
        project.baud
    )?;
    text.extend_from_slice(head.as_bytes())
}

/// The text of a project: its settings, its pins in order, and its rungs, with four spaces in front of a pin and
/// four for each rung, SERIES and PARALLEL that a line stands in. A line that would pass 512 bytes with its
/// indent has none.
pub fn write_project(alloc: Global, project: &Project) -> Result<Text, AllocError>
    ensures { IfOk result (λ text. text ≡ printed project.now) }
{
    let mut text = Vec::new(alloc);
    push_head(alloc, &mut text, project)?;
    push_pins(alloc, &mut text, project.pins.as_slice())?;
    text.extend_from_slice(b"END\n\nPROGRAM\n")?;
    push_rungs(alloc, &mut text, project.rungs.as_slice())?;
    Ok(List::from_vec(text))
}
