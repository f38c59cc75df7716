//! The C text of a project.

ghost use Rattle.std.specs.Prelude.{◌≡◌, ◌≢◌, ◌≤◌, ◌<◌, ◌^◌, [], ◌++◌, length, codes, IfOk, OnOk};
ghost use Rattle.std.specs.Fmt.{signed_decimal};
ghost use Rattle.ladder_tree.specs.declared.limits.TheConstants.{DEPTH};
ghost use Rattle.ladder_tree.specs.Leaves.{depth_of_all};
ghost use Rattle.ladder_lower.specs.Outcome.{CanLower};
ghost use Rattle.ladder_lower.specs.Wires.{Fits};
ghost use Rattle.c_output.specs.Filled.{filled};
ghost use Rattle.c_output.specs.Laid.{terms_of};
ghost use Rattle.c_output.specs.Node.{rungs_text, memories_of};
ghost use Rattle.c_output.specs.Text.{hooks_text, head_text, variables_text, names_text, functions_text, cycle_text, c_text};

use crate::filled::{push_each, push_each_at, push_each_number, push_filled, push_numbered};
use crate::node::push_series;
use ladder_lower::layout::Layout;
use ladder_lower::starts::start_values;
use ladder_tree::element::Name;
use ladder_tree::limits::DEPTH;
use ladder_tree::names::Names;
use ladder_tree::project::{Project, Rung};
use ld_base::list::List;
use std::alloc::{AllocError, Global};
use texts::Text;

/// The C text of a project: the hooks, what is kept from cycle to cycle, and the function `ld_cycle`, which does a cycle.
pub fn write_c(alloc: Global, project: &Project, names: &Names) -> Result<Text, AllocError>
    requires { CanLower names.now project.now }
    ensures { IfOk result (λ text. text ≡ c_text project.now) }
{
    let mut layout = Layout::empty(alloc, project.cycle, false);
    write_by(alloc, project, names, &mut layout)
}

/// The C text by a layout, which gets the names.
fn write_by<'n>(
    alloc: Global,
    project: &Project,
    names: &'n Names,
    layout: &mut Layout<'n>,
) -> Result<Text, AllocError>
    requires project { CanLower names.now project.now }
    requires cycle { layout.old.cycle ≡ project.now.cycle }
    ensures { IfOk result (λ text. text ≡ c_text project.now) }
{
    layout.hold(names)?;
    let starts = start_values(alloc, project, layout)?;
    let mut text = Vec::new(alloc);
    push_head(alloc, &mut text, project.cycle)?;
    push_names(alloc, &mut text, names, starts.as_slice())?;
    push_functions(&mut text)?;
    push_cycle(alloc, &mut text, layout, names, project.rungs.as_slice())?;
    Ok(List::from_vec(text))
}

/// Appends the hooks, and the variables that every text has.
fn push_head(alloc: Global, text: &mut Vec<u8>, cycle: u32) -> Result<(), AllocError>
    ensures { OnOk result (text.new.items ≡ text.old.items ++ head_text cycle) }
{
    push_numbered(alloc, text, "/* LDmicro C, cycle # us */\n", cycle as usize)?;
    push_hooks(text)?;
    push_each_number(alloc, text, "static int i_#, o_#;\n", DEPTH as usize)
}

fn push_hooks(text: &mut Vec<u8>) -> Result<(), AllocError>
    ensures { OnOk result (text.new.items ≡ text.old.items ++ hooks_text) }
{
    text.extend_from_slice(
        b"extern int ld_in(int), ld_adc(int), ld_rx(void), ld_tx(void), ld_eebusy(void), ld_eerd(int);\n",
    )?;
    text.extend_from_slice(
        b"extern void ld_out(int, int), ld_pwm(int, long), ld_send(int), ld_eewr(int, int);\n",
    )?;
    text.extend_from_slice(b"static int f, m, r, t, e, h, ha, hn, x;\n")
}

/// Appends a line for each variable, with its start value.
fn push_variables(
    alloc: Global,
    text: &mut Vec<u8>,
    names: &[Name],
    starts: &[i16],
) -> Result<(), AllocError>
    requires { length starts.now ≡ length names.now }
    ensures { OnOk result (text.new.items ≡ text.old.items ++ variables_text names.now starts.now) }
{
    for place in 0..names.len() {
        push_variable(alloc, text, &names[place], starts[place])?;
    }
    Ok(())
}

fn push_variable(
    alloc: Global,
    text: &mut Vec<u8>,
    name: &Name,
    start: i16,
) -> Result<(), AllocError>
    ensures { OnOk result (text.new.items ≡ text.old.items ++ filled (codes "static int v_@ = #;\n") name.now (signed_decimal start) []) }
{
    let digits = format!(in alloc; "{start}")?;
    let name = name.as_slice();
    push_filled(text, "static int v_@ = #;\n", name, digits.as_bytes(), b"")
}

/// Appends what is kept from cycle to cycle.
fn push_names(
    alloc: Global,
    text: &mut Vec<u8>,
    names: &Names,
    starts: &[i16],
) -> Result<(), AllocError>
    requires { length starts.now ≡ length names.now.variables }
    ensures { OnOk result (text.new.items ≡ text.old.items ++ names_text names.now starts.now) }
{
    push_each(text, "static int b_@;\n", names.inputs.as_slice())?;
    push_each(text, "static int b_@;\n", names.outputs.as_slice())?;
    push_each(text, "static int b_@;\n", names.relays.as_slice())?;
    push_variables(alloc, text, names.variables.as_slice(), starts)?;
    push_each_number(alloc, text, "static int k_#;\n", names.memories as usize)?;
    push_each(text, "static int s_@;\n", names.persistent.as_slice())
}

/// Appends the functions that elements use.
fn push_functions(text: &mut Vec<u8>) -> Result<(), AllocError>
    ensures { OnOk result (text.new.items ≡ text.old.items ++ functions_text) }
{
    text.extend_from_slice(
        b"static int w16(long n) { n &= 65535; return (int)(n > 32767 ? n - 65536 : n); }\n",
    )?;
    text.extend_from_slice(
        b"static int d16(long a, long b) { return b == 0 ? 0 : w16(a / b); }\n",
    )?;
    text.extend_from_slice(
        b"static int ck(void) { if (e) return 1; if (h) { ld_eewr(ha, hn); h = 0; e = 1; return 1; } return 0; }\n",
    )
}

/// Appends the function of a cycle.
fn push_cycle(
    alloc: Global,
    text: &mut Vec<u8>,
    layout: &Layout<'_>,
    names: &Names,
    rungs: &[Rung],
) -> Result<(), AllocError>
    requires fits { Fits layout.now 0 }
    requires cycle { layout.now.cycle ≢ 0 }
    requires depth { depth_of_all rungs.now ≤ DEPTH }
    requires room { memories_of (terms_of layout.now) rungs.now < 2 ^ 32 }
    ensures { OnOk result (text.new.items ≡ text.old.items ++ cycle_text (terms_of layout.now) names.now rungs.now) }
{
    text.extend_from_slice(b"void ld_cycle(void) {\n")?;
    push_each_at(alloc, text, "b_@ = ld_in(#);\n", names.inputs.as_slice())?;
    text.extend_from_slice(b"r = ld_rx(); t = ld_tx(); e = ld_eebusy(); m = 1;\n")?;
    push_rungs(alloc, text, layout, rungs)?;
    push_each_at(alloc, text, "ld_out(#, b_@);\n", names.outputs.as_slice())?;
    text.extend_from_slice(b"}\n")?;
    Ok(())
}

/// Appends the text of the rungs. Each begins on the master relay bit.
fn push_rungs(
    alloc: Global,
    text: &mut Vec<u8>,
    layout: &Layout<'_>,
    rungs: &[Rung],
) -> Result<(), AllocError>
    requires fits { Fits layout.now 0 }
    requires cycle { layout.now.cycle ≢ 0 }
    requires depth { depth_of_all rungs.now ≤ DEPTH }
    requires room { memories_of (terms_of layout.now) rungs.now < 2 ^ 32 }
    ensures { OnOk result (text.new.items ≡ text.old.items ++ rungs_text (terms_of layout.now) rungs.now 0) }
{
    let mut k = 0;
    for rung in rungs {
        text.extend_from_slice(b"f = m;\n")?;
        k = push_series(alloc, text, layout, rung.nodes.as_slice(), 0, k)?;
    }
    Ok(())
}
