//! Writing a program's text.

ghost use Rattle.std.specs.Prelude.{◌≡◌, ◌<◌, ◌++◌, ◌∷◌, [], true, OnOk, IfOk, All, length, map, codes};
ghost use Rattle.std.specs.List.{list_all};
ghost use Rattle.std.specs.String.{string_bytes};
ghost use Rattle.texts.specs.Lines.{lines};
ghost use Rattle.ladder_tree.specs.Names.{is_name_within};
ghost use Rattle.interp_code.specs.Line.{Magic, Cycle, BitCount, Code, End};
ghost use Rattle.texts.specs.Lines.{joined};
ghost use Rattle.int_code.specs.Text.{op_words};
ghost use Rattle.interp_code.specs.Text.{line_text, interp_text, variables};
ghost use Rattle.interp_code.specs.Program.{IsWritable, IsProgram, read_as};
ghost use Rattle.int_code.specs.Literals.{IsNumber};
ghost use Rattle.interp_code.specs.Written.{name_lines, AreNames};

use int_code::op::{IntOp, IntProgram};
use ladder_tree::element::Name;
use ladder_tree::names::Names;
use ld_base::list::List;
use std::alloc::{AllocError, Global};
use texts::Text;

/// The text of a program, each line with its line feed. Reading it gives the program back, but
/// for what a text does not tell: `names.memories`, and which bits are kept.
pub fn write_interp(
    alloc: Global,
    cycle: u32,
    names: &Names,
    program: &IntProgram,
) -> Result<Text, AllocError>
    requires { IsWritable cycle names.now program.now }
    ensures text { IfOk result (λ t. t ≡ interp_text cycle names.now program.now) }
    ensures reads_back { IfOk result (λ t. IsProgram (lines t) (read_as cycle names.now program.now)) }
{
    let mut text = String::new(alloc);
    push_program(&mut text, cycle, names, program)?;
    Ok(List::from_vec(text.into_bytes()))
}

/// Appends all lines of a program's text.
fn push_program(
    text: &mut String,
    cycle: u32,
    names: &Names,
    program: &IntProgram,
) -> Result<(), AllocError>
    requires { IsWritable cycle names.now program.now }
    ensures text { OnOk result (string_bytes text.new ≡ string_bytes text.old ++ interp_text cycle names.now program.now) }
    ensures reads_back { OnOk result (IsProgram (lines (interp_text cycle names.now program.now)) (read_as cycle names.now program.now)) }
{
    prove!(program.inputs <= u32::MAX && program.outputs <= u32::MAX);
    prove!(program.analogs <= u32::MAX && program.variables <= u32::MAX);
    push_head(text, cycle)?;
    push_all_names(text, names, program.starts.as_slice())?;
    push_sizes(text, program.bits)?;
    push_operations(text, program.ops.as_slice())?;
    text.push_str("end\n")?;
    Ok(())
}

/// Appends the two lines in front of the names.
fn push_head(text: &mut String, cycle: u32) -> Result<(), AllocError>
    ensures { OnOk result (string_bytes text.new ≡ string_bytes text.old ++ joined (map line_text (Magic ∷ (Cycle cycle ∷ [])))) }
{
    writeln!(text, "LDint 1\ncycle {cycle}")
}

/// Appends the lines of all names. Where there is one, a start value is a number of 16 bits.
fn push_all_names(text: &mut String, names: &Names, starts: &[i16]) -> Result<(), AllocError>
    requires names { AreNames names.now }
    requires starts { length starts.now ≡ length names.now.variables }
    ensures text { OnOk result (string_bytes text.new ≡ string_bytes text.old ++ joined (map line_text (name_lines names.now starts.now))) }
    ensures numbers { OnOk result (All IsNumber starts.now) }
{
    push_names(text, "input ", names.inputs.as_slice())?;
    push_names(text, "output ", names.outputs.as_slice())?;
    push_names(text, "analog ", names.analog.as_slice())?;
    push_variables(text, names.variables.as_slice(), starts)?;
    push_names(text, "relay ", names.relays.as_slice())?;
    push_names(text, "persist ", names.persistent.as_slice())?;
    Ok(())
}

/// Appends the lines behind the names, in front of the operations.
fn push_sizes(text: &mut String, bits: u32) -> Result<(), AllocError>
    ensures { OnOk result (string_bytes text.new ≡ string_bytes text.old ++ joined (map line_text (BitCount bits ∷ (Code ∷ [])))) }
{
    writeln!(text, "bits {bits}\ncode")
}

/// Appends bytes that are ASCII.
fn push_ascii(text: &mut String, bytes: &[u8]) -> Result<(), AllocError>
    requires { All (λ b. b < 128) bytes.now }
    ensures { OnOk result (string_bytes text.new ≡ string_bytes text.old ++ bytes.now) }
{
    for byte in bytes {
        text.push(char::from(*byte))?;
    }
    Ok(())
}

/// Appends a line for each name: a word with its space, and the name.
fn push_names(text: &mut String, word: &str, names: &[Name]) -> Result<(), AllocError>
    requires { list_all (is_name_within 66) names.now ≡ true }
    ensures { OnOk result (string_bytes text.new ≡ string_bytes text.old ++ joined (map (λ n. word.now ++ n) names.now)) }
{
    for name in names {
        text.push_str(word)?;
        push_ascii(text, name.as_slice())?;
        text.push_str("\n")?;
    }
    Ok(())
}

/// Appends a line for each variable: its name and its start value.
fn push_variables(text: &mut String, names: &[Name], starts: &[i16]) -> Result<(), AllocError>
    requires names { list_all (is_name_within 66) names.now ≡ true }
    requires starts { length starts.now ≡ length names.now }
    ensures text { OnOk result (string_bytes text.new ≡ string_bytes text.old ++ joined (map line_text (variables names.now starts.now))) }
    ensures numbers { OnOk result (All IsNumber starts.now) }
{
    for k in 0..names.len() {
        let start = starts[k];
        text.push_str("var ")?;
        push_ascii(text, names[k].as_slice())?;
        writeln!(text, " {start}")?;
    }
    Ok(())
}

/// Appends the lines of operations.
fn push_operations(text: &mut String, ops: &[IntOp]) -> Result<(), AllocError>
    ensures { OnOk result (string_bytes text.new ≡ string_bytes text.old ++ joined (map op_words ops.now)) }
{
    for op in ops {
        writeln!(text, "{op}")?;
    }
    Ok(())
}
