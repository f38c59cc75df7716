//! The C text of elements with operands.

ghost use Rattle.std.specs.Prelude.{◌≡◌, ◌++◌, OnOk, IfOk, [], codes};
ghost use Rattle.c_output.specs.Filled.{filled};
ghost use Rattle.c_output.specs.Operand.{operand_text};
ghost use Rattle.c_output.specs.Element.{compare_template, math_template};

use crate::filled::{push_filled, push_named};
use ladder_tree::element::{CompareHow, MathHow, Name, Operand};
use std::alloc::{AllocError, Global};

fn math_template(how: MathHow) -> &'static str
    ensures { result.now ≡ math_template how }
{
    match how {
        MathHow::Add => "if (f) v_@ = w16(# + $);\n",
        MathHow::Sub => "if (f) v_@ = w16(# - $);\n",
        MathHow::Mul => "if (f) v_@ = w16(# * $);\n",
        MathHow::Div => "if (f) v_@ = d16(#, $);\n",
    }
}

fn compare_template(how: CompareHow) -> &'static str
    ensures { result.now ≡ compare_template how }
{
    match how {
        CompareHow::Equ => "if (!(# == $)) f = 0;\n",
        CompareHow::Neq => "if (!(# != $)) f = 0;\n",
        CompareHow::Grt => "if (!(# > $)) f = 0;\n",
        CompareHow::Geq => "if (!(# >= $)) f = 0;\n",
        CompareHow::Les => "if (!(# < $)) f = 0;\n",
        CompareHow::Leq => "if (!(# <= $)) f = 0;\n",
    }
}

/// The text of an operand: a variable or a number, as a long.
pub fn operand_text(alloc: Global, operand: &Operand) -> Result<Vec<u8>, AllocError>
    ensures { IfOk result (λ v. v.items ≡ operand_text operand.now) }
{
    let mut text = Vec::new(alloc);
    push_operand(alloc, &mut text, operand)?;
    Ok(text)
}

fn push_operand(alloc: Global, text: &mut Vec<u8>, operand: &Operand) -> Result<(), AllocError>
    ensures { OnOk result (text.new.items ≡ text.old.items ++ operand_text operand.now) }
{
    match operand {
        Operand::Var(name) => push_named(text, "((long)v_@)", name),
        Operand::Num(number) => {
            let digits = format!(in alloc; "{number}")?;
            push_filled(text, "(#L)", b"", digits.as_bytes(), b"")
        }
    }
}

/// Appends a template with where a value goes, and one operand.
pub fn push_move(
    alloc: Global,
    text: &mut Vec<u8>,
    dest: &Name,
    src: &Operand,
) -> Result<(), AllocError>
    ensures { OnOk result (text.new.items ≡ text.old.items ++ filled (codes "if (f) v_@ = w16(#);\n") dest.now (operand_text src.now) []) }
{
    let src = operand_text(alloc, src)?;
    push_filled(text, "if (f) v_@ = w16(#);\n", dest.as_slice(), &src, b"")
}

/// Appends the text of arithmetic.
pub fn push_math(
    alloc: Global,
    text: &mut Vec<u8>,
    how: MathHow,
    dest: &Name,
    a: &Operand,
    b: &Operand,
) -> Result<(), AllocError>
    ensures { OnOk result (text.new.items ≡ text.old.items ++ filled (math_template how) dest.now (operand_text a.now) (operand_text b.now)) }
{
    let a = operand_text(alloc, a)?;
    let b = operand_text(alloc, b)?;
    push_filled(text, math_template(how), dest.as_slice(), &a, &b)
}

/// Appends the text of a comparison.
pub fn push_compare(
    alloc: Global,
    text: &mut Vec<u8>,
    how: CompareHow,
    a: &Operand,
    b: &Operand,
) -> Result<(), AllocError>
    ensures { OnOk result (text.new.items ≡ text.old.items ++ filled (compare_template how) [] (operand_text a.now) (operand_text b.now)) }
{
    let a = operand_text(alloc, a)?;
    let b = operand_text(alloc, b)?;
    push_filled(text, compare_template(how), b"", &a, &b)
}
