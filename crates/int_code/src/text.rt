//! The lines of operations, as they stand in the interpretable text.

ghost use Rattle.std.specs.Prelude.{◌≡◌, IfOk};
ghost use Rattle.int_code.specs.Text as spec;

use crate::op::{BitDest, BitSource, IntOp, NumSource};
use ladder_tree::element::Nums;
use ld_base::list::List;
use std::alloc::{AllocError, Global};
use std::fmt;
use texts::Text;

impl fmt::Display for BitDest {
    ghost use Rattle.std.specs.Prelude.{Some};
    ghost use Rattle.int_code.specs.Text.{dest_text};

    ghost output = { λ b. Some (dest_text b) };

    fn fmt<W: fmt::Write>(&self, f: &mut fmt::Formatter<W>) -> fmt::Result {
        match self {
            BitDest::B(k) => write!(f, "b{k}"),
            BitDest::Y(k) => write!(f, "y{k}"),
        }
    }
}

impl fmt::Display for BitSource {
    ghost use Rattle.std.specs.Prelude.{Some};
    ghost use Rattle.int_code.specs.Text.{source_text};

    ghost output = { λ s. Some (source_text s) };

    fn fmt<W: fmt::Write>(&self, f: &mut fmt::Formatter<W>) -> fmt::Result {
        match self {
            BitSource::B(k) => write!(f, "b{k}"),
            BitSource::X(k) => write!(f, "x{k}"),
            BitSource::Y(k) => write!(f, "y{k}"),
        }
    }
}

impl fmt::Display for NumSource {
    ghost use Rattle.std.specs.Prelude.{Some};
    ghost use Rattle.int_code.specs.Text.{number_text};

    ghost output = { λ w. Some (number_text w) };

    fn fmt<W: fmt::Write>(&self, f: &mut fmt::Formatter<W>) -> fmt::Result {
        match self {
            NumSource::V(k) => write!(f, "v{k}"),
            NumSource::N(n) => n.fmt(f),
        }
    }
}

/// The values of a table, each behind a space.
#[derive(Drop)]
struct Values<'a>(&'a Nums);

impl fmt::Display for Values<'_> {
    ghost use Rattle.std.specs.Prelude.{Some};
    ghost use Rattle.int_code.specs.Text.{values_text};

    ghost output = { λ values. Some (values_text values.0.now) };

    fn fmt<W: fmt::Write>(&self, f: &mut fmt::Formatter<W>) -> fmt::Result {
        for n in self.0.as_slice() {
            write!(f, " {n}")?;
        }
        Ok(())
    }
}

impl fmt::Display for IntOp {
    ghost use Rattle.std.specs.Prelude.{Some};
    ghost use Rattle.int_code.specs.Text.{op_words};

    ghost output = { λ op. Some (op_words op) };

    fn fmt<W: fmt::Write>(&self, f: &mut fmt::Formatter<W>) -> fmt::Result {
        let word = self.word();
        match self {
            IntOp::Set { b } | IntOp::Clr { b } | IntOp::Eebusy { b } => write!(f, "{word} {b}"),
            IntOp::Cpy { b, s } | IntOp::Not { b, s } => write!(f, "{word} {b} {s}"),
            IntOp::Ifs { s } | IntOp::Ifc { s } => write!(f, "{word} {s}"),
            IntOp::Iflt { w, u } | IntOp::Ifeq { w, u } => write!(f, "{word} {w} {u}"),
            IntOp::Ifee { v, a } | IntOp::Eerd { v, a } => write!(f, "{word} v{v} {a}"),
            IntOp::Els | IntOp::Fi => f.write_str(word),
            IntOp::Lit { v, n } => write!(f, "{word} v{v} {n}"),
            IntOp::Mov { v, from } => write!(f, "{word} v{v} v{from}"),
            IntOp::Add { v, w, u }
            | IntOp::Sub { v, w, u }
            | IntOp::Mul { v, w, u }
            | IntOp::Div { v, w, u } => write!(f, "{word} v{v} {w} {u}"),
            IntOp::Inc { v } | IntOp::Dec { v } => write!(f, "{word} v{v}"),
            IntOp::Adc { v, k } => write!(f, "{word} v{v} {k}"),
            IntOp::Pwm { w, hz } => write!(f, "{word} {w} {hz}"),
            IntOp::Rx { v, b } => write!(f, "{word} v{v} {b}"),
            IntOp::Tx { w, s, b } => write!(f, "{word} {w} {s} {b}"),
            IntOp::Eewr { w, a } => write!(f, "{word} {w} {a}"),
            IntOp::Tab { v, w, values } => {
                write!(f, "{word} v{v} {w} {}{}", values.len(), Values(values))
            }
        }
    }
}

impl IntOp {
    /// The operation's word.
    fn word(&self) -> &'static str
        ensures { result.now ≡ spec.first_word (spec.op_words self.now) }
    {
        match self {
            IntOp::Set { .. } => "set",
            IntOp::Clr { .. } => "clr",
            IntOp::Cpy { .. } => "cpy",
            IntOp::Not { .. } => "not",
            IntOp::Ifs { .. } => "ifs",
            IntOp::Ifc { .. } => "ifc",
            IntOp::Iflt { .. } => "iflt",
            IntOp::Ifeq { .. } => "ifeq",
            IntOp::Ifee { .. } => "ifee",
            IntOp::Els => "els",
            IntOp::Fi => "fi",
            IntOp::Lit { .. } => "lit",
            IntOp::Mov { .. } => "mov",
            IntOp::Add { .. } => "add",
            IntOp::Sub { .. } => "sub",
            IntOp::Mul { .. } => "mul",
            IntOp::Div { .. } => "div",
            IntOp::Inc { .. } => "inc",
            IntOp::Dec { .. } => "dec",
            IntOp::Adc { .. } => "adc",
            IntOp::Pwm { .. } => "pwm",
            IntOp::Rx { .. } => "rx",
            IntOp::Tx { .. } => "tx",
            IntOp::Eebusy { .. } => "eebusy",
            IntOp::Eerd { .. } => "eerd",
            IntOp::Eewr { .. } => "eewr",
            IntOp::Tab { .. } => "tab",
        }
    }
}

/// The operation's line with its line feed.
pub fn op_text(alloc: Global, op: &IntOp) -> Result<Text, AllocError>
    ensures { IfOk result (λ text. text ≡ spec.op_text op.now) }
{
    let line = format!(in alloc; "{op}\n")?;
    Ok(List::from_vec(line.into_bytes()))
}
