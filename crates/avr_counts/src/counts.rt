//! How many words and cycles the code of each primitive takes.

ghost use Rattle.std.specs.Prelude.{◌≡◌, ◌≤◌};
ghost use Rattle.byte_code.specs.declared.prim.BytePrim.TheVariants.{Start};
ghost use Rattle.avr_code.specs.Code.{Board, start_code, size_in, word_count, more_cycles};

use crate::bits::{bit_cycles, bit_words, test_words};
use crate::numbers::{byte_words, compare_words, word_words};
use crate::tables::table_words;
use byte_code::prim::{BytePrim, Prim};

pub fn word_count(p: &Prim) -> u32
    ensures value { (board : Board) → result ≡ word_count board p.now }
    ensures few { result ≤ 1024 }
{
    match p {
        BytePrim::Start { cells } => start_words(*cells),
        BytePrim::CyclePoll { .. } => 4,
        BytePrim::Jump { .. } | BytePrim::Call { .. } => 2,
        BytePrim::Return => 1,
        BytePrim::JumpWhere { test, .. } => test_words(*test),
        BytePrim::Bit(op) => bit_words(*op),
        BytePrim::Byte(op) => byte_words(*op),
        BytePrim::Word(op) => word_words(*op),
        BytePrim::Compare(op) => compare_words(*op),
        BytePrim::Table { values, .. } => table_words(values),
        BytePrim::Label { .. }
        | BytePrim::AdcPoll { .. }
        | BytePrim::Device(_)
        | BytePrim::Eeprom(_) => 0,
    }
}

pub fn more_cycles(p: &Prim) -> u32
    ensures value { result ≡ more_cycles p.now }
    ensures few { result ≤ 393210 }
{
    match p {
        BytePrim::Jump { .. } | BytePrim::JumpWhere { .. } => 1,
        BytePrim::Call { .. } => 2,
        BytePrim::Return => 3,
        BytePrim::Bit(op) => bit_cycles(*op),
        BytePrim::Start { cells } => clearing_cycles(*cells),
        BytePrim::CyclePoll { .. }
        | BytePrim::Label { .. }
        | BytePrim::Byte(_)
        | BytePrim::Word(_)
        | BytePrim::Compare(_)
        | BytePrim::AdcPoll { .. }
        | BytePrim::Device(_)
        | BytePrim::Eeprom(_)
        | BytePrim::Table { .. } => 0,
    }
}

fn clearing_cycles(cells: u16) -> u32
    ensures value { result ≡ more_cycles (Start cells) }
    ensures few { result ≤ 393210 }
{
    (6 * u32::from(cells)).saturating_sub(5)
}

fn start_words(cells: u16) -> u32
    ensures value { (board : Board) → size_in (start_code board cells) ≡ result }
    ensures few { result ≤ 35 }
{
    if cells == 0 { 24 } else { 35 }
}
