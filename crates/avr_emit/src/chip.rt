//! The ATmega16 as a chip of the assembler.

ghost use Rattle.std.specs.Prelude.{◌≡◌, ◌<◌, ◌++◌, ℕ, OnOk, length, slice_index, Some};
ghost use Rattle.target_core.specs.Law.{label_named};
ghost use Rattle.avr_code.specs.Code.{code_of, words_of};
ghost use Rattle.avr_code.specs.Target.{Admits};
ghost use Rattle.avr_emit.specs.Chip.{board_of};

use crate::bits::{bit_op, jmp, jump_where};
use crate::insns::put;
use crate::numbers::{byte_op, compare_op, word_op};
use crate::tables::{poll, table};
use avr_counts::counts::{more_cycles, word_count};
use avr_mach::{AvrInsn, AvrState};
use byte_code::prim::{BytePrim, Prim};
use chip_tables::mega16::{self, FLASH_WORDS};
use chip_tables::{PortBit, Settings};
use ld_base::list::List;
use std::alloc::{AllocError, Global};
use target_core::machine::Machine16;
use target_core::words::Words;

/// An ATmega16 with its wiring, as a chip of the assembler.
#[derive(Drop)]
pub struct Avr {
    /// What makes room for the words of one primitive.
    pub alloc: Global,
    /// The pins that are outputs.
    pub outputs: List<PortBit>,
    /// The settings of its devices, of which the start takes the cycle timer's.
    pub settings: Settings,
}

impl Avr {
    /// Appends the words of a primitive. Where memory is refused some of them may be appended.
    fn code(&self, p: &Prim, labels: &Words, words: &mut Words) -> Result<(), AllocError>
        requires admitted { Admits (board_of self.now) p.now }
        requires labels { (l : ℕ) → label_named p.now ≡ Some l → l < length labels.now }
        ensures { OnOk result (words.new ≡ words.old ++ words_of (code_of (board_of self.now) p.now labels.now)) }
    {
        match p {
            BytePrim::Start { cells } => self.start(*cells, words),
            BytePrim::CyclePoll { .. } => poll(words),
            BytePrim::Jump { label } => put(words, &[jmp(place(labels, *label))]),
            BytePrim::Call { label } => {
                let place = u32::from(place(labels, *label));
                put(words, &[AvrInsn::Call { place }])
            }
            BytePrim::Return => put(words, &[AvrInsn::Ret]),
            BytePrim::JumpWhere { test, label } => jump_where(words, *test, place(labels, *label)),
            BytePrim::Bit(op) => bit_op(words, *op),
            BytePrim::Byte(op) => byte_op(words, *op),
            BytePrim::Word(op) => word_op(words, *op),
            BytePrim::Compare(op) => compare_op(words, *op),
            BytePrim::Table { values, .. } => table(words, values),
            BytePrim::Label { .. }
            | BytePrim::AdcPoll { .. }
            | BytePrim::Device(_)
            | BytePrim::Eeprom(_) => Ok(()),
        }
    }
}

/// The place of a label.
fn place(labels: &Words, label: u32) -> u16
    requires { label < length labels.now }
    ensures { result ≡ slice_index labels.now label }
{
    labels.get(label as usize)
}

impl Machine16 for Avr {
    ghost use Rattle.std.specs.Prelude.{refl};
    ghost use Rattle.avr_code.specs.Target.{avr_target};
    ghost use Rattle.avr_code.proofs.Whole.{avr_law};

    type Mach = AvrState;

    ghost target = { λ t. avr_target (board_of t) };

    ghost WAIT_CYCLES = { 4 };

    const WAIT_CYCLES: u32 = mega16::WAIT_CYCLES;

    fn flash_words(&self) -> u32 {
        FLASH_WORDS
    }

    fn words_of(&self, p: &Prim) -> u32 {
        word_count(p)
    }

    fn cycles_of(&self, p: &Prim) -> u32 {
        word_count(p) + more_cycles(p)
    }

    fn emit(&self, p: &Prim, at: u32, labels: &Words, into: &mut Words) -> Result<(), AllocError> {
        let mut words = Words::new(self.alloc);
        self.code(p, labels, &mut words)?;
        into.extend(words.as_slice())
    }

    ghost law = { λ t. (avr_law (board_of t), refl) };
}
