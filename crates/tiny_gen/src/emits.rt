//! The tiny machine's code for each primitive that it admits.

ghost use Rattle.std.specs.Prelude.{◌≡◌, ◌<◌, ◌++◌, ◌∷◌, [], length, slice_index, OnOk, OnErr, refl};
ghost use Rattle.tiny_gen.specs.Machine.{encoded, IsExact};
ghost use Rattle.tiny_gen.specs.Code.{admits_dest, admits_source, copy_bit_code, words_of_insns};

use crate::state::{Insn, TinyState};
use byte_code::prim::{
    BitDest, BitOp, BitSource, ByteOp, BytePrim, ByteSource, DeviceOp, Prim, Test,
};
use std::alloc::AllocError;
use target_core::machine::Machine16;
use target_core::words::Words;

/// The word of an instruction.
#[tactic(auto, unfolding(crate::specs::Machine::encoded))]
pub fn encode(insn: Insn) -> u16
    requires { IsExact insn }
    ensures { result ≡ encoded insn }
{
    match insn {
        Insn::Boot => 4096,
        Insn::AskCycle => 2 * 4096,
        Insn::AskDevice => 3 * 4096,
        Insn::Goto(place) => 4 * 4096 + place,
        Insn::CallTo(place) => 5 * 4096 + place,
        Insn::Back => 6 * 4096,
        Insn::Rest => 7 * 4096,
        Insn::Load(address) => 8 * 4096 + address,
        Insn::Keep(address) => 9 * 4096 + address,
        Insn::SendHeld => 10 * 4096,
        Insn::SkipByte => 11 * 4096,
        Insn::LoadLevel { port, bit } => 12 * 4096 + (u16::from(port) * 8 + u16::from(bit)),
        Insn::KeepLatch { port, bit } => 13 * 4096 + (u16::from(port) * 8 + u16::from(bit)),
    }
}

/// The place of a label.
fn place(labels: &Words, label: u32) -> u16
    requires { label < length labels.now }
    ensures { result ≡ slice_index labels.now label }
{
    labels.get(label as usize)
}

/// Appends the words of two instructions; where memory is refused none.
fn two(into: &mut Words, first: Insn, second: Insn) -> Result<(), AllocError>
    requires first { IsExact first }
    requires second { IsExact second }
    ensures ok { OnOk result (into.new ≡ into.old ++ encoded first ∷ encoded second ∷ []) }
    ensures err { OnErr result (into.new ≡ into.old) }
{
    into.extend(&[encode(first), encode(second)])
}

/// Appends the code that copies a level to a latch; where memory is refused none.
fn copy_bit(into: &mut Words, to: BitDest, from: BitSource) -> Result<(), AllocError>
    requires to { admits_dest to }
    requires from { admits_source from }
    ensures ok { OnOk result (into.new ≡ into.old ++ words_of_insns (copy_bit_code to from)) }
    ensures err { OnErr result (into.new ≡ into.old) }
{
    match (to, from) {
        (
            BitDest::Latch { port, bit },
            BitSource::Level {
                port: input,
                bit: of,
            },
        ) => {
            let load = Insn::LoadLevel {
                port: input,
                bit: of,
            };
            two(into, load, Insn::KeepLatch { port, bit })
        }
        (BitDest::Latch { .. }, BitSource::Cell { .. } | BitSource::Latch { .. })
        | (BitDest::Cell { .. }, _) => Ok(()),
    }
}

/// The tiny machine as a chip.
pub struct Tiny {}

impl Machine16 for Tiny {
    ghost use Rattle.tiny_gen.specs.Code.{tiny_target};
    ghost use Rattle.tiny_gen.specs.Laws.{tiny_law};

    type Mach = TinyState;

    ghost target = { λ _. tiny_target };

    ghost WAIT_CYCLES = { 3 };

    const WAIT_CYCLES: u32 = 3;

    fn flash_words(&self) -> u32 {
        4096
    }

    fn words_of(&self, p: &Prim) -> u32 {
        match p {
            BytePrim::Label { .. } => 0,
            BytePrim::CyclePoll { .. } => 3,
            BytePrim::AdcPoll { .. }
            | BytePrim::JumpWhere { .. }
            | BytePrim::Bit(_)
            | BytePrim::Byte(_)
            | BytePrim::Device(_) => 2,
            BytePrim::Start { .. }
            | BytePrim::Jump { .. }
            | BytePrim::Call { .. }
            | BytePrim::Return
            | BytePrim::Word(_)
            | BytePrim::Compare(_)
            | BytePrim::Eeprom(_)
            | BytePrim::Table { .. } => 1,
        }
    }

    fn cycles_of(&self, p: &Prim) -> u32 {
        match p {
            BytePrim::Label { .. } => 0,
            BytePrim::CyclePoll { .. } | BytePrim::JumpWhere { .. } => 3,
            BytePrim::AdcPoll { .. }
            | BytePrim::Jump { .. }
            | BytePrim::Call { .. }
            | BytePrim::Return
            | BytePrim::Bit(_)
            | BytePrim::Byte(_)
            | BytePrim::Device(_) => 2,
            BytePrim::Start { .. }
            | BytePrim::Word(_)
            | BytePrim::Compare(_)
            | BytePrim::Eeprom(_)
            | BytePrim::Table { .. } => 1,
        }
    }

    fn emit(&self, p: &Prim, at: u32, labels: &Words, into: &mut Words) -> Result<(), AllocError> {
        match p {
            BytePrim::Start { .. } => into.extend(&[encode(Insn::Boot)]),
            BytePrim::CyclePoll { .. } => into.extend(&[
                encode(Insn::Rest),
                encode(Insn::AskCycle),
                encode(Insn::Goto(at as u16 + 1)),
            ]),
            BytePrim::AdcPoll { .. } => two(into, Insn::AskDevice, Insn::Goto(at as u16)),
            BytePrim::Jump { label } => into.extend(&[encode(Insn::Goto(place(labels, *label)))]),
            BytePrim::Call { label } => into.extend(&[encode(Insn::CallTo(place(labels, *label)))]),
            BytePrim::Return => into.extend(&[encode(Insn::Back)]),
            BytePrim::JumpWhere {
                test: Test::NoByte,
                label,
            } => { two(into, Insn::SkipByte, Insn::Goto(place(labels, *label))) }
            BytePrim::Bit(BitOp::Copy { to, from, .. }) => copy_bit(into, *to, *from),
            BytePrim::Byte(ByteOp::Copy { to, from }) => {
                two(into, Insn::Load(*from), Insn::Keep(*to))
            }
            BytePrim::Device(
                DeviceOp::Send {
                    from: ByteSource::Cell(address),
                },
            ) => { two(into, Insn::Load(*address), Insn::SendHeld) }
            BytePrim::Label { .. }
            | BytePrim::JumpWhere { .. }
            | BytePrim::Bit(_)
            | BytePrim::Byte(_)
            | BytePrim::Word(_)
            | BytePrim::Compare(_)
            | BytePrim::Device(_)
            | BytePrim::Eeprom(_)
            | BytePrim::Table { .. } => Ok(()),
        }
    }

    ghost law = { λ _. (tiny_law, refl) };
}
