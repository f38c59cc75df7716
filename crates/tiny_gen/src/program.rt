//! Programs for the tiny machine.

ghost use Rattle.std.specs.Prelude.{◌≡◌, ◌≢◌, ◌<◌, ◌^◌, ◌++◌, ◌∷◌, [], ℕ, IfOk, OnOk, false};
ghost use Rattle.byte_code.specs.declared.prim.BitSource.TheVariants as source;
ghost use Rattle.byte_code.specs.declared.prim.BitDest.TheVariants as dest;
ghost use Rattle.byte_code.specs.declared.prim.BitOp.TheVariants as bits;
ghost use Rattle.byte_code.specs.declared.prim.BytePrim.TheVariants.{Bit};
ghost use Rattle.byte_code.specs.Samples.{copier, paced};
ghost use Rattle.target_core.specs.Whole.{words_sum, cycles_sum, boot_sum, IsTooLong, IsWhole, RunsAs};
ghost use Rattle.tiny_gen.specs.Code.{tiny_target};
ghost use Rattle.tiny_gen.specs.Copier.{Copies};

use crate::emits::Tiny;
use crate::laws::copier_words_copy;
use byte_code::prim::{BitDest, BitOp, BitSource, BytePrim, Paced, Prims};
use std::alloc::{AllocError, Global};
use target_core::assemble::{AsmFault, Assembled, assemble};

/// The words of a program of primitives that the tiny machine admits. They run as the byte machine does, within the cycles that are given with them.
pub fn tiny_words(alloc: Global, code: &Prims) -> Result<Assembled, AsmFault>
    requires whole { IsWhole tiny_target code.now }
    requires words { words_sum tiny_target code.now < 2 ^ 32 }
    requires cycles { cycles_sum tiny_target code.now < 2 ^ 32 }
    requires boot { boot_sum tiny_target code.now < 2 ^ 32 }
    ensures runs { IfOk result (λ a. RunsAs tiny_target code.now a.words a.cycles a.boot) }
    ensures full { IsTooLong tiny_target code.now → result ≡ Err (AsmFault.CodeFull (words_sum tiny_target code.now) 4096) }
    ensures only_full { (need have : ℕ) → result ≡ Err (AsmFault.CodeFull need have) → IsTooLong tiny_target code.now }
    ensures cycles { IfOk result (λ a. a.cycles ≡ cycles_sum tiny_target code.now) }
    ensures boot { IfOk result (λ a. a.boot ≡ boot_sum tiny_target code.now) }
{
    assemble(alloc, &Tiny {}, code)
}

/// The words of the copier. In each cycle they copy the level at pin B0 to the latch of pin B1, in at most 7 cycles beside the waits.
pub fn copier_words(alloc: Global) -> Result<Assembled, AsmFault>
    ensures copies { IfOk result (λ a. Copies a.words a.cycles a.boot) }
    ensures cycles { IfOk result (λ a. a.cycles ≡ 7) }
    ensures boot { IfOk result (λ a. a.boot ≡ 4) }
    ensures fits { (need have : ℕ) → result ≢ Err (AsmFault.CodeFull need have) }
{
    copier_words_copy();
    match copier(alloc) {
        Ok(code) => tiny_words(alloc, &code),
        Err(e) => Err(AsmFault::Memory(e)),
    }
}

/// The copier's primitives.
fn copier(alloc: Global) -> Result<Prims, AllocError>
    ensures { IfOk result (λ code. code ≡ copier) }
{
    let mut code = Prims::new(alloc);
    put(&mut code, BytePrim::Start { cells: 0 }, 1, 0)?;
    put(&mut code, BytePrim::Label { label: 0 }, 1, 1)?;
    put(&mut code, BytePrim::CyclePoll { label: 0 }, 1, 1)?;
    put(&mut code, b0_to_b1(), 0, 1)?;
    put(&mut code, BytePrim::Jump { label: 0 }, 0, 1)?;
    Ok(code)
}

/// The latch of pin B1 becomes the level at pin B0.
fn b0_to_b1() -> BytePrim
    ensures { result ≡ Bit (bits.Copy (dest.Latch 1 1) (source.Level 1 0) false) }
{
    BytePrim::Bit(BitOp::Copy {
        to: BitDest::Latch { port: 1, bit: 1 },
        from: BitSource::Level { port: 1, bit: 0 },
        inverted: false,
    })
}

fn put(code: &mut Prims, prim: BytePrim, boot: u32, turns: u32) -> Result<(), AllocError>
    ensures { OnOk result (code.new ≡ code.old ++ paced prim boot turns ∷ []) }
{
    code.push(Paced { prim, boot, turns })
}
