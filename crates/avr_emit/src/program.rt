//! Programs for the ATmega16.

ghost use Rattle.std.specs.Prelude.{◌≡◌, ◌<◌, ◌^◌, ◌↔◌, ℕ, IfOk, length};
ghost use Rattle.target_core.specs.Whole.{words_sum, cycles_sum, boot_sum, IsTooLong, IsWhole, RunsAs};
ghost use Rattle.avr_code.specs.Target.{avr_target};
ghost use Rattle.avr_emit.specs.Chip.{board_of};

use crate::chip::Avr;
use byte_code::prim::Prims;
use std::alloc::Global;
use target_core::assemble::{AsmFault, Assembled, assemble};

/// The words of a program of primitives that the ATmega16 admits. They run as the byte machine does, within the cycles that are given with them.
/// `CodeFull` comes exactly where the program has more words than the flash, which has 8192.
pub fn avr_words(alloc: Global, chip: &Avr, code: &Prims) -> Result<Assembled, AsmFault>
    requires whole { IsWhole (avr_target (board_of chip.now)) code.now }
    requires words { words_sum (avr_target (board_of chip.now)) code.now < 2 ^ 32 }
    requires cycles { cycles_sum (avr_target (board_of chip.now)) code.now < 2 ^ 32 }
    requires boot { boot_sum (avr_target (board_of chip.now)) code.now < 2 ^ 32 }
    ensures runs { IfOk result (λ a. RunsAs (avr_target (board_of chip.now)) code.now a.words a.cycles a.boot) }
    ensures full { IsTooLong (avr_target (board_of chip.now)) code.now ↔ (result ≡ Err (AsmFault.CodeFull (words_sum (avr_target (board_of chip.now)) code.now) 8192)) }
    ensures only_full { (need have : ℕ) → result ≡ Err (AsmFault.CodeFull need have) → IsTooLong (avr_target (board_of chip.now)) code.now }
    ensures length { IfOk result (λ a. length a.words ≡ words_sum (avr_target (board_of chip.now)) code.now) }
    ensures cycles { IfOk result (λ a. a.cycles ≡ cycles_sum (avr_target (board_of chip.now)) code.now) }
    ensures boot { IfOk result (λ a. a.boot ≡ boot_sum (avr_target (board_of chip.now)) code.now) }
{
    assemble(alloc, chip, code)
}
