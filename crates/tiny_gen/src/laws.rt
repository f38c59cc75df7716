//! A law of the tiny machine, the contract of a function that does nothing.

ghost use Rattle.std.specs.Prelude.{List, ℕ};
ghost use Rattle.byte_code.specs.Samples.{copier};
ghost use Rattle.target_core.specs.Whole.{RunsAs};
ghost use Rattle.tiny_gen.specs.Code.{tiny_target};
ghost use Rattle.tiny_gen.specs.Copier.{Copies};

use byte_code::laws::copier_copies;

/// Words that run as the copier does on the byte machine copy: it follows from what the assembler ensures of its words, and from what the byte machine
/// does.
pub fn copier_words_copy()
    ensures { (words : List ℕ) (cycles boot : ℕ) → RunsAs tiny_target copier words cycles boot → Copies words cycles boot }
{
    copier_copies();
}
