//! Laws of the byte machine, each the contract of a function that does nothing.

ghost use Rattle.std.specs.Prelude.{◌≡◌, ◌<◌, ℕ, true, false, List, [], ◌∷◌, Bool, Some};
ghost use Rattle.chip_tables.specs.Scratch.{scratch_of, wire_of};
ghost use Rattle.chip_tables.specs.declared.scratch.CellBit.{CellBit};
ghost use Rattle.chip_tables.specs.declared.scratch.Scratch.{Scratch};
ghost use Rattle.chip_tables.specs.declared.target.Target.{Target};
ghost use Rattle.chip_tables.specs.declared.target.Target.TheVariants.{Mega16};
ghost use Rattle.byte_code.specs.Lowered.{IsListed, Cpy, Fi};
ghost use Rattle.chip_tables.specs.declared.mega16.TheConstants.{SRAM_FIRST};
ghost use Rattle.chip_tables.specs.declared.outside.PinReading.{PinReading};
ghost use Rattle.byte_code.specs.declared.state.Bytes.{Bytes};
ghost use Rattle.byte_code.specs.Store.{word_at};
ghost use Rattle.byte_code.specs.Counts.{KeepsCounts};
ghost use Rattle.byte_code.specs.Admitted.{admits, is_scratch, keeps_to_scratch};
ghost use Rattle.byte_code.specs.Samples.{copier, by_twos, IsFresh, AtPolls, IsCopied, IsByTwos, one_to_one, other_way};
ghost use Rattle.std.specs.List.{list_all};

/// A program that copies a pin to a pin in each cycle begins each primitive as often as it says, and copies.
pub fn copier_copies()
    ensures counts { (s : Bytes) (readings : List PinReading) (answers : List Bool) → IsFresh s → KeepsCounts copier s readings answers }
    ensures copies { (s : Bytes) (readings : List PinReading) (answers : List Bool) → IsFresh s → AtPolls copier s readings answers (IsCopied readings) }
{}

/// A program that calls a routine from two places begins each primitive as often as it says, and counts by twos.
pub fn routine_is_called_twice()
    ensures counts { (s : Bytes) (readings : List PinReading) (answers : List Bool) → IsFresh s → KeepsCounts by_twos s readings answers }
    ensures counts_on { (s : Bytes) (readings : List PinReading) (answers : List Bool) → IsFresh s → AtPolls by_twos s readings answers (IsByTwos (word_at s.store SRAM_FIRST)) }
{}

/// The copier and the program with the routine may stand in code for a project whose pins they use, and the copier in none whose input it writes.
pub fn samples_are_admitted()
    ensures copier { list_all (λ p. admits one_to_one p.prim) copier ≡ true }
    ensures by_twos { list_all (λ p. admits one_to_one p.prim) by_twos ≡ true }
    ensures other { list_all (λ p. admits other_way p.prim) copier ≡ false }
{}

/// The copier may be the code of one operation, which copies a pin to a pin, and of none that is less.
pub fn copier_is_listed()
    ensures listed { IsListed Mega16 0 [] (Cpy false false ∷ []) copier }
    ensures less { IsListed Mega16 0 [] (Fi ∷ []) copier → ⊥ }
{}

/// The wires are bits of the compiler's cells, and all else that it keeps is in them, so that code may use them.
pub fn scratch_is_the_compilers()
    ensures wires { (t : Target) (w : ℕ) (c : CellBit) → wire_of t w ≡ Some c → (is_scratch t c.address ≡ true) × (c.bit < 8) }
    ensures cells { (t : Target) (s : Scratch) → scratch_of t ≡ Some s → keeps_to_scratch t s ≡ true }
{}
