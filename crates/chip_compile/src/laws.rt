//! Laws of programs on chips, each the contract of a function that does nothing.

ghost use Rattle.chip_compile.specs.Placed.{LinkedIsPlaced};

/// The program of a project that keeps the rules has its places on the chip, where all of its operations are lowered.
pub fn linked_is_placed()
    ensures { LinkedIsPlaced }
{}
