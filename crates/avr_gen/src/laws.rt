//! Laws of code for the ATmega16, each the contract of a function that does nothing.

ghost use Rattle.avr_gen.specs.Admission.{KeptIsAdmitted, KeptIsWhole, PlacedIsWhole, LegalHasBoard};
ghost use Rattle.avr_gen.specs.Carried.{AssembledCarry};
ghost use Rattle.avr_gen.specs.Need.{LinkedIsWithinNeed};
ghost use Rattle.avr_gen.specs.Sums.{SumsFit};

/// What uses only what a layout of the ATmega16 has is admitted: each primitive, and code in which each label that is named stands.
pub fn kept_is_admitted()
    ensures admitted { KeptIsAdmitted }
    ensures whole { KeptIsWhole }
    ensures placed { PlacedIsWhole }
{}

/// The layout of a project that keeps the rules has a board.
pub fn board_of_legal()
    ensures { LegalHasBoard }
{}

/// The words and cycles of a program's code, and its cycles in front of the first reading, are numbers of 32 bits.
pub fn sums_fit()
    ensures { SumsFit }
{}

/// Words of which the assembler says that they run as the code of a project's program does carry the project.
pub fn assembled_words_carry()
    ensures { AssembledCarry }
{}

/// And they are no more than the rules count for a project that keeps them.
pub fn linked_is_within_need()
    ensures { LinkedIsWithinNeed }
{}
