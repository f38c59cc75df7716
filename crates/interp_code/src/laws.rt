//! Laws of texts, each the contract of a function that does nothing.

ghost use Rattle.std.specs.Prelude.{◌≡◌, ◌⊎◌, ℕ, ◌≤◌, List, length};
ghost use Rattle.texts.specs.Lines.{lines};
ghost use Rattle.texts.specs.Limits.{judged, is_over};
ghost use Rattle.texts.specs.declared.limits.TheConstants.{CODE_BYTES};
ghost use Rattle.interp_code.specs.declared.program.InterpProgram.{InterpProgram};
ghost use Rattle.interp_code.specs.Program.{IsProgram};
ghost use Rattle.interp_code.specs.Refused.{IsRefusedAt};

/// A text says one program at most. So reading what was written gives the program back.
pub fn one_program()
    ensures { (ls : List (List ℕ)) (p q : InterpProgram) → IsProgram ls p → IsProgram ls q → p ≡ q }
{}

/// Every text says a program or is refused at a line.
pub fn texts_say_programs_or_are_refused()
    ensures { (text : List ℕ) → ((p : InterpProgram) × IsProgram (lines text) p × (length text ≤ CODE_BYTES))
        ⊎ ((line : ℕ) × IsRefusedAt (is_over CODE_BYTES text) (lines (judged CODE_BYTES text)) line) }
{}
