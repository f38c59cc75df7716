//! Laws of printed projects, each the contract of a function that does nothing.

ghost use Rattle.std.specs.Prelude.{ℕ, List};
ghost use Rattle.ladder_tree.specs.declared.project.Project.{Project};
ghost use Rattle.ld_print.specs.Printed.{printed};
ghost use Rattle.ld_print.specs.SameButLines.{SameButLines};
ghost use Rattle.ld_text.specs.Text.{IsReadAs};

/// A project that was read is printed as a text that is read again, as the same project but for the lines that its
/// elements stand on.
pub fn printed_is_read()
    ensures { (text : List ℕ) (p : Project) → IsReadAs text p → (q : Project) × IsReadAs (printed p) q × SameButLines p q }
{}
