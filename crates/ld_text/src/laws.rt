//! Laws of project texts, each the contract of a function that does nothing.

ghost use Rattle.std.specs.Prelude.{◌≡◌, ℕ, ◌+◌, ◌<◌, ◌≤◌, List, ◌++◌, length, None, Some};
ghost use Rattle.ladder_tree.specs.declared.fault.ProjectFault.{ProjectFault};
ghost use Rattle.ladder_tree.specs.declared.project.Project.{Project};
ghost use Rattle.texts.specs.declared.limits.TheConstants.{FILE_BYTES};
ghost use Rattle.ld_text.specs.Lines.{Line};
ghost use Rattle.ld_text.specs.Text.{IsProject, IsReadAs, IsRefusedAlike, text_fault, early_fault, judged};
ghost use Rattle.ld_text.specs.Within.{IsWithin};

/// Lines stand for one project at most.
pub fn lines_have_one_project()
    ensures { (ls : List Line) (p q : Project) → IsProject ls p → IsProject ls q → p ≡ q }
{}

/// A text without a fault stands for a project.
pub fn faultless_texts_have_a_project()
    ensures { (text : List ℕ) → text_fault text ≡ None → (p : Project) × IsReadAs text p }
{}

/// A project that a text stands for keeps the limits.
pub fn projects_of_texts_are_within()
    ensures { (text : List ℕ) (p : Project) → IsReadAs text p → IsWithin p }
{}

/// No text is both read and refused.
pub fn no_text_is_read_and_refused()
    ensures { (text : List ℕ) (p : Project) (fault : ProjectFault) → IsReadAs text p → text_fault text ≡ Some fault → ⊥ }
{}

/// What is refused early stays refused, whatever follows, for the same fault.
pub fn early_faults_stay()
    ensures whole { (text more : List ℕ) (fault : ProjectFault) → early_fault text ≡ Some fault → text_fault (text ++ more) ≡ Some fault }
    ensures part { (text more : List ℕ) (fault : ProjectFault) → length text ≤ FILE_BYTES + 1 → early_fault text ≡ Some fault → text_fault (judged (text ++ more)) ≡ Some fault }
{}

/// Of a text that is longer than its limit no more is read than the limit and one byte. The text is refused all the same, and at the same line: that of
/// its first byte past the limit, or an earlier one. Whatever follows that line changes nothing.
pub fn texts_may_be_cut()
    ensures short { (text : List ℕ) → length text ≤ FILE_BYTES → judged text ≡ text }
    ensures long { (text : List ℕ) → FILE_BYTES < length text → IsRefusedAlike text }
{}
