//! Laws of code, each the contract of a function that does nothing.

ghost use Rattle.byte_lower.specs.Code.{CanPlace, Carries, code_of};
ghost use Rattle.byte_lower.specs.Placed.{FormedIsPlaced};
ghost use Rattle.byte_lower.specs.Samples.{rises, IsAtPortB};
ghost use Rattle.byte_lower.specs.declared.layout.Layout.{Layout};

/// A program that counts the rises of an input can be placed, and its code does in each cycle what its operations do.
pub fn rises_are_counted()
    ensures placed { (o : Layout) → IsAtPortB o → CanPlace o rises }
    ensures carried { (o : Layout) → IsAtPortB o → Carries o rises (code_of o rises) }
{}

/// A well-formed program whose operations are all lowered can be placed by a plan that was made for it, if it has a bit for each wire.
#[tactic(auto, using(crate::proofs::FormedLemmas::formed_is_placed))]
pub fn formed_is_placed()
    ensures { FormedIsPlaced }
{}
