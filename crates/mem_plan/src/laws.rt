//! Laws of the places, each the contract of a function that does nothing.

ghost use Rattle.std.specs.Prelude.{ℕ};
ghost use Rattle.chip_tables.specs.declared.target.Target.{Target};
ghost use Rattle.mem_plan.specs.Apart.{AreApart};

/// On a chip the two bytes of a variable follow one another, and no two variables or kept bits share a place.
pub fn places_are_apart()
    ensures { (target : Target) (variables : ℕ) → AreApart target variables }
{}
