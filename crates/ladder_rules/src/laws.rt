//! Laws of the rules, each the contract of a function that does nothing.

ghost use Rattle.std.specs.Prelude.{◌≡◌, ◌↔◌, true, Some, None};
ghost use Rattle.ladder_tree.specs.Leaves.{all_leaves};
ghost use Rattle.ladder_tree.specs.Names.{names_of};
ghost use Rattle.ladder_tree.specs.declared.project.Project.{Project};
ghost use Rattle.ladder_tree.specs.declared.fault.ProjectFault.{ProjectFault};
ghost use Rattle.ladder_rules.specs.Assigned.{HavePins};
ghost use Rattle.ladder_rules.specs.Pins.{is_chip};
ghost use Rattle.ladder_rules.specs.Twice.{AreClear, IsFirstFault};
ghost use Rattle.ladder_rules.specs.Verdict.{pin_twice, rule};

/// PinTwice is told, on a chip, exactly of the first element in file order whose pin an earlier element needs for another name: with its line and
/// the pin. It is not told exactly where no two elements need one pin for two names.
pub fn pin_twice_tells_the_first()
    ensures told { (p : Project) (f : ProjectFault) → is_chip p.target ≡ true → (pin_twice p ≡ Some f) ↔ IsFirstFault p f }
    ensures untold { (p : Project) → is_chip p.target ≡ true → (pin_twice p ≡ None) ↔ AreClear p (all_leaves p.rungs) }
{}

/// Where no rule is broken on a chip, each input and output has a pin that carries a port bit, each analog name the pin of a channel, and no two
/// of one list the same.
pub fn names_have_pins()
    ensures { (p : Project) → is_chip p.target ≡ true → rule p ≡ None → HavePins p (names_of p.rungs) }
{}
