//! Laws of the ATmega16's words and cycles, each the contract of a function that does nothing.

ghost use Rattle.avr_cost.specs.Kept.{KeepsItsTable};
ghost use Rattle.avr_cost.specs.Taken.{SumsWithinKinds};

/// The words and cycles of code are within what is said of the kinds of its primitives.
pub fn sums_within_kinds()
    ensures { SumsWithinKinds }
{}

/// And what is said of the kinds keeps to the table of costs.
pub fn keeps_table()
    ensures { KeepsItsTable }
{}
