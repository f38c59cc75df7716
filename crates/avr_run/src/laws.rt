//! Laws of runs of the ATmega16, each the contract of a function that does nothing.

ghost use Rattle.std.specs.Prelude.{ℕ, List};
ghost use Rattle.avr_chip.specs.Machine.{avr_chip};
ghost use Rattle.chip_run.specs.Agree.{TakesCycles};

/// Each step of the ATmega16 takes a cycle at least, whatever its flash holds.
pub fn steps_take_cycles()
    ensures { (flash : List ℕ) → TakesCycles avr_chip flash }
{}
