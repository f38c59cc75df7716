//! Laws of runs on chips, each the contract of a function that does nothing.

ghost use Rattle.chip_tables.specs.declared.settings.Settings.{Settings};
ghost use Rattle.chip_run.specs.Agree.{CarriedAgree};
ghost use Rattle.chip_run.specs.AtPins.{ReadingsStand, ReadingsStandOnce};
ghost use Rattle.chip_run.specs.LinesAgree.{LinesAgree};
ghost use Rattle.chip_run.specs.ShownAgree.{ShownAgree};

use crate::machine::ChipMachine;

/// Over words that carry a project, the run from reset over any readings of the chip takes each of them, and behind each the chip shows the ladder's state
/// and sent the ladder's byte.
pub fn carried_words_agree<M: ChipMachine>()
    ensures { (settings : Settings) → CarriedAgree M.chip (M.resets settings) }
{}

/// Where a chip shows a ladder's state, what is shown of the chip is what is shown of the ladder.
pub fn what_is_shown_agrees()
    ensures { ShownAgree }
{}

/// Over words that carry a project, the lines of the run from reset are those of the ladder over the trace.
pub fn lines_agree<M: ChipMachine>()
    ensures { (settings : Settings) → LinesAgree M.chip (M.resets settings) }
{}

/// Readings of a chip stand at the pins of a project that keeps the rules in one way, and in no other.
pub fn readings_stand_at_pins()
    ensures once { ReadingsStandOnce }
    ensures stand { ReadingsStand }
{}
