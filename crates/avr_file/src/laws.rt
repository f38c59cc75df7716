//! Laws of HEX files for the ATmega16, each the contract of a function that does nothing.

ghost use Rattle.avr_file.specs.Agree.{RunsOnce, RunsSomehow, FileAgrees};

/// A file's image runs over a trace of the project's names in exactly one way.
pub fn a_file_runs_in_one_way()
    ensures once { RunsOnce }
    ensures somehow { RunsSomehow }
{}

/// A file that carries a project prints, over each trace, the lines of the ladder.
pub fn carried_lines_agree()
    ensures { FileAgrees }
{}
