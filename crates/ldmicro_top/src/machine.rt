//! Which targets have a machine.

ghost use Rattle.std.specs.Prelude.{◌≡◌};
ghost use Rattle.ldmicro_top.specs.HasMachine.{has_machine};

use chip_tables::Target;

/// Whether the target's code runs on a machine that is written here.
pub fn has_machine(target: Target) -> bool
    ensures { result ≡ has_machine target }
{
    match target {
        Target::F628 | Target::F877 | Target::Mega16 | Target::Interp => true,
        Target::AnsiC => false,
    }
}
