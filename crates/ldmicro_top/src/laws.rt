//! Laws of what a run answers, each the contract of a function that does nothing.

ghost use Rattle.std.specs.Prelude.{◌≡◌, ℕ, true, List};
ghost use Rattle.ld_base.specs.Bytes.{Held};
ghost use Rattle.ladder_trace.specs.Simulated.{simulated};
ghost use Rattle.ladder_trace.specs.declared.trace.Trace.{Trace};
ghost use Rattle.ladder_tree.specs.declared.project.Project.{Project};
ghost use Rattle.ldmicro_top.specs.declared.status.Status.{Status};
ghost use Rattle.ldmicro_top.specs.declared.status.Status.TheVariants.{Ok};
ghost use Rattle.ldmicro_top.specs.Agree.{MayShow};
ghost use Rattle.ldmicro_top.specs.Carries.{Carries};
ghost use Rattle.ldmicro_top.specs.Command.{Command};
ghost use Rattle.ldmicro_top.specs.Expected.{Expected};
ghost use Rattle.ldmicro_top.specs.HasMachine.{has_machine};
ghost use Rattle.ldmicro_top.specs.Replays.{Replays};

/// Of the words and of what the names hold, one answer at most is expected.
pub fn one_answer_is_expected()
    ensures { (command : Command) (held : Held) (a b : Status) → Expected command held a → Expected command held b → a ≡ b }
{}

/// And one at least.
pub fn an_answer_is_expected()
    ensures { (command : Command) (held : Held) → (answer : Status) × Expected command held answer }
{}

/// On a target with a machine bytes that carry a project run over every trace, print the lines of the ladder's meaning, and nothing else: after Ok of `/c`, `/r` prints what
/// `/s` prints, and ends with Ok. On a chip that holds of a trace of the project's names, where no cycle of the ladder takes a million instruction cycles.
pub fn replay_agrees()
    ensures runs { (p : Project) (code : List ℕ) (cycles boot : ℕ) (trace : Trace) → has_machine p.target ≡ true → MayShow p trace cycles boot → Carries p code cycles boot
        → Replays p code trace (simulated p trace) Ok }
    ensures only { (p : Project) (code : List ℕ) (cycles boot : ℕ) (trace : Trace) (printed : List ℕ) (ending : Status)
        → MayShow p trace cycles boot → Carries p code cycles boot → Replays p code trace printed ending → (printed ≡ simulated p trace) × (ending ≡ Ok) }
{}
