//! Whether a project can be compiled: whether it keeps the rules, and its target has room for what it keeps.

ghost use Rattle.std.specs.Prelude.{◌≡◌, None, Some, IfOk, IfErr};
ghost use Rattle.ladder_lower.specs.Outcome.{IsSmall};
ghost use Rattle.ld_text.specs.Within.{IsWithin};
ghost use Rattle.ldmicro_top.specs.Judged.{IsJudged, IsTurnedDown};
ghost use Rattle.ldmicro_top.specs.Verdict.{refusal_of, misfit, verdict};

use crate::kept::kept_of;
use chip_tables::Target;
use ladder_rules::{Legal, check};
use ladder_tree::fault::ProjectFault;
use ladder_tree::names::{Names, names_in_order};
use ladder_tree::project::Project;
use ld_text::fault::TextError;
use mem_plan::fault::PlanFault;
use mem_plan::plan::place;
use std::alloc::Global;

/// The refusal of what its target has no room for.
fn refusal(fault: PlanFault) -> ProjectFault
    ensures { result ≡ refusal_of fault }
{
    match fault {
        PlanFault::RamFull { need, have } => ProjectFault::RamFull { need, have },
        PlanFault::EepromFull { need, have } => ProjectFault::EepromFull { need, have },
    }
}

/// Whether the target has room for what is kept of the names.
fn fit(names: &Names, target: Target) -> Result<(), ProjectFault>
    requires { IsSmall names.now }
    ensures ok { IfOk result (λ u. misfit target names.now ≡ None) }
    ensures err { IfErr result (λ fault. misfit target names.now ≡ Some fault) }
{
    match place(kept_of(names), target) {
        Ok(_) => Ok(()),
        Err(fault) => Err(refusal(fault)),
    }
}

/// Judges a project that was read: it is refused for the first rule that it breaks, or else for the memory that it does not fit.
pub fn judge(alloc: Global, project: Project) -> Result<Legal, TextError>
    requires { IsWithin project }
    ensures accepted { IfOk result (λ l. (l.project ≡ project) × (verdict project ≡ None)) }
    ensures judged { IfOk result (λ l. IsJudged l.names l.project) }
    ensures refused { IfErr result (IsTurnedDown project) }
{
    let names = names_in_order(alloc, &project)?;
    let legal = match check(project, names) {
        Ok(legal) => legal,
        Err(fault) => return Err(TextError::Refused(fault)),
    };
    match fit(legal.names(), legal.project().target) {
        Ok(()) => Ok(legal),
        Err(fault) => Err(TextError::Refused(fault)),
    }
}
