//! What is kept of a project from cycle to cycle.

ghost use Rattle.std.specs.Prelude.{◌≡◌};
ghost use Rattle.ladder_lower.specs.Outcome.{IsSmall};
ghost use Rattle.mem_plan.specs.Needs.{AreNumbers};
ghost use Rattle.ldmicro_top.specs.Judged.{IsJudged};
ghost use Rattle.ldmicro_top.specs.Verdict.{kept_of};

use ladder_rules::Legal;
use ladder_tree::names::Names;
use mem_plan::places::Plan;
use mem_plan::plan::place;
use mem_plan::sizes::Sizes;

/// What is kept of the names from cycle to cycle: variables, and a bit for each relay, memory and start flag of a persistent variable.
pub fn kept_of(names: &Names) -> Sizes
    requires { IsSmall names.now }
    ensures sizes { result ≡ kept_of names.now }
    ensures numbers { AreNumbers result }
{
    let persistent = names.persistent.len() as u32;
    Sizes {
        variables: names.variables.len() as u32,
        kept_bits: names.relays.len() as u32 + (names.memories + persistent),
        persistent,
    }
}

/// Where a project that was judged keeps its variables and bits on its target.
pub fn plan_of(legal: &Legal) -> Plan
    requires { IsJudged legal.now.names legal.now.project }
    ensures target { result.target ≡ legal.now.project.target }
    ensures sizes { result.sizes ≡ kept_of legal.now.names }
{
    place(kept_of(legal.names()), legal.project().target).unwrap()
}
