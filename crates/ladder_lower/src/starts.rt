//! The start values of variables.

ghost use Rattle.std.specs.Prelude.{◌≡◌, ◌≢◌, true, ℕ, List, ℤ, map, IfOk, IfSome, IfNone};
ghost use Rattle.ladder_tree.specs.Leaves.{all_leaves};
ghost use Rattle.ladder_tree.specs.Names.{all_named, firsts, variable_names};
ghost use Rattle.ladder_tree.specs.declared.element.LeafKind.{LeafKind};
ghost use Rattle.ladder_tree.specs.declared.element.TimerHow.{TimerHow};
ghost use Rattle.ladder_meaning.specs.Cycle.{start_by, start_number};
ghost use Rattle.ladder_lower.specs.Fit.{all_fit};
ghost use Rattle.ladder_lower.specs.Wires.{Fits};

use crate::layout::Layout;
use ladder_tree::element::{LeafKind, Name, Nums, TimerHow};
use ladder_tree::leaves::leaves_in_order;
use ladder_tree::project::Project;
use std::alloc::{AllocError, Global};

/// The start value of each variable: that of a TOF starts at its end, and any other at 0. Of several TOFs of one variable the
/// first in file order counts, so it is written last.
pub fn start_values(
    alloc: Global,
    project: &Project,
    layout: &Layout<'_>,
) -> Result<Nums, AllocError>
    requires fits { Fits layout.now 0 }
    requires cycle { layout.now.cycle ≢ 0 }
    requires fit { all_fit layout.now.cycle (all_leaves project.now.rungs) ≡ true }
    requires names { layout.now.variables ≡ firsts (all_named variable_names (all_leaves project.now.rungs)) }
    ensures { IfOk result (λ starts. starts ≡ map (start_number layout.now.cycle (all_leaves project.now.rungs)) layout.now.variables) }
{
    let leaves = leaves_in_order(alloc, project)?;
    let mut starts = vec![in alloc; 0i16; layout.variables.len()]?;
    for i in (0..leaves.len()).rev() {
        if let Some(timer) = off_delay(&leaves[i].kind) {
            starts[layout.variable_of(timer.name) as usize] = layout.period(timer.delay);
        }
    }
    Ok(Nums::from_vec(starts))
}

/// A TOF: its variable, and its delay in microseconds.
#[derive(Drop)]
struct OffDelay<'n> {
    name: &'n Name,
    delay: u32,
}

fn off_delay(kind: &LeafKind) -> Option<OffDelay<'_>>
    ensures some { IfSome result (λ timer. kind.now ≡ LeafKind.Timer TimerHow.Tof timer.name.now timer.delay) }
    ensures none { IfNone result ((cycle : ℕ) (name : List ℕ) (other : ℤ) → start_by cycle kind.now name other ≡ other) }
{
    match kind {
        LeafKind::Timer {
            how: TimerHow::Tof,
            name,
            delay,
        } => Some(OffDelay {
            name,
            delay: *delay,
        }),
        LeafKind::Timer {
            how: TimerHow::Ton | TimerHow::Rto,
            ..
        }
        | LeafKind::Contacts { .. }
        | LeafKind::Coil { .. }
        | LeafKind::Osr
        | LeafKind::Osf
        | LeafKind::Short
        | LeafKind::Open
        | LeafKind::MasterRelay
        | LeafKind::Placeholder
        | LeafKind::Comment { .. }
        | LeafKind::Counter { .. }
        | LeafKind::Reset { .. }
        | LeafKind::Move { .. }
        | LeafKind::Math { .. }
        | LeafKind::Compare { .. }
        | LeafKind::Shift { .. }
        | LeafKind::Table { .. }
        | LeafKind::ReadAdc { .. }
        | LeafKind::SetPwm { .. }
        | LeafKind::Recv { .. }
        | LeafKind::Send { .. }
        | LeafKind::Persist { .. }
        | LeafKind::Linear { .. }
        | LeafKind::Formatted { .. } => None,
    }
}
