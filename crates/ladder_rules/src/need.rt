//! What a project needs at most.

ghost use Rattle.std.specs.Prelude.{◌≡◌};
ghost use Rattle.ladder_tree.specs.Leaves.{all_leaves};
ghost use Rattle.ladder_rules.specs.Needs.{feature_cost, feature_words, word_need, cycle_cap, boot_cap};

use crate::cost::{Column, fixed, total};
use crate::legal::Legal;
use crate::limits::{F628_BOOT, F877_BOOT, MEGA16_BOOT, TOF_BOOT};
use crate::survey::{Feature, any_uses, count_tofs, row_of_feature};
use chip_tables::Target;
use ladder_tree::project::Project;

/// The most words of program flash that a chip's code has: 0 where the target is no chip. It takes no memory.
pub fn word_need(legal: &Legal) -> u32
    ensures { result ≡ word_need legal.now.project }
{
    let project = legal.project();
    total(Column::Words, project.target, project.rungs.as_slice()) + feature_words(project)
}

/// What the features that a project uses cost, each once.
fn feature_words(project: &Project) -> u32
    ensures { result ≡ feature_words project.now.target (all_leaves project.now.rungs) }
{
    feature_cost(Feature::Products, project)
        + (feature_cost(Feature::Quotients, project)
            + (feature_cost(Feature::Persistence, project)
                + (feature_cost(Feature::Serial, project)
                    + (feature_cost(Feature::Analog, project)
                        + feature_cost(Feature::Modulation, project)))))
}

/// The words of a feature, where the project uses it.
fn feature_cost(feature: Feature, project: &Project) -> u32
    ensures { result ≡ feature_cost project.now.target (all_leaves project.now.rungs) feature }
{
    if any_uses(feature, project.rungs.as_slice()) {
        fixed(Column::Words, project.target, row_of_feature(feature))
    } else {
        0
    }
}

/// The most instruction cycles in a cycle of the ladder, on a chip, or operations of the interpreter. It takes no memory.
pub fn cycle_cap(legal: &Legal) -> u32
    ensures { result ≡ cycle_cap legal.now.project }
{
    let project = legal.project();
    let rungs = project.rungs.as_slice();
    match project.target {
        Target::F628 | Target::F877 | Target::Mega16 => {
            total(Column::Cycles, project.target, rungs)
        }
        Target::Interp => total(Column::Ops, project.target, rungs),
        Target::AnsiC => 0,
    }
}

/// The most instruction cycles of a chip before the first cycle of the ladder. It takes no memory.
pub fn boot_cap(legal: &Legal) -> u32
    ensures { result ≡ boot_cap legal.now.project }
{
    let project = legal.project();
    let plain = match project.target {
        Target::F628 => F628_BOOT,
        Target::F877 => F877_BOOT,
        Target::Mega16 => MEGA16_BOOT,
        Target::Interp | Target::AnsiC => return 0,
    };
    plain + TOF_BOOT * count_tofs(project.rungs.as_slice())
}
