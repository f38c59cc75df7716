//! The words of a project's program for the ATmega16.

ghost use Rattle.std.specs.Prelude.{◌≡◌, ◌↔◌, ◌<◌, ◌^◌, ℕ, [], true, false, All, Some, None, IfOk, length, map};
ghost use Rattle.chip_tables.specs.declared.settings.Settings.{Settings};
ghost use Rattle.chip_tables.specs.declared.target.Target.TheVariants.{Mega16};
ghost use Rattle.ladder_tree.specs.Leaves.{all_leaves};
ghost use Rattle.ladder_rules.specs.Settings.{settings_of};
ghost use Rattle.ladder_lower.specs.Fit.{all_fit};
ghost use Rattle.ladder_lower.specs.Outcome.{IsLowered};
ghost use Rattle.mem_plan.specs.Needs.{sizes_of};
ghost use Rattle.target_core.specs.Whole.{words_sum, cycles_sum, boot_sum, RunsAs};
ghost use Rattle.byte_lower.specs.Code.{CanPlace, code_of};
ghost use Rattle.byte_lower.specs.Lists.{is_built};
ghost use Rattle.avr_code.specs.Target.{avr_target};
ghost use Rattle.avr_gen.specs.Admission.{board_of};
ghost use Rattle.avr_gen.specs.Boards.{IsBoardFor};
ghost use Rattle.avr_gen.specs.Firmware.{IsBuilt, IsNotBuilt, IsFirmware, IsCodeFull};

use crate::laws::{assembled_words_carry, board_of_legal, kept_is_admitted, sums_fit};
use avr_emit::chip::Avr;
use avr_emit::program::avr_words;
use byte_lower::layout::Layout;
use byte_lower::operation::is_built;
use byte_lower::pins::layout_of;
use byte_lower::program::lower_bytes;
use chip_compile::laws::linked_is_placed;
use chip_tables::Settings;
use int_code::op::{IntOp, IntProgram};
use ladder_rules::Legal;
use ladder_tree::peripheral::any_pwm;
use mem_plan::places::Plan;
use std::alloc::{AllocError, Global};
use target_core::assemble::{AsmFault, Assembled};

/// Why a project has no words.
#[derive(Clone, Copy, Debug, PartialEq, Eq)]
pub enum FirmwareFault {
    /// Some of it is not built for the ATmega16 yet.
    NotBuilt,
    /// Its code has `need` words, and the flash has `have`, which are fewer.
    CodeFull { need: u32, have: u32 },
    /// Memory was refused.
    Memory(AllocError),
}

/// Whether all operations are lowered.
fn all_built(ops: &[IntOp]) -> bool
    ensures { (result ≡ true) ↔ All (λ op. is_built op ≡ true) ops.now }
{
    ops.iter().all(is_built)
}

/// Whether all that a project does is built.
fn is_covered(legal: &Legal, program: &IntProgram) -> bool
    ensures { (result ≡ true) ↔ IsBuilt legal.now.project program.now }
{
    all_built(program.ops.as_slice())
        && legal.names().analog.is_empty()
        && !any_pwm(legal.project().rungs.as_slice())
}

/// The words of a program for which a layout has the places. `CodeFull` comes exactly where they are more than the flash has.
fn layout_words(
    alloc: Global,
    layout: Layout,
    program: &IntProgram,
    settings: Settings,
) -> Result<Assembled, AsmFault>
    requires board { IsBoardFor layout (board_of layout settings) }
    requires can { CanPlace layout program.now }
    ensures runs { IfOk result (λ a. RunsAs (avr_target (board_of layout settings)) (code_of layout program.now) a.words a.cycles a.boot) }
    ensures length { IfOk result (λ a. length a.words ≡ words_sum (avr_target (board_of layout settings)) (code_of layout program.now)) }
    ensures cycles { IfOk result (λ a. a.cycles ≡ cycles_sum (avr_target (board_of layout settings)) (code_of layout program.now)) }
    ensures boot { IfOk result (λ a. a.boot ≡ boot_sum (avr_target (board_of layout settings)) (code_of layout program.now)) }
    ensures full { (need have : ℕ) → result ≡ Err (AsmFault.CodeFull need have) → (need ≡ words_sum (avr_target (board_of layout settings)) (code_of layout program.now)) × (have ≡ 8192) × (8192 < need) }
{
    kept_is_admitted();
    sums_fit();
    let code = match lower_bytes(alloc, &layout, program) {
        Ok(code) => code,
        Err(e) => return Err(AsmFault::Memory(e)),
    };
    let chip = Avr {
        alloc,
        outputs: layout.outputs,
        settings,
    };
    avr_words(alloc, &chip, &code)
}

/// The words of a project's program, which carry the project: the ATmega16 is never stuck, and each time that it asks for a reading it shows how the ladder's
/// cycle ended, within the cycles that are given with them. `NotBuilt` comes exactly where something that the project does is not built. `CodeFull` comes
/// only where its code has more words than the flash, and so never where the rules count the flash as enough.
pub fn firmware(
    alloc: Global,
    legal: &Legal,
    program: &IntProgram,
    plan: &Plan,
) -> Result<Assembled, FirmwareFault>
    requires target { legal.now.project.target ≡ Mega16 }
    requires fit { all_fit legal.now.project.cycle (all_leaves legal.now.project.rungs) ≡ true }
    requires lowered { IsLowered legal.now.names legal.now.project program.now }
    requires plan { plan.now.target ≡ Mega16 }
    requires sizes { plan.now.sizes ≡ sizes_of program.now }
    ensures built { (result ≡ Err FirmwareFault.NotBuilt) ↔ IsNotBuilt legal.now.project program.now }
    ensures ok { (settings : Settings) → settings_of legal.now.project ≡ Some settings → IfOk result (IsFirmware legal.now.project program.now settings) }
    ensures full { (settings : Settings) → settings_of legal.now.project ≡ Some settings → (need have : ℕ) → result ≡ Err (FirmwareFault.CodeFull need have) → IsCodeFull legal.now.project program.now settings need × (have ≡ 8192) }
{
    let settings = legal.settings().unwrap();
    if !is_covered(legal, program) {
        return Err(FirmwareFault::NotBuilt);
    }
    let layout = match layout_of(alloc, legal, plan) {
        Ok(layout) => layout,
        Err(e) => return Err(FirmwareFault::Memory(e)),
    };
    board_of_legal();
    linked_is_placed();
    assembled_words_carry();
    match layout_words(alloc, layout, program, settings) {
        Ok(words) => Ok(words),
        Err(AsmFault::CodeFull { need, have }) => Err(FirmwareFault::CodeFull { need, have }),
        Err(AsmFault::Memory(e)) => Err(FirmwareFault::Memory(e)),
    }
}
