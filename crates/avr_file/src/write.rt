//! The HEX file of a project.

ghost use Rattle.std.specs.Prelude.{◌≡◌, ◌≤◌, true, length, IfOk};
ghost use Rattle.chip_tables.specs.declared.mega16.TheConstants.{FLASH_WORDS};
ghost use Rattle.chip_tables.specs.declared.target.Target.TheVariants.{Mega16};
ghost use Rattle.ladder_tree.specs.Leaves.{all_leaves};
ghost use Rattle.ladder_rules.specs.Needs.{word_need, cycle_cap, boot_cap};
ghost use Rattle.ladder_lower.specs.Fit.{all_fit};
ghost use Rattle.ladder_lower.specs.Outcome.{IsLowered};
ghost use Rattle.mem_plan.specs.Needs.{sizes_of};
ghost use Rattle.intel_hex.specs.Image.{IsImage};
ghost use Rattle.avr_gen.specs.Firmware.{IsBuilt};
ghost use Rattle.avr_file.specs.Carries.{CarriesHex};
ghost use Rattle.avr_file.specs.Written.{HasWords};

use avr_gen::firmware::{FirmwareFault, firmware};
use chip_tables::Target;
use int_code::op::IntProgram;
use intel_hex::image::Image;
use intel_hex::laws::written_is_read;
use intel_hex::write::write_hex;
use ladder_rules::Legal;
use ld_base::list::List;
use mem_plan::places::Plan;
use std::alloc::{AllocError, Global};
use texts::Text;

/// The HEX file of a project, and what its words take.
#[derive(Drop)]
pub struct HexFile {
    pub text: Text,
    /// How many words of program flash it fills.
    pub words: u32,
    /// The instruction cycles that pass at most in a cycle of the ladder.
    pub cycles: u32,
    /// And those before the first.
    pub boot: u32,
}

/// The image of words for the ATmega16.
fn image_of(alloc: Global, code: &[u16]) -> Result<Image, AllocError>
    requires { length code.now ≤ FLASH_WORDS }
    ensures fits { IfOk result IsImage }
    ensures target { IfOk result (λ i. i.target ≡ Mega16) }
    ensures words { IfOk result (λ i. i.words ≡ code.now) }
{
    let mut words = Vec::new(alloc);
    words.extend_from_slice(code)?;
    Ok(Image {
        target: Target::Mega16,
        words: List::from_vec(words),
        config: None,
    })
}

/// Compiles a project for the ATmega16, all of which is built and whose need of words the flash has.
pub fn compile_hex(
    alloc: Global,
    legal: &Legal,
    program: &IntProgram,
    plan: &Plan,
) -> Result<HexFile, AllocError>
    requires target { legal.now.project.target ≡ Mega16 }
    requires fit { all_fit legal.now.project.cycle (all_leaves legal.now.project.rungs) ≡ true }
    requires lowered { IsLowered legal.now.names legal.now.project program.now }
    requires plan { plan.now.target ≡ Mega16 }
    requires sizes { plan.now.sizes ≡ sizes_of program.now }
    requires built { IsBuilt legal.now.project program.now }
    requires room { word_need legal.now.project ≤ FLASH_WORDS }
    ensures carries { IfOk result (λ f. CarriesHex legal.now.project f.text f.cycles f.boot) }
    ensures words { IfOk result (λ f. HasWords f.text f.words) }
    ensures cycles { IfOk result (λ f. f.cycles ≤ cycle_cap legal.now.project) }
    ensures boot { IfOk result (λ f. f.boot ≤ boot_cap legal.now.project) }
{
    let made = match firmware(alloc, legal, program, plan) {
        Ok(made) => made,
        Err(FirmwareFault::Memory(e)) => return Err(e),
        Err(FirmwareFault::NotBuilt) => unreachable!(),
        Err(FirmwareFault::CodeFull { .. }) => unreachable!(),
    };
    let image = image_of(alloc, made.words.as_slice())?;
    written_is_read();
    let text = write_hex(alloc, &image)?;
    Ok(HexFile {
        text,
        words: image.words.len() as u32,
        cycles: made.cycles,
        boot: made.boot,
    })
}
