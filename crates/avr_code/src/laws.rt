//! Laws of the ATmega16's code, each the contract of a function that does nothing.

ghost use Rattle.std.specs.Prelude.{◌≡◌, ℕ, List, length, slice_index};
ghost use Rattle.std.specs.List.{list_any};
ghost use Rattle.chip_tables.specs.Bits.{bit_of};
ghost use Rattle.chip_tables.specs.declared.pins.PortBit.{PortBit};
ghost use Rattle.chip_tables.specs.Scratch.{avr_scratch};
ghost use Rattle.chip_tables.specs.declared.mega16.TheConstants.{SRAM_BYTES};
ghost use Rattle.chip_tables.specs.declared.target.Target.TheVariants.{Mega16};
ghost use Rattle.byte_code.specs.State.{fresh};
ghost use Rattle.target_core.specs.Law.{MachineLaw};
ghost use Rattle.avr_mach.specs.Reset.{reset_state};
ghost use Rattle.avr_code.specs.Code.{Board, direction};
ghost use Rattle.avr_code.specs.Stands.{HasCells, StandsAt, is_pin};
ghost use Rattle.avr_code.specs.Target.{avr_target};

/// The code of each primitive that is admitted leads the written ATmega16 to what the primitive comes to, within its words and its cycles.
pub fn code_is_lawful()
    ensures { (board : Board) → MachineLaw (avr_target board) }
{}

/// Whatever its registers and its SRAM hold, the ATmega16 at reset stands for the byte machine in front of its first step, with these cells and this EEPROM.
#[tactic(auto, using(crate::proofs::Resets::reset_stands))]
pub fn reset_is_fresh()
    ensures { (sram regs eeprom cells : List ℕ) (board : Board) (places : List ℕ) → length regs ≡ 32 → length sram ≡ SRAM_BYTES →
        HasCells cells regs sram → slice_index places 0 ≡ 0 →
        StandsAt board places (reset_state sram regs eeprom board.settings) (fresh Mega16 cells eeprom avr_scratch).bytes }
{}

/// Of the bits of a port's direction those are 1 whose pins are outputs of the board, and no others: an output is driven, and any other pin is not.
#[tactic(auto, using(crate::proofs::Driven::driven))]
pub fn outputs_are_driven()
    ensures { (outputs : List PortBit) (port b : ℕ) → bit_of (direction outputs port) b ≡ list_any (is_pin port b) outputs }
{}
