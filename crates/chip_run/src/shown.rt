//! What a chip shows of a project's names.

ghost use Rattle.std.specs.Prelude.{◌≡◌, ◌<◌, ◌≤◌, ◌^◌, map, IfOk};
ghost use Rattle.ladder_meaning.specs.View.{firsts, bytes_of};
ghost use Rattle.ladder_rules.specs.Assigned.{name_bit};
ghost use Rattle.mem_plan.specs.Places.{IsChip};
ghost use Rattle.chip_run.specs.Shown.{shown_of, latch_at, cell_at, kept_bit, number_at, IsPlanOf};

use crate::machine::ChipMachine;
use chip_tables::{PortBit, Target, bit_of, ram_byte};
use ladder_meaning::reading::{Bits, View};
use ladder_rules::{Legal, name_bit};
use ladder_tree::element::{Bytes, Name, Nums};
use ladder_tree::project::Project;
use mem_plan::places::Plan;
use std::alloc::{AllocError, Global};

/// What a chip shows of a project's names where it is at the end of a cycle that sent this byte. The project sets no duty.
pub fn shown<M: ChipMachine>(
    alloc: Global,
    l: &Legal,
    plan: &Plan,
    machine: &M,
    sent: Option<u8>,
) -> Result<View, AllocError>
    requires { IsPlanOf l.now.project l.now.names plan.now }
    ensures { IfOk result (λ v. v ≡ shown_of l.now.project l.now.names (M.chip.view machine.now) sent) }
{
    let names = l.names();
    let sizes = plan.sizes();
    Ok(View {
        outputs: outputs(alloc, l.project(), names.outputs.as_slice(), machine)?,
        relays: kept_bits(alloc, plan, names.relays.len() as u32, machine)?,
        variables: numbers(alloc, plan.target(), sizes.variables, machine)?,
        pwm: None,
        sent,
        eeprom: saved(alloc, sizes.persistent, machine)?,
    })
}

/// The latches at the pins of outputs.
fn outputs<M: ChipMachine>(
    alloc: Global,
    project: &Project,
    names: &[Name],
    machine: &M,
) -> Result<Bits, AllocError>
    ensures { IfOk result (λ levels. levels ≡ map (λ name. latch_at (M.chip.view machine.now) (name_bit project.now name)) names.now) }
{
    let mut levels = Bits::new(alloc);
    for name in names {
        levels.push(latch(machine, name_bit(project, name)))?;
    }
    Ok(levels)
}

fn latch<M: ChipMachine>(machine: &M, place: Option<PortBit>) -> bool
    ensures { result ≡ latch_at (M.chip.view machine.now) place }
{
    match place {
        Some(b) => machine.latch(b),
        None => false,
    }
}

/// The first kept bits.
fn kept_bits<M: ChipMachine>(
    alloc: Global,
    plan: &Plan,
    count: u32,
    machine: &M,
) -> Result<Bits, AllocError>
    requires chip { IsChip plan.now.target }
    requires within { count ≤ plan.now.sizes.kept_bits }
    ensures { IfOk result (λ levels. levels ≡ firsts count (kept_bit plan.now.target plan.now.sizes.variables (M.chip.view machine.now))) }
{
    let mut levels = Bits::new(alloc);
    for bit in 0..count {
        levels.push(kept_bit(plan, machine, bit))?;
    }
    Ok(levels)
}

/// A kept bit.
fn kept_bit<M: ChipMachine>(plan: &Plan, machine: &M, bit: u32) -> bool
    requires chip { IsChip plan.now.target }
    requires within { bit < plan.now.sizes.kept_bits }
    ensures { result ≡ kept_bit plan.now.target plan.now.sizes.variables (M.chip.view machine.now) bit }
{
    let place = plan.bit_of(bit);
    bit_of(machine.cell(place.address), place.bit)
}

/// The numbers of the first variables.
fn numbers<M: ChipMachine>(
    alloc: Global,
    target: Target,
    count: u32,
    machine: &M,
) -> Result<Nums, AllocError>
    requires { count ≤ 2 ^ 16 }
    ensures { IfOk result (λ all. all ≡ firsts count (number_at target (M.chip.view machine.now))) }
{
    let mut numbers = Nums::new(alloc);
    for variable in 0..count {
        numbers.push(number(target, machine, variable))?;
    }
    Ok(numbers)
}

/// The number of a variable.
#[tactic(auto, using(int_code::proofs::ByteLemmas::number_of_bytes))]
fn number<M: ChipMachine>(target: Target, machine: &M, variable: u32) -> i16
    requires { variable < 2 ^ 16 }
    ensures { result ≡ number_at target (M.chip.view machine.now) variable }
{
    let low = cell(machine, ram_byte(target, 2 * variable));
    let high = cell(machine, ram_byte(target, 2 * variable + 1));
    i16::from_le_bytes([low, high])
}

fn cell<M: ChipMachine>(machine: &M, place: Option<u16>) -> u8
    ensures { result ≡ cell_at (M.chip.view machine.now) place }
{
    match place {
        Some(address) => machine.cell(address),
        None => 0,
    }
}

/// The bytes of so many persistent variables, two for each; none where there are no such variables.
fn saved<M: ChipMachine>(
    alloc: Global,
    persistent: u32,
    machine: &M,
) -> Result<Option<Bytes>, AllocError>
    requires { persistent < 2 ^ 15 }
    ensures { IfOk result (λ bytes. bytes ≡ bytes_of persistent (M.chip.view machine.now).eeprom) }
{
    if persistent == 0 {
        return Ok(None);
    }
    Ok(Some(first_bytes(alloc, 2 * persistent, machine)?))
}

/// The first bytes of the EEPROM.
fn first_bytes<M: ChipMachine>(alloc: Global, count: u32, machine: &M) -> Result<Bytes, AllocError>
    requires { count ≤ 2 ^ 16 }
    ensures { IfOk result (λ bytes. bytes ≡ firsts count (M.chip.view machine.now).eeprom) }
{
    let mut bytes = Bytes::new(alloc);
    for address in 0..count {
        bytes.push(machine.eeprom(address as u16))?;
    }
    Ok(bytes)
}
