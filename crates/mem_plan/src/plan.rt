//! Whether a target has room for what is kept from cycle to cycle, and the plan where it has.

ghost use Rattle.std.specs.Prelude.{◌≡◌, Some, None, IfOk, IfErr};
ghost use Rattle.mem_plan.specs.Needs.{AreNumbers, sizes_of};
ghost use Rattle.mem_plan.specs.Misfit.{misfit};

use crate::fault::PlanFault;
use crate::places::Plan;
use crate::sizes::Sizes;
use chip_tables::{Target, eeprom_have, ram_have};
use int_code::op::IntProgram;

/// Places so many variables and bits on a target. It refuses with `RamFull`, or else `EepromFull`, exactly where they need more bytes
/// than the target has. It takes no memory.
pub fn place(sizes: Sizes, target: Target) -> Result<Plan, PlanFault>
    requires { AreNumbers sizes }
    ensures ok { IfOk result (λ made. (misfit sizes target ≡ None) × (made.target ≡ target) × (made.sizes ≡ sizes)) }
    ensures err { IfErr result (λ fault. misfit sizes target ≡ Some fault) }
{
    let ram = sizes.ram_need();
    if ram > ram_have(target) {
        return Err(PlanFault::RamFull {
            need: ram,
            have: ram_have(target),
        });
    }
    let eeprom = sizes.eeprom_need();
    if eeprom > eeprom_have(target) {
        return Err(PlanFault::EepromFull {
            need: eeprom,
            have: eeprom_have(target),
        });
    }
    Ok(Plan { target, sizes })
}

/// Places a program's variables and kept bits on a target, by its sizes alone. The bits that it makes room for are the
/// program's `kept_bits`: relays, memories and the start flags of persistent variables. Of a program that was read back
/// from its text these are all bits, since the text does not tell them from wires.
pub fn plan(p: &IntProgram, target: Target) -> Result<Plan, PlanFault>
    requires { AreNumbers (sizes_of p.now) }
    ensures ok { IfOk result (λ made. (misfit (sizes_of p.now) target ≡ None) × (made.target ≡ target) × (made.sizes ≡ sizes_of p.now)) }
    ensures err { IfErr result (λ fault. misfit (sizes_of p.now) target ≡ Some fault) }
{
    place(Sizes::of(p), target)
}
