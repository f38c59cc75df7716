//! How much is kept from cycle to cycle.

ghost use Rattle.std.specs.Prelude.{◌≡◌};
ghost use Rattle.mem_plan.specs.Needs.{AreNumbers, sizes_of};
ghost use Rattle.mem_plan.specs.Needs as needs;

use int_code::op::IntProgram;

/// How many variables, bits and persistent variables are kept from cycle to cycle. The persistent ones are among the variables.
#[derive(Clone, Copy, Debug, PartialEq, Eq)]
pub struct Sizes {
    pub variables: u32,
    pub kept_bits: u32,
    pub persistent: u32,
}

impl Sizes {
    /// The sizes of a program.
    pub fn of(p: &IntProgram) -> Sizes
        ensures { result ≡ sizes_of p.now }
    {
        Sizes {
            variables: p.variables,
            kept_bits: p.kept_bits,
            persistent: p.persistent,
        }
    }

    /// How many bytes of RAM they need: two a variable, and then eight bits a byte.
    pub fn ram_need(self) -> u32
        requires { AreNumbers self }
        ensures { result ≡ needs.ram_need self }
    {
        2 * self.variables + self.kept_bits.div_ceil(8)
    }

    /// How many bytes of EEPROM they need: two a persistent variable.
    pub fn eeprom_need(self) -> u32
        requires { AreNumbers self }
        ensures { result ≡ needs.eeprom_need self }
    {
        2 * self.persistent
    }
}
