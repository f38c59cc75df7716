//! Where a program's bits, variables and pins are on its chip.

ghost use Rattle.mem_plan.specs.Places.{IsChip};

use chip_tables::PortBit;
use ld_base::list::List;
use mem_plan::places::Plan;

/// The places of a program on its chip.
#[derive(Drop)]
pub struct Layout {
    /// Those of its variables and kept bits.
    pub plan: Plan,
    /// The pin of each input, in order.
    pub inputs: List<PortBit>,
    /// The pin of each output, in order.
    pub outputs: List<PortBit>,
    pub ghost chip: { IsChip plan.target },
}
