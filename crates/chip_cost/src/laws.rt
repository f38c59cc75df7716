//! Laws of the table of costs, each the contract of a function that does nothing.

ghost use Rattle.chip_cost.specs.Within.{ListedIsWithinTable};

/// Code that keeps to the public list is within what the rules count for its project, where the chip's weights keep to the table of costs.
pub fn listed_is_within_table()
    ensures { ListedIsWithinTable }
{}
