//! Projects: rungs of elements in series and in parallel.

use crate::element::{Leaf, Name};
use chip_tables::Target;
use ld_base::list::List;
use sqlite_items::Items;

/// Nodes in order. A node leads back to itself through them, so they are the kit's list for such types.
pub type Nodes = Items<Node>;

/// An element, nodes one after another, or nodes side by side.
#[derive(Debug, Drop)]
pub enum Node {
    Leaf(Leaf),
    Series(Nodes),
    Parallel(Nodes),
}

/// A rung: nodes one after another, between the left and the right rail.
#[derive(Debug, Drop)]
pub struct Rung {
    pub nodes: Nodes,
}

/// Rungs from top to bottom.
pub type Rungs = List<Rung>;

/// The pin of a name. Pin 0 is no pin.
#[derive(Debug, Drop)]
pub struct PinLine {
    pub name: Name,
    pub pin: u16,
}

/// Pin lines in the order of the project text.
pub type PinList = List<PinLine>;

/// A whole project: the cycle time is microseconds, the crystal hertz, the rate of the serial line baud.
#[derive(Debug, Drop)]
pub struct Project {
    pub target: Target,
    pub cycle: u32,
    pub crystal: u32,
    pub baud: u32,
    pub pins: PinList,
    pub rungs: Rungs,
}
