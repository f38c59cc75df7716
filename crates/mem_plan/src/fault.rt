//! What keeps a program from being placed.

/// A memory of the target that is too small. `need` and `have` are bytes.
#[derive(Clone, Copy, Debug, PartialEq, Eq)]
pub enum PlanFault {
    /// The variables and kept bits need more RAM than there is.
    RamFull { need: u32, have: u32 },
    /// The persistent variables need more EEPROM than there is.
    EepromFull { need: u32, have: u32 },
}
