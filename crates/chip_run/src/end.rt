//! How cycles and runs on a chip's written machine end.

use chip_tables::StuckAt;

/// How many instruction cycles pass at most since a reading was taken, or since reset, before the chip asks for the next reading. It is a limit
/// of this project's own, so that a run over words that never ask ends.
pub const CYCLES_MOST: u32 = 1_000_000;

/// How a chip comes from a reading that it takes, or from reset, to the next one.
#[derive(Clone, Copy, Debug, PartialEq, Eq)]
pub enum CycleEnd {
    /// It asks for the next reading. `sent` is the first byte that it sent on the way, if it sent one.
    Asks { sent: Option<u8> },
    /// As many cycles passed as may, and it does not ask.
    Late,
    /// It has no step.
    Stuck(StuckAt),
}

/// How a run ends. The cycle of a number is the one of the reading of that number, counted from 1; cycle 0 is what runs before the first reading.
#[derive(Clone, Copy, Debug, PartialEq, Eq)]
pub enum RunEnd {
    /// Each reading was taken, and the chip asks for one more.
    Done,
    /// In the cycle as many instruction cycles passed as may.
    Late { cycle: u32 },
    /// In the cycle the chip has no step.
    Stuck { cycle: u32, at: StuckAt },
}
