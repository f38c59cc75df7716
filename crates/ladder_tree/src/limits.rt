//! How large a project may be.

/// The most bytes of a name.
pub const NAME_BYTES: usize = 64;

/// The most rungs.
pub const RUNGS: u32 = 500;

/// The most elements.
pub const ELEMENTS: u32 = 4000;

/// The most SERIES and PARALLELs.
pub const OPENINGS: u32 = 4000;

/// The most SERIES and PARALLELs that stand in one another.
pub const DEPTH: u32 = 16;

/// The most pin lines.
pub const PIN_LINES: u32 = 4000;

/// The most values of a table.
pub const TABLE_VALUES: u32 = 60;

/// The greatest number that an analog input gives: its converter has ten bits.
pub const ANALOG_NUMBER: u32 = 1023;

/// The most places of a shift register.
pub const SHIFT_PLACES: u32 = 60;
