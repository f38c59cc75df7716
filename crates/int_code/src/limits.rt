//! How much a program may have.

/// How many operations a program has at most.
pub const MOST_OPERATIONS: usize = 1_000_000;

/// How many of them look up a value in a table.
pub const MOST_TABLES: usize = 40_000;

/// How many bits a program has at most.
pub const MOST_BITS: u32 = 100_000;

/// How many of the bits of a lowered ladder are wires.
pub const MOST_WIRES: u32 = 48;

/// How many persistent variables an EEPROM has room for.
pub const MOST_PERSISTENT: u32 = 256;
