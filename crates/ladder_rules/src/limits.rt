//! Numbers that the rules and the needs speak of.

/// The most cycles that a timer counts.
pub const LONGEST_PERIOD: u32 = 32767;

/// The instruction cycles of a PIC16F628 before the first cycle of the ladder, but for those of off-delay timers.
pub const F628_BOOT: u32 = 4000;

/// The same of a PIC16F877.
pub const F877_BOOT: u32 = 6000;

/// The same of an ATmega16.
pub const MEGA16_BOOT: u32 = 14000;

/// What an off-delay timer adds to them, since its variable does not begin at 0.
pub const TOF_BOOT: u32 = 20;

/// How many marks there are that tell names of timers apart.
pub const MARKS: usize = 65536;

/// By what a mark is multiplied before the next byte of the name is added to it.
pub const MARK_FACTOR: usize = 31;

/// How many pins are kept in a table, from 0 on. No project text gives a greater pin.
pub const TABLE_PINS: usize = 256;
