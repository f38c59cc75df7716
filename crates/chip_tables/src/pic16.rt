//! What the two PICs have in common: PIC16F62X data sheet and PIC16F87X data sheet, "Data Memory Organization" and "Instruction Set Summary".

/// The first of the file registers that are seen from every bank. They are left to the compiler; this is this project's choice.
pub const SCRATCH_FIRST: u16 = 0x70;

/// The address behind the last of them.
pub const SCRATCH_END: u16 = 0x80;

/// The instruction cycles of a turn of a loop that waits for an answer: a test that does not skip, and a jump back.
pub const WAIT_CYCLES: u32 = 3;
