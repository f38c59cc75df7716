//! The memory map of the ATmega16: its data sheet, "SRAM Data Memory", "EEPROM Data Memory" and "In-System Reprogrammable Flash Program Memory".

/// How many words program flash has.
pub const FLASH_WORDS: u32 = 8192;

/// How many bytes the EEPROM has.
pub const EEPROM_BYTES: usize = 512;

/// The first address of the I/O space in data memory, behind the 32 registers.
pub const IO_FIRST: u16 = 0x20;

/// The first address of the SRAM in data memory.
pub const SRAM_FIRST: u16 = 0x60;

/// The first address of the SRAM behind variables and bits. From here on it is left to the compiler and the stack; this is this project's choice.
pub const SCRATCH_FIRST: u16 = 0x420;

/// The last address of the SRAM, where the stack begins. It grows towards lower addresses.
pub const STACK_TOP: u16 = 0x45f;

/// The address behind the last one of the SRAM.
pub const SRAM_END: u16 = 0x460;

/// How many bytes the SRAM has.
pub const SRAM_BYTES: usize = 1024;

/// The cycles of a turn of a loop that waits for an answer: a read, a skip that is not taken, and a relative jump back.
pub const WAIT_CYCLES: u32 = 4;
