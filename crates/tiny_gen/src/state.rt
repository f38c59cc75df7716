//! The tiny machine and its instructions.

use byte_code::store::Store;

/// The state of the tiny machine. Its memory and its devices are those of the byte machine.
#[derive(Drop)]
pub struct TinyState {
    /// The place of the next instruction in flash.
    pub at: u16,
    /// Where a call goes on.
    pub link: u16,
    /// The one register.
    pub held: u8,
    /// The memory and the devices.
    pub store: Store,
}

/// The instructions. Addresses and places are below 4096, and ports and bits below 8.
#[derive(Clone, Copy)]
pub enum Insn {
    /// Sets the devices.
    Boot,
    /// Skips the next instruction where the cycle has come to its end.
    AskCycle,
    /// Skips the next instruction where the converter is ready.
    AskDevice,
    Goto(u16),
    CallTo(u16),
    Back,
    Rest,
    /// The register becomes a cell.
    Load(u16),
    /// A cell becomes the register.
    Keep(u16),
    /// Sends the register where no byte is being sent.
    SendHeld,
    /// Skips the next instruction where a byte was received.
    SkipByte,
    /// The register becomes 1 where the level at a pin is so, and else 0.
    LoadLevel { port: u8, bit: u8 },
    /// The latch of a pin becomes the lowest bit of the register.
    KeepLatch { port: u8, bit: u8 },
}
