//! The targets.

/// What a ladder program is compiled for.
#[derive(Clone, Copy, Debug, PartialEq, Eq)]
pub enum Target {
    /// Microchip PIC16F628 in its 18-pin package.
    F628,
    /// Microchip PIC16F877 in its 40-pin package.
    F877,
    /// Atmel ATmega16 in its 40-pin package.
    Mega16,
    /// Text for an interpreter.
    Interp,
    /// C text for any compiler.
    AnsiC,
}
