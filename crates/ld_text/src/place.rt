//! Where a line of a project text stands.

/// The part of a project text that was come to.
#[derive(Clone, Copy)]
pub enum Place {
    /// Line 1.
    FirstLine,
    /// Above `PROGRAM`.
    Header,
    /// In a pin list.
    PinLines,
    /// Below `PROGRAM`.
    Body,
}

/// Where a line stands, and so what it may say.
#[derive(Clone, Copy)]
pub enum Site {
    /// Line 1.
    First,
    /// Above `PROGRAM`.
    Header,
    /// In a pin list.
    Pins,
    /// Below `PROGRAM`, in no rung.
    Between,
    /// In a rung.
    Inside,
}
