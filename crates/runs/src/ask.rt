//! What a machine asks the outside for.

/// What a machine's state asks the outside for, before its next step.
#[derive(Clone, Copy, Debug, PartialEq, Eq)]
pub enum Ask {
    /// Nothing: the next step is the same whatever the outside would answer.
    Nothing,
    /// The reading of a new cycle: it polls the cycle timer.
    Reading,
    /// Whether a device is ready.
    Device,
}
