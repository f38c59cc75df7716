//! What costs, and what a cost is made of.

/// What a part of a program is, as far as its cost goes.
#[derive(Clone, Copy, Debug, PartialEq, Eq)]
pub enum CostKind {
    /// Any program.
    Base,
    /// Any multiplication or pulse-width modulated output.
    MulFeature,
    /// Any division or pulse-width modulated output.
    DivFeature,
    /// Any persistent variable.
    PersistFeature,
    /// Any element of the serial port.
    UartFeature,
    /// Any analog input.
    AdcFeature,
    /// Any pulse-width modulated output.
    PwmFeature,
    /// A rung.
    Rung,
    /// A parallel circuit, without its branches.
    Parallel,
    /// A branch of a parallel circuit.
    Branch,
    /// A contact.
    Contacts,
    /// A coil.
    Coil,
    /// A one-shot, rising or falling.
    OneShot,
    /// A short circuit or a comment.
    Still,
    /// An open circuit.
    Open,
    /// An on-delay timer, retentive or not.
    TonRto,
    /// An off-delay timer.
    Tof,
    /// A counter of any kind.
    Count,
    /// A reset of a timer or a counter.
    Reset,
    /// A move.
    Move,
    /// An addition or a subtraction.
    AddSub,
    /// A multiplication.
    Mul,
    /// A division.
    Div,
    /// A comparison.
    Compare,
    /// A shift register.
    Shift,
    /// A look-up table.
    Table,
    /// An analog input.
    ReadAdc,
    /// A pulse-width modulated output.
    SetPwm,
    /// A byte sent or received by the serial port.
    Uart,
    /// A persistent variable.
    Persist,
    /// A master control relay.
    MasterRelay,
    /// A piecewise linear function.
    Linear,
    /// A formatted string, without its field.
    Formatted,
    /// The field of a formatted string.
    FormattedField,
}

/// The most that a part of a program costs on a target: words of program flash, instruction cycles
/// in one cycle of the program, and operations of the interpretable code.
///
/// The fields `words`, `cycles` and `ops` count once. Of the others `words_each` and `cycles_each` count for each place of a shift register
/// after the first and `ops_each` for each of its places; all three count for each entry of a look-up table, each point of a piecewise linear
/// function, each byte that a formatted string sends, and each byte of its field.
#[derive(Clone, Copy, Debug, PartialEq, Eq)]
pub struct Cost {
    pub words: u32,
    pub words_each: u32,
    pub cycles: u32,
    pub cycles_each: u32,
    pub ops: u32,
    pub ops_each: u32,
}
