//! What can be wrong with a project.

ghost use Rattle.std.specs.Prelude.{◌≡◌};
ghost use Rattle.ladder_tree.specs.Fault.{number_of, name_of};

/// A fault of a project. `line` is a line of its text, counted from 1, and `need` and `have` are bytes, or words of code.
#[derive(Clone, Copy, Debug, PartialEq, Eq)]
pub enum ProjectFault {
    /// The text is no project's.
    NotProject { line: u32 },
    /// The line has no shape that is allowed at its place.
    BadLine { line: u32 },
    /// The line has more bytes than a line may have.
    LineTooLong { line: u32 },
    /// A SERIES or PARALLEL opens where as many are open as may be.
    TooDeep { line: u32 },
    /// There are more rungs, elements, openings, pin lines or bytes than there may be.
    TooMany { line: u32 },
    /// The text ends where something is still open.
    Unclosed { line: u32 },
    /// No chip is named, or none that is known.
    UnknownChip { line: u32 },
    /// A number is outside its range.
    NumberRange { line: u32 },
    /// An element that ends its rung stands before another.
    NotRightmost { line: u32 },
    /// A name begins with a letter of another kind.
    WrongKind { line: u32 },
    /// A name has two timers, of which the other stands on line `first`.
    TimerTwice { line: u32, first: u32 },
    /// The delay is shorter than a cycle.
    TimerShort { line: u32 },
    /// The delay has more cycles than a timer counts.
    TimerLong { line: u32 },
    /// The chip has no analog input at the pin.
    NoAdc { line: u32 },
    /// The chip has no PWM output.
    NoPwm { line: u32 },
    /// Two PWM elements ask for two rates.
    PwmTwoRates { line: u32 },
    /// A name that needs a pin has none.
    PinUnassigned { line: u32 },
    /// A pin has two names.
    PinTwice { line: u32, pin: u16 },
    /// The chip has no such pin for inputs and outputs.
    NoSuchPin { line: u32, pin: u16 },
    /// The pin belongs to a device of the chip that is used.
    PinTaken { line: u32, pin: u16 },
    /// The chip's timer cannot make the cycle.
    CycleRange { line: u32 },
    /// The chip cannot make the serial line's rate.
    BaudRange { line: u32 },
    /// The chip cannot make the PWM's rate.
    PwmRange { line: u32 },
    /// The project needs more RAM than there is.
    RamFull { need: u32, have: u32 },
    /// The project needs more EEPROM than there is.
    EepromFull { need: u32, have: u32 },
    /// The project needs more code than there is room for.
    CodeFull { need: u32, have: u32 },
    /// The text goes beyond what is built.
    NotBuilt { line: u32 },
}

impl ProjectFault {
    /// The fault's number in status lines, 1 to 27.
    pub fn number(&self) -> u8
        ensures { result ≡ number_of self.now }
    {
        match self {
            ProjectFault::NotProject { .. } => 1,
            ProjectFault::BadLine { .. } => 2,
            ProjectFault::LineTooLong { .. } => 3,
            ProjectFault::TooDeep { .. } => 4,
            ProjectFault::TooMany { .. } => 5,
            ProjectFault::Unclosed { .. } => 6,
            ProjectFault::UnknownChip { .. } => 7,
            ProjectFault::NumberRange { .. } => 8,
            ProjectFault::NotRightmost { .. } => 9,
            ProjectFault::WrongKind { .. } => 10,
            ProjectFault::TimerTwice { .. } => 11,
            ProjectFault::TimerShort { .. } => 12,
            ProjectFault::TimerLong { .. } => 13,
            ProjectFault::NoAdc { .. } => 14,
            ProjectFault::NoPwm { .. } => 15,
            ProjectFault::PwmTwoRates { .. } => 16,
            ProjectFault::PinUnassigned { .. } => 17,
            ProjectFault::PinTwice { .. } => 18,
            ProjectFault::NoSuchPin { .. } => 19,
            ProjectFault::PinTaken { .. } => 20,
            ProjectFault::CycleRange { .. } => 21,
            ProjectFault::BaudRange { .. } => 22,
            ProjectFault::PwmRange { .. } => 23,
            ProjectFault::RamFull { .. } => 24,
            ProjectFault::EepromFull { .. } => 25,
            ProjectFault::CodeFull { .. } => 26,
            ProjectFault::NotBuilt { .. } => 27,
        }
    }

    /// The fault's name in status lines.
    pub fn name(&self) -> &'static str
        ensures { result.now ≡ name_of self.now }
    {
        match self {
            ProjectFault::NotProject { .. } => "NotProject",
            ProjectFault::BadLine { .. } => "BadLine",
            ProjectFault::LineTooLong { .. } => "LineTooLong",
            ProjectFault::TooDeep { .. } => "TooDeep",
            ProjectFault::TooMany { .. } => "TooMany",
            ProjectFault::Unclosed { .. } => "Unclosed",
            ProjectFault::UnknownChip { .. } => "UnknownChip",
            ProjectFault::NumberRange { .. } => "NumberRange",
            ProjectFault::NotRightmost { .. } => "NotRightmost",
            ProjectFault::WrongKind { .. } => "WrongKind",
            ProjectFault::TimerTwice { .. } => "TimerTwice",
            ProjectFault::TimerShort { .. } => "TimerShort",
            ProjectFault::TimerLong { .. } => "TimerLong",
            ProjectFault::NoAdc { .. } => "NoAdc",
            ProjectFault::NoPwm { .. } => "NoPwm",
            ProjectFault::PwmTwoRates { .. } => "PwmTwoRates",
            ProjectFault::PinUnassigned { .. } => "PinUnassigned",
            ProjectFault::PinTwice { .. } => "PinTwice",
            ProjectFault::NoSuchPin { .. } => "NoSuchPin",
            ProjectFault::PinTaken { .. } => "PinTaken",
            ProjectFault::CycleRange { .. } => "CycleRange",
            ProjectFault::BaudRange { .. } => "BaudRange",
            ProjectFault::PwmRange { .. } => "PwmRange",
            ProjectFault::RamFull { .. } => "RamFull",
            ProjectFault::EepromFull { .. } => "EepromFull",
            ProjectFault::CodeFull { .. } => "CodeFull",
            ProjectFault::NotBuilt { .. } => "NotBuilt",
        }
    }
}
