//! How a run ends, and the line that says so.

ghost use Rattle.std.specs.Prelude.{◌≡◌, IfOk};
ghost use Rattle.std.specs.String.{string_bytes};
ghost use Rattle.ldmicro_top.specs.StatusLine.{code_of, line_of, place_of, four_digits, cause_name, hex_cause_name};

use chip_tables::{StuckAt, StuckCause};
use intel_hex::fault::HexCause;
use ladder_tree::fault::ProjectFault;
use std::alloc::{AllocError, Global};
use std::fmt;

/// How a run ends.
#[derive(Clone, Copy, Debug, PartialEq, Eq)]
pub enum Status {
    /// What was asked for is done.
    Ok,
    /// The words are those of no command.
    Usage,
    /// The project is refused.
    Refused(ProjectFault),
    /// A file could not be opened or read.
    ReadFault,
    /// A file or the output could not be written.
    WriteFault,
    /// There was not enough memory.
    NoMemory,
    /// A file that is run, or the trace, is refused.
    BadInput(InputFault),
    /// The code that is run comes to no end of the cycle of this number, which is 0 in front of the first reading.
    NoCycleEnd { cycle: u32 },
    /// The code that is run has no step at a place, in the cycle of this number.
    Stuck { cycle: u32, at: StuckAt },
}

/// What is wrong with a file that is run, or with the trace.
#[derive(Clone, Copy, Debug, PartialEq, Eq)]
pub enum InputFault {
    /// The interpretable text is refused at a line.
    Interp { line: u32 },
    /// The HEX file is refused at a line.
    Hex { line: u32, cause: HexCause },
    /// The target has no machine that runs the file.
    NoMachine,
    /// The interpretable text has other names than the project. The line is that of its `code`.
    OtherProject { line: u32 },
    /// The trace is refused at a line.
    Trace { line: u32 },
}

impl fmt::Display for InputFault {
    ghost use Rattle.std.specs.Prelude.{Some};
    ghost use Rattle.ldmicro_top.specs.StatusLine.{input_text};

    ghost output = { λ f. Some (input_text f) };

    fn fmt<W: fmt::Write>(&self, f: &mut fmt::Formatter<W>) -> fmt::Result {
        match self {
            InputFault::Interp { line } => write!(f, "file line {line}"),
            InputFault::Hex { line, cause } => {
                let cause = hex_cause_name(*cause);
                write!(f, "file line {line} {cause}")
            }
            InputFault::NoMachine => f.write_str("file no machine"),
            InputFault::OtherProject { line } => write!(f, "file line {line} other project"),
            InputFault::Trace { line } => write!(f, "trace line {line}"),
        }
    }
}

impl Status {
    /// The exit status of the program: 0 to 8, in the order of the variants.
    pub fn code(&self) -> u8
        ensures { result ≡ code_of self.now }
    {
        match self {
            Status::Ok => 0,
            Status::Usage => 1,
            Status::Refused(_) => 2,
            Status::ReadFault => 3,
            Status::WriteFault => 4,
            Status::NoMemory => 5,
            Status::BadInput(_) => 6,
            Status::NoCycleEnd { .. } => 7,
            Status::Stuck { .. } => 8,
        }
    }
}

/// Where a fault is, or what it lacks.
#[derive(Clone, Copy, Debug, PartialEq, Eq)]
pub enum Place {
    /// On a line.
    Line(u32),
    /// On a line, because of what an earlier one says.
    Twice { line: u32, first: u32 },
    /// At a pin that a line names.
    Pin { line: u32, pin: u16 },
    /// In the whole: it needs more than there is.
    Need { need: u32, have: u32 },
}

impl fmt::Display for Place {
    ghost use Rattle.std.specs.Prelude.{Some};
    ghost use Rattle.ldmicro_top.specs.StatusLine.{place_text};

    ghost output = { λ p. Some (place_text p) };

    fn fmt<W: fmt::Write>(&self, f: &mut fmt::Formatter<W>) -> fmt::Result {
        match self {
            Place::Line(line) => write!(f, "line {line}"),
            Place::Twice { line, first } => write!(f, "line {line} first {first}"),
            Place::Pin { line, pin } => write!(f, "line {line} pin {pin}"),
            Place::Need { need, have } => write!(f, "need {need} have {have}"),
        }
    }
}

/// The place of a fault.
fn place_of(fault: ProjectFault) -> Place
    ensures { result ≡ place_of fault }
{
    match fault {
        ProjectFault::NotProject { line }
        | ProjectFault::BadLine { line }
        | ProjectFault::LineTooLong { line }
        | ProjectFault::TooDeep { line }
        | ProjectFault::TooMany { line }
        | ProjectFault::Unclosed { line }
        | ProjectFault::UnknownChip { line }
        | ProjectFault::NumberRange { line }
        | ProjectFault::NotRightmost { line }
        | ProjectFault::WrongKind { line }
        | ProjectFault::TimerShort { line }
        | ProjectFault::TimerLong { line }
        | ProjectFault::NoAdc { line }
        | ProjectFault::NoPwm { line }
        | ProjectFault::PwmTwoRates { line }
        | ProjectFault::PinUnassigned { line }
        | ProjectFault::CycleRange { line }
        | ProjectFault::BaudRange { line }
        | ProjectFault::PwmRange { line }
        | ProjectFault::NotBuilt { line } => Place::Line(line),
        ProjectFault::TimerTwice { line, first } => Place::Twice { line, first },
        ProjectFault::PinTwice { line, pin }
        | ProjectFault::NoSuchPin { line, pin }
        | ProjectFault::PinTaken { line, pin } => Place::Pin { line, pin },
        ProjectFault::RamFull { need, have }
        | ProjectFault::EepromFull { need, have }
        | ProjectFault::CodeFull { need, have } => Place::Need { need, have },
    }
}

/// The line that a status prints: none after what prints a report, and none where writing or memory failed.
pub fn status_line(alloc: Global, status: Status) -> Result<String, AllocError>
    ensures { IfOk result (λ line. string_bytes line ≡ line_of status) }
{
    match status {
        Status::Ok | Status::WriteFault | Status::NoMemory => Ok(String::new(alloc)),
        Status::Usage => String::from_str(
            alloc,
            "usage: ldmicro /c source dest | /s source trace | /r source file trace | /g number dest\n",
        ),
        Status::ReadFault => String::from_str(alloc, "read fault\n"),
        Status::Refused(fault) => refusal(alloc, fault),
        Status::BadInput(fault) => format!(in alloc; "bad input {fault}\n"),
        Status::NoCycleEnd { cycle } => format!(in alloc; "no cycle end in cycle {cycle}\n"),
        Status::Stuck { cycle, at } => stuck(alloc, cycle, at),
    }
}

/// The line of a refusal.
fn refusal(alloc: Global, fault: ProjectFault) -> Result<String, AllocError>
    ensures { IfOk result (λ line. string_bytes line ≡ line_of (Status.Refused fault)) }
{
    let number = fault.number();
    let name = fault.name();
    let place = place_of(fault);
    format!(in alloc; "refused {number} {name} {place}\n")
}

/// The line of code that has no step.
fn stuck(alloc: Global, cycle: u32, at: StuckAt) -> Result<String, AllocError>
    ensures { IfOk result (λ line. string_bytes line ≡ line_of (Status.Stuck cycle at)) }
{
    let place = four_digits(alloc, at.place)?;
    let word = four_digits(alloc, u32::from(at.word))?;
    let cause = cause_name(at.cause);
    format!(in alloc; "stuck in cycle {cycle} at {place} word {word} {cause}\n")
}

/// The lowest 16 bits as four upper-case hexadecimal digits.
fn four_digits(alloc: Global, n: u32) -> Result<String, AllocError>
    ensures { IfOk result (λ digits. string_bytes digits ≡ four_digits n) }
{
    let bytes = [(n / 256 % 256) as u8, (n % 256) as u8];
    hex::encode_upper(alloc, &bytes)
}

/// The name of the cause in status lines.
fn cause_name(cause: StuckCause) -> &'static str
    ensures { result.now ≡ cause_name cause }
{
    match cause {
        StuckCause::Undefined => "Undefined",
        StuckCause::StackDepth => "StackDepth",
        StuckCause::PastFlash => "PastFlash",
    }
}

/// The name of what is wrong with a line of a HEX file.
fn hex_cause_name(cause: HexCause) -> &'static str
    ensures { result.now ≡ hex_cause_name cause }
{
    match cause {
        HexCause::BadRecord => "BadRecord",
        HexCause::BadSum => "BadSum",
        HexCause::Outside => "Outside",
        HexCause::Overlap => "Overlap",
        HexCause::NoEnd => "NoEnd",
    }
}
