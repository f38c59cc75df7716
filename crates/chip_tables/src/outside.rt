//! What a chip's written machine meets at a step, and how a step ends.

ghost use Rattle.std.specs.Prelude.{◌≡◌};
ghost use Rattle.chip_tables.specs.Outside.{no_reading};

/// What the pins and the devices of a chip show in one cycle.
#[derive(Clone, Copy, Debug, PartialEq, Eq)]
pub struct PinReading {
    /// The levels at the pins, a byte for each port from A on, bit for bit.
    pub levels: [u8; 5],
    /// What the analog-to-digital converter gives for each channel, 0 to 1023.
    pub adc: [u16; 8],
    /// The byte that the serial port has received, if there is one.
    pub rx: Option<u8>,
    /// Whether the serial port is still sending an earlier byte.
    pub tx_busy: bool,
    /// Whether the EEPROM is still writing an earlier byte.
    pub ee_busy: bool,
}

impl PinReading {
    /// The reading that shows nothing: all levels and values are 0, no byte is there, and nothing is busy.
    pub fn nothing() -> PinReading
        ensures { result ≡ no_reading }
    {
        PinReading {
            levels: [0, 0, 0, 0, 0],
            adc: [0, 0, 0, 0, 0, 0, 0, 0],
            rx: None,
            tx_busy: false,
            ee_busy: false,
        }
    }
}

/// What a chip meets at one instruction.
#[derive(Clone, Copy, Debug, PartialEq, Eq)]
pub struct Env {
    /// The answer to an instruction that asks the cycle timer or a device whether it is ready.
    pub ready: bool,
    /// The reading that the cycle timer's ready answer brings.
    pub reading: PinReading,
}

/// Whom an instruction asked, and what the answer was.
#[derive(Clone, Copy, Debug, PartialEq, Eq)]
pub enum Poll {
    /// It asked nobody, or a device that was ready.
    NoPoll,
    /// The cycle timer came to its end, so a cycle begins with a new reading.
    CycleReady,
    /// The cycle timer has not come to its end.
    CycleNotReady,
    /// The cycle timer's flag stands since an earlier answer.
    CycleStill,
    /// A device was not ready.
    DeviceNotReady,
}

/// An instruction that was executed.
#[derive(Clone, Copy, Debug, PartialEq, Eq)]
pub struct Went {
    /// The cycles that it took: of four clocks on a PIC, of one clock on the AVR.
    pub cycles: u8,
    pub poll: Poll,
    /// The byte that it gave to the serial port to send.
    pub sent: Option<u8>,
}

/// Why a chip has no step.
#[derive(Clone, Copy, Debug, PartialEq, Eq)]
pub enum StuckCause {
    /// The word is no instruction of the machine.
    Undefined,
    /// A call or a return where the stack has no room or no place to return to.
    StackDepth,
    /// A place that is not in the program flash.
    PastFlash,
}

/// Where a chip has no step.
#[derive(Clone, Copy, Debug, PartialEq, Eq)]
pub struct StuckAt {
    /// The place in program flash, in words.
    pub place: u32,
    /// The word there; past the flash, that of erased flash.
    pub word: u16,
    pub cause: StuckCause,
}

/// How a step ends.
#[derive(Clone, Copy, Debug, PartialEq, Eq)]
pub enum StepEnd {
    Went(Went),
    Stuck(StuckAt),
}
