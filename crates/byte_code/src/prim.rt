//! The primitives of the byte machine, and lists of them.

use ld_base::list::List;

/// A bit that is read.
#[derive(Clone, Copy)]
pub enum BitSource {
    /// A bit of a cell, by the cell's address.
    Cell { address: u16, bit: u8 },
    /// The level at an input pin; port 0 is A.
    Level { port: u8, bit: u8 },
    /// The latch of an output pin.
    Latch { port: u8, bit: u8 },
}

/// A bit that is written.
#[derive(Clone, Copy)]
pub enum BitDest {
    Cell { address: u16, bit: u8 },
    Latch { port: u8, bit: u8 },
}

/// A byte that is read.
#[derive(Clone, Copy)]
pub enum ByteSource {
    Cell(u16),
    Number(u8),
}

/// A word that is read: two cells, of which the first has the low byte, or a number.
#[derive(Clone, Copy)]
pub enum WordSource {
    Cells(u16),
    Number { low: u8, high: u8 },
}

/// What the flag is of.
#[derive(Clone, Copy)]
pub enum FlagKind {
    /// The first word is less than the second, with signs.
    Less,
    /// The words are equal.
    Equal,
    /// The word is below the number, without signs.
    Below,
}

/// What a jump goes by.
#[derive(Clone, Copy)]
pub enum Test {
    /// The loop's count, from which 1 is taken first, is not 0.
    LoopsOn,
    /// The bit is so.
    Bit { from: BitSource, is: bool },
    /// The flag, which is of this kind, is so.
    Flag { kind: FlagKind, is: bool },
    /// No byte was received that is not taken.
    NoByte,
    /// A byte is being sent.
    Sends,
    /// The EEPROM is writing a byte.
    Writes,
    /// No byte waits for the EEPROM.
    NoneWaits,
}

/// What is done to a bit.
#[derive(Clone, Copy)]
pub enum BitOp {
    Put {
        to: BitDest,
        value: bool,
    },
    /// It becomes the other, or its opposite.
    Copy {
        to: BitDest,
        from: BitSource,
        inverted: bool,
    },
    /// Where the other is so, it takes the value.
    PutIf {
        test: BitSource,
        is: bool,
        to: BitDest,
        value: bool,
    },
    /// Where the flag, which is of this kind, is so, it takes the value.
    PutOnFlag {
        kind: FlagKind,
        is: bool,
        to: BitDest,
        value: bool,
    },
}

/// What is done to a byte.
#[derive(Clone, Copy)]
pub enum ByteOp {
    Put { to: u16, value: u8 },
    Copy { to: u16, from: u16 },
    /// It becomes what one of the two has and not the other, bit for bit.
    Xor { to: u16, a: u16, b: u16 },
}

/// What is done to a word.
#[derive(Clone, Copy)]
pub enum WordOp {
    Move {
        to: u16,
        from: WordSource,
    },
    Increment {
        to: u16,
    },
    Decrement {
        to: u16,
    },
    Add {
        to: u16,
        a: u16,
        b: WordSource,
    },
    Subtract {
        to: u16,
        a: WordSource,
        b: WordSource,
    },
    /// It becomes its negative where the cell's highest bit is 1.
    NegateIf {
        to: u16,
        sign: u16,
    },
    /// One of the eight steps of a product.
    MultiplyStep,
    /// One of the sixteen steps of a quotient.
    DivideStep,
}

/// A comparison, which sets the flag.
#[derive(Clone, Copy)]
pub enum CompareOp {
    /// With signs.
    Less { a: u16, b: WordSource },
    Equal { a: u16, b: WordSource },
    /// Without signs.
    Below { a: u16, number: u8 },
}

/// What is done to the converter, the serial port and the modulator.
#[derive(Clone, Copy)]
pub enum DeviceOp {
    /// Chooses the channel that is converted.
    AdcChannel { channel: u8 },
    AdcStart,
    AdcRead { to: u16 },
    /// Takes the byte that was received: the word becomes it, or 0 where there is none.
    TakeByte { to: u16 },
    /// Sends a byte where none is being sent.
    Send { from: ByteSource },
    /// The register of the duty becomes the byte.
    PwmDuty { from: u16 },
}

/// What is done to the EEPROM.
#[derive(Clone, Copy)]
pub enum EepromOp {
    /// Its address becomes this.
    At { address: u16 },
    /// Its address goes on by 1, within its low byte.
    Next,
    Get { to: u16 },
    /// Begins to write a byte, where none is being written.
    Put { from: u16 },
    /// The byte waits to be written, at the odd address behind the present one, which is even.
    Wait { from: u16 },
    /// Begins to write the byte that waits, where none is being written, and then none waits.
    Flush,
}

/// A primitive. `label` is where it goes on, or where it may; `to`, `from`, `a` and `b` are addresses of cells.
#[derive(Drop)]
pub enum BytePrim {
    /// What is done once: the first so many cells of the chip's list become 0, no byte waits for the EEPROM, and the devices are set.
    Start { cells: u16 },
    /// Waits for the end of the cycle and takes the next reading. The label stands in front of it.
    CyclePoll { label: u32 },
    /// Waits for the end of a conversion. The label stands in front of it.
    AdcPoll { label: u32 },
    /// A place that others name.
    Label { label: u32 },
    Jump { label: u32 },
    /// Goes on at the label, up to the return.
    Call { label: u32 },
    Return,
    /// Goes on at the label where the test says so.
    JumpWhere { test: Test, label: u32 },
    Bit(BitOp),
    Byte(ByteOp),
    Word(WordOp),
    Compare(CompareOp),
    Device(DeviceOp),
    Eeprom(EepromOp),
    /// The left word becomes the value whose index is the low byte of the outcome. The label stands behind it.
    Table { values: List<u16>, label: u32 },
}

/// How a primitive goes on. `label` is where it goes on, or where it may.
#[derive(Clone, Copy)]
pub enum Shape {
    /// It is done once, in front of all others.
    AtStart,
    /// It waits for the end of the cycle.
    AtPoll,
    /// It waits for a device.
    AtDevice,
    Names { label: u32 },
    Jumps { label: u32 },
    Branches { label: u32 },
    Calls { label: u32 },
    Returns,
    /// The next primitive follows.
    Straight,
}

/// The primitives by their short name. A type cannot have it: the prover has a module of that name.
pub type Prim = BytePrim;

/// A primitive, and how often at most it is begun in front of the first reading and in each cycle.
#[derive(Drop)]
pub struct Paced {
    pub prim: BytePrim,
    pub boot: u32,
    pub turns: u32,
}

/// Code of the byte machine.
pub type Prims = List<Paced>;
