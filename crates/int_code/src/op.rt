//! Operations and programs of them.

ghost use Rattle.std.specs.Prelude.{◌≡◌};
ghost use Rattle.int_code.specs.Shapes as shapes;

use ladder_tree::element::Nums;
use ld_base::list::List;

/// A bit that is written: a bit of the program, or an output.
#[derive(Clone, Copy, Debug, PartialEq, Eq)]
pub enum BitDest {
    B(u32),
    Y(u32),
}

/// A bit that is read: a bit of the program, an input, or an output.
#[derive(Clone, Copy, Debug, PartialEq, Eq)]
pub enum BitSource {
    B(u32),
    X(u32),
    Y(u32),
}

/// A number that is read: that of a variable, or one that stands in the operation.
#[derive(Clone, Copy, Debug, PartialEq, Eq)]
pub enum NumSource {
    V(u32),
    N(i16),
}

/// An operation. `v` and `from` are variables, `a` is a persistent variable and `k` an analog input, each by its number;
/// `hz` is hertz.
#[derive(Drop)]
pub enum IntOp {
    /// The bit becomes true.
    Set {
        b: BitDest,
    },
    /// The bit becomes false.
    Clr {
        b: BitDest,
    },
    /// The bit becomes the other.
    Cpy {
        b: BitDest,
        s: BitSource,
    },
    /// The bit becomes the opposite of the other.
    Not {
        b: BitDest,
        s: BitSource,
    },
    /// What follows, up to its `Els` or `Fi`, runs where the bit is true.
    Ifs {
        s: BitSource,
    },
    /// What follows, up to its `Els` or `Fi`, runs where the bit is false.
    Ifc {
        s: BitSource,
    },
    /// What follows, up to its `Els` or `Fi`, runs where the first number is less than the second.
    Iflt {
        w: NumSource,
        u: NumSource,
    },
    /// What follows, up to its `Els` or `Fi`, runs where the numbers are equal.
    Ifeq {
        w: NumSource,
        u: NumSource,
    },
    /// What follows, up to its `Els` or `Fi`, runs where the variable is the number in the EEPROM.
    Ifee {
        v: u32,
        a: u32,
    },
    /// What follows, up to its `Fi`, runs where the first branch did not.
    Els,
    /// The end of an if.
    Fi,
    /// The variable becomes the number.
    Lit {
        v: u32,
        n: i16,
    },
    /// The variable becomes the other.
    Mov {
        v: u32,
        from: u32,
    },
    /// The variable becomes the sum. Sums, differences, products and quotients wrap round.
    Add {
        v: u32,
        w: NumSource,
        u: NumSource,
    },
    /// The variable becomes the difference.
    Sub {
        v: u32,
        w: NumSource,
        u: NumSource,
    },
    /// The variable becomes the product.
    Mul {
        v: u32,
        w: NumSource,
        u: NumSource,
    },
    /// The variable becomes the quotient, truncated toward zero, and 0 by zero.
    Div {
        v: u32,
        w: NumSource,
        u: NumSource,
    },
    /// The variable becomes one more, and -32768 behind 32767.
    Inc {
        v: u32,
    },
    /// The variable becomes one less, and 32767 behind -32768.
    Dec {
        v: u32,
    },
    /// The variable becomes the number of the analog input.
    Adc {
        v: u32,
        k: u32,
    },
    /// The duty of the PWM becomes the number in percent: 0 where it is less, and 100 where it is more.
    Pwm {
        w: NumSource,
        hz: u32,
    },
    /// Where a byte was received that was not taken, the variable becomes it, and it is taken. The bit tells whether it was.
    Rx {
        v: u32,
        b: BitDest,
    },
    /// Where the bit is true and the transmitter does not send, the number's low byte is sent. The written bit tells whether
    /// the transmitter sends after that.
    Tx {
        w: NumSource,
        s: BitSource,
        b: BitDest,
    },
    /// The bit tells whether the EEPROM is busy. Where it is not but a byte waits, that is written, and it is busy.
    Eebusy {
        b: BitDest,
    },
    /// The variable becomes the number in the EEPROM.
    Eerd {
        v: u32,
        a: u32,
    },
    /// The number's low byte is written to the EEPROM, and its high byte waits.
    Eewr {
        w: NumSource,
        a: u32,
    },
    /// The variable becomes the value at the index, if there is one.
    Tab {
        v: u32,
        w: NumSource,
        values: Nums,
    },
}

/// What an operation is among ifs.
#[derive(Clone, Copy, Debug, PartialEq, Eq)]
pub enum Shape {
    /// It opens an if.
    Opens,
    /// It begins the second branch of an if.
    Turns,
    /// It ends an if.
    Closes,
    /// It is no part of one.
    Plain,
}

impl IntOp {
    /// What the operation is among ifs.
    pub fn shape(&self) -> Shape
        ensures { result ≡ shapes.shape_of self.now }
    {
        match self {
            IntOp::Ifs { .. } | IntOp::Ifc { .. } => Shape::Opens,
            IntOp::Iflt { .. } | IntOp::Ifeq { .. } | IntOp::Ifee { .. } => Shape::Opens,
            IntOp::Els => Shape::Turns,
            IntOp::Fi => Shape::Closes,
            IntOp::Set { .. } | IntOp::Clr { .. } => Shape::Plain,
            IntOp::Cpy { .. } | IntOp::Not { .. } => Shape::Plain,
            IntOp::Lit { .. } | IntOp::Mov { .. } => Shape::Plain,
            IntOp::Add { .. } | IntOp::Sub { .. } => Shape::Plain,
            IntOp::Mul { .. } | IntOp::Div { .. } => Shape::Plain,
            IntOp::Inc { .. } | IntOp::Dec { .. } => Shape::Plain,
            IntOp::Adc { .. } | IntOp::Pwm { .. } => Shape::Plain,
            IntOp::Rx { .. } | IntOp::Tx { .. } => Shape::Plain,
            IntOp::Eebusy { .. } | IntOp::Eerd { .. } => Shape::Plain,
            IntOp::Eewr { .. } | IntOp::Tab { .. } => Shape::Plain,
        }
    }
}

/// Operations in order.
pub type Ops = List<IntOp>;

/// A program: its operations, how many there are of what they are numbered by, and the start value of each variable.
/// The first `kept_bits` bits keep their meaning from cycle to cycle: relays, then memories, then start flags. The rest are wires.
#[derive(Drop)]
pub struct IntProgram {
    pub ops: Ops,
    pub inputs: u32,
    pub outputs: u32,
    pub analogs: u32,
    pub variables: u32,
    pub kept_bits: u32,
    pub bits: u32,
    pub persistent: u32,
    pub starts: Nums,
}
