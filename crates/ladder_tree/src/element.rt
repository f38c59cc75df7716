//! The elements of a ladder.

use ld_base::list::List;

/// Bytes that need not be a text.
pub type Bytes = List<u8>;

/// 1 to 64 letters, digits or `_`, not beginning with a digit. A relay X, Y or R name is a bit, any other a variable.
pub type Name = List<u8>;

/// Signed 16-bit numbers.
pub type Nums = List<i16>;

/// What a coil does with its bit.
#[derive(Clone, Copy, Debug, PartialEq, Eq)]
pub enum CoilMode {
    /// The bit follows the input.
    Plain,
    /// The bit is the opposite of the input.
    Negated,
    /// The bit becomes true where the input is true, and stays.
    Set,
    /// The bit becomes false where the input is true, and stays.
    Reset,
}

/// The three timers: on delay, off delay, and the on delay that keeps its time.
#[derive(Clone, Copy, Debug, PartialEq, Eq)]
pub enum TimerHow {
    Ton,
    Tof,
    Rto,
}

/// The three counters: up, down, and round.
#[derive(Clone, Copy, Debug, PartialEq, Eq)]
pub enum CounterHow {
    Ctu,
    Ctd,
    Ctc,
}

/// What arithmetic element it is.
#[derive(Clone, Copy, Debug, PartialEq, Eq)]
pub enum MathHow {
    Add,
    Sub,
    Mul,
    Div,
}

/// What comparison it is: equal, not equal, greater, greater or equal, less, less or equal.
#[derive(Clone, Copy, Debug, PartialEq, Eq)]
pub enum CompareHow {
    Equ,
    Neq,
    Grt,
    Geq,
    Les,
    Leq,
}

/// A variable, or a number.
#[derive(Debug, Drop)]
pub enum Operand {
    Var(Name),
    Num(i16),
}

/// What an element is, with what its line names. Delays are microseconds, `hz` is hertz.
#[derive(Debug, Drop)]
pub enum LeafKind {
    Contacts {
        name: Name,
        neg: bool,
    },
    Coil {
        name: Name,
        mode: CoilMode,
    },
    /// True for the one cycle in which the input becomes true.
    Osr,
    /// True for the one cycle in which the input becomes false.
    Osf,
    Short,
    Open,
    MasterRelay,
    Placeholder,
    Comment {
        text: Bytes,
    },
    Timer {
        how: TimerHow,
        name: Name,
        delay: u32,
    },
    Counter {
        how: CounterHow,
        name: Name,
        max: i16,
    },
    Reset {
        name: Name,
    },
    Move {
        dest: Name,
        src: Operand,
    },
    Math {
        how: MathHow,
        dest: Name,
        a: Operand,
        b: Operand,
    },
    Compare {
        how: CompareHow,
        a: Operand,
        b: Operand,
    },
    Shift {
        name: Name,
        places: u16,
    },
    Table {
        dest: Name,
        index: Operand,
        as_text: bool,
        values: Nums,
    },
    ReadAdc {
        name: Name,
    },
    SetPwm {
        name: Name,
        hz: u32,
    },
    Recv {
        name: Name,
    },
    Send {
        name: Name,
    },
    Persist {
        name: Name,
    },
    /// Points of a piecewise linear function: x, y, x, y and so on.
    Linear {
        dest: Name,
        index: Operand,
        points: Nums,
    },
    /// A text that is sent, with a variable's value in it.
    Formatted {
        name: Name,
        text: Bytes,
    },
}

/// An element and the line of the project text that it stands on, counted from 1.
#[derive(Debug, Drop)]
pub struct Leaf {
    pub line: u32,
    pub kind: LeafKind,
}
