//! The pins of each chip.

ghost use Rattle.std.specs.Prelude.{ℕ, ◌≡◌, ◌==◌, ◌<◌, Some, IfSome, position};
ghost use Rattle.chip_tables.specs.Pins.{is_at, port_bit_in, port_bit_at, port_count, channel_at, rx_at, tx_at, pwm_at};

use crate::target::Target;

/// A bit of an I/O port. Port 0 is A, port 1 is B, and so on; bit 0 is the lowest.
#[derive(Clone, Copy, Debug, PartialEq, Eq)]
pub struct PortBit {
    pub port: u8,
    pub bit: u8,
}

/// A pin of a chip's package, numbered as in its data sheet, and the port bit that it carries.
#[derive(Clone, Copy, Debug, PartialEq, Eq)]
pub struct PinRow {
    pub pin: u16,
    pub port: u8,
    pub bit: u8,
}

/// The place of the first row with the pin.
pub fn row_of_pin<const N: usize>(rows: &[PinRow; N], pin: u16) -> Option<usize>
    ensures { result ≡ position (is_at pin) rows.now }
{
    rows.iter().position(|row| row.pin == pin)
}

/// The port bit of an I/O pin. A pin that is for power, the clock or the reset has none.
pub fn pin_of(target: Target, pin: u16) -> Option<PortBit>
    ensures value { result ≡ port_bit_at target pin }
    ensures in_ports { IfSome result (λ b. (b.port < port_count target) × (b.bit < 8)) }

    // No other pin carries the same bit.
    ensures alone { IfSome result (λ b. (other : ℕ) → port_bit_at target other ≡ Some b → other ≡ pin) }
{
    bit_of_pin(target, pin)
}

fn bit_of_pin(target: Target, pin: u16) -> Option<PortBit>
    ensures { result ≡ port_bit_at target pin }
{
    match target {
        Target::F628 => port_bit(&F628_PINS, pin),
        Target::F877 => port_bit(&F877_PINS, pin),
        Target::Mega16 => port_bit(&MEGA16_PINS, pin),
        Target::Interp | Target::AnsiC => None,
    }
}

fn port_bit<const N: usize>(rows: &[PinRow; N], pin: u16) -> Option<PortBit>
    ensures { result ≡ port_bit_in rows.now pin }
{
    match row_of_pin(rows, pin) {
        Some(place) => Some(PortBit {
            port: rows[place].port,
            bit: rows[place].bit,
        }),
        None => None,
    }
}

/// The channel of the analog-to-digital converter whose input is the pin.
pub fn adc_channel(target: Target, pin: u16) -> Option<u8>
    ensures value { result ≡ channel_at target pin }
    ensures in_channels { IfSome result (λ channel. channel < 8) }

    // No other pin is the input of the same channel.
    ensures alone { IfSome result (λ channel. (other : ℕ) → channel_at target other ≡ Some channel → other ≡ pin) }
{
    channel_of_pin(target, pin)
}

fn channel_of_pin(target: Target, pin: u16) -> Option<u8>
    ensures { result ≡ channel_at target pin }
{
    match target {
        Target::F877 => channel_of(&F877_INPUTS, pin),
        Target::Mega16 => channel_of(&MEGA16_INPUTS, pin),
        Target::F628 | Target::Interp | Target::AnsiC => None,
    }
}

fn channel_of(inputs: &[u16; 8], pin: u16) -> Option<u8>
    ensures { result ≡ position (λ input. input == pin) inputs.now }
{
    match place_of(inputs, pin) {
        Some(channel) => Some(channel as u8),
        None => None,
    }
}

/// The place of the pin among the inputs.
fn place_of<const N: usize>(inputs: &[u16; N], pin: u16) -> Option<usize>
    ensures value { result ≡ position (λ input. input == pin) inputs.now }
    ensures within { IfSome result (λ place. place < N) }
{
    inputs.iter().position(|input| *input == pin)
}

/// The pin of the serial port's receiver.
pub fn rx_pin(target: Target) -> Option<u16>
    ensures { result ≡ rx_at target }
{
    match target {
        Target::F628 => Some(7),
        Target::F877 => Some(26),
        Target::Mega16 => Some(14),
        Target::Interp | Target::AnsiC => None,
    }
}

/// The pin of the serial port's transmitter.
pub fn tx_pin(target: Target) -> Option<u16>
    ensures { result ≡ tx_at target }
{
    match target {
        Target::F628 => Some(8),
        Target::F877 => Some(25),
        Target::Mega16 => Some(15),
        Target::Interp | Target::AnsiC => None,
    }
}

/// The pin that carries the pulse-width modulated output.
pub fn pwm_pin(target: Target) -> Option<u16>
    ensures { result ≡ pwm_at target }
{
    match target {
        Target::F877 => Some(16),
        Target::Mega16 => Some(21),
        Target::F628 | Target::Interp | Target::AnsiC => None,
    }
}

// A table of pins, each as its number, its port and its bit.
macro_rules! pin_rows {
    ($($pin:literal $port:ident $bit:literal,)*) => {
        [$(PinRow { pin: $pin, port: $port, bit: $bit }),*]
    };
}

const A: u8 = 0;

const B: u8 = 1;

const C: u8 = 2;

const D: u8 = 3;

const E: u8 = 4;

const F628_PINS: [PinRow; 13] = pin_rows! {
    1 A 2,
    2 A 3,
    3 A 4,
    6 B 0,
    7 B 1,
    8 B 2,
    9 B 3,
    10 B 4,
    11 B 5,
    12 B 6,
    13 B 7,
    17 A 0,
    18 A 1,
};

const F877_PINS: [PinRow; 33] = pin_rows! {
    2 A 0,
    3 A 1,
    4 A 2,
    5 A 3,
    6 A 4,
    7 A 5,
    8 E 0,
    9 E 1,
    10 E 2,
    15 C 0,
    16 C 1,
    17 C 2,
    18 C 3,
    19 D 0,
    20 D 1,
    21 D 2,
    22 D 3,
    23 C 4,
    24 C 5,
    25 C 6,
    26 C 7,
    27 D 4,
    28 D 5,
    29 D 6,
    30 D 7,
    33 B 0,
    34 B 1,
    35 B 2,
    36 B 3,
    37 B 4,
    38 B 5,
    39 B 6,
    40 B 7,
};

const MEGA16_PINS: [PinRow; 32] = pin_rows! {
    1 B 0,
    2 B 1,
    3 B 2,
    4 B 3,
    5 B 4,
    6 B 5,
    7 B 6,
    8 B 7,
    14 D 0,
    15 D 1,
    16 D 2,
    17 D 3,
    18 D 4,
    19 D 5,
    20 D 6,
    21 D 7,
    22 C 0,
    23 C 1,
    24 C 2,
    25 C 3,
    26 C 4,
    27 C 5,
    28 C 6,
    29 C 7,
    33 A 7,
    34 A 6,
    35 A 5,
    36 A 4,
    37 A 3,
    38 A 2,
    39 A 1,
    40 A 0,
};

const F877_INPUTS: [u16; 8] = [2, 3, 4, 5, 7, 8, 9, 10];

const MEGA16_INPUTS: [u16; 8] = [40, 39, 38, 37, 36, 35, 34, 33];
