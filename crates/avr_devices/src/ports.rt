//! The registers of the ports, by the number of the port; port 0 is A.

ghost use Rattle.std.specs.Prelude.{◌≡◌, ◌<◌};
ghost use Rattle.avr_devices.specs.IoSpace.{register_at, latch_register, direction_register, level_register, latch_address, direction_address, level_address};

use crate::io_space::IoRegister;

/// The latches of a port, PORTx.
pub fn latch_register(port: u8) -> IoRegister
    ensures { result ≡ latch_register port }
{
    match port {
        0 => IoRegister::Porta,
        1 => IoRegister::Portb,
        2 => IoRegister::Portc,
        3 => IoRegister::Portd,
        _ => IoRegister::Absent,
    }
}

/// The directions of a port, DDRx.
pub fn direction_register(port: u8) -> IoRegister
    ensures { result ≡ direction_register port }
{
    match port {
        0 => IoRegister::Ddra,
        1 => IoRegister::Ddrb,
        2 => IoRegister::Ddrc,
        3 => IoRegister::Ddrd,
        _ => IoRegister::Absent,
    }
}

/// The levels at the pins of a port, PINx.
pub fn level_register(port: u8) -> IoRegister
    ensures { result ≡ level_register port }
{
    match port {
        0 => IoRegister::Pina,
        1 => IoRegister::Pinb,
        2 => IoRegister::Pinc,
        3 => IoRegister::Pind,
        _ => IoRegister::Absent,
    }
}

/// The I/O address of a port's latches.
pub fn latch_address(port: u8) -> u8
    requires { port < 4 }
    ensures value { result ≡ latch_address port }
    ensures there { register_at result ≡ latch_register port }
{
    0x1b - 3 * port
}

/// The I/O address of a port's directions.
pub fn direction_address(port: u8) -> u8
    requires { port < 4 }
    ensures value { result ≡ direction_address port }
    ensures there { register_at result ≡ direction_register port }
{
    0x1a - 3 * port
}

/// The I/O address of the levels at a port's pins.
pub fn level_address(port: u8) -> u8
    requires { port < 4 }
    ensures value { result ≡ level_address port }
    ensures there { register_at result ≡ level_register port }
{
    0x19 - 3 * port
}
