//! What operations do to the devices.

ghost use Rattle.std.specs.Prelude.{◌≡◌, ◌<◌, length, true, false, None};
ghost use Rattle.int_code.specs.Device.{saves, is_busy, checked, sends, with_duty};
ghost use Rattle.int_code.specs.Groups.{is_of_device};
ghost use Rattle.int_code.specs.Held.{store_of, devices_of, held_sizes, state_sizes, SameSizes};
ghost use Rattle.int_code.specs.Meaning.{store_after, received, transmitted};
ghost use Rattle.int_code.specs.Stands.{IsIdle};
ghost use Rattle.int_code.specs.WellFormed.{IsDest, IsInRange};
ghost use Rattle.int_code.specs.declared.limits.TheConstants.{MOST_PERSISTENT};

use crate::op::{BitDest, BitSource, IntOp, NumSource};
use crate::operand::{number, saved, value};
use crate::state::{Devices, Pending, State};
use ladder_meaning::reading::Reading;

impl Devices {
    /// Writes the low byte of a persistent variable's number. The high byte waits.
    fn save(&mut self, a: u32, n: i16)
        requires { a < MOST_PERSISTENT }
        ensures devices { devices_of self.new ≡ saves (devices_of self.old) a n }
        ensures sending { self.new.sending ≡ self.old.sending }
        ensures sent { self.new.sent ≡ self.old.sent }
    {
        let [low, high] = n.to_le_bytes();
        self.eeprom[2 * a as usize] = low;
        self.writing = true;
        self.pending = Some(Pending {
            variable: a as u8,
            byte: high,
        });
    }

    /// Whether the EEPROM is busy. A byte that waits is written where it is not.
    fn check(&mut self) -> bool
        ensures busy { result ≡ is_busy (devices_of self.old) }
        ensures devices { devices_of self.new ≡ checked (devices_of self.old) }
        ensures sending { self.new.sending ≡ self.old.sending }
        ensures sent { self.new.sent ≡ self.old.sent }
    {
        if self.writing {
            return true;
        }
        match self.pending {
            None => false,
            Some(p) => {
                self.eeprom[2 * p.variable as usize + 1] = p.byte;
                self.writing = true;
                self.pending = None;
                true
            }
        }
    }

    /// Sends a number's low byte, if the transmitter does not send.
    fn send(&mut self, n: i16)
        requires { self.old.sending ≡ false → self.old.sent ≡ None }
        ensures devices { devices_of self.new ≡ sends (devices_of self.old) n }
        ensures idle { self.new.sending ≡ false → self.new.sent ≡ None }
    {
        if !self.sending {
            let [low, _] = n.to_le_bytes();
            self.sending = true;
            self.sent = Some(low);
        }
    }

    /// The duty becomes the number in percent: 0 where it is less, and 100 where it is more.
    fn set_duty(&mut self, n: i16)
        ensures devices { devices_of self.new ≡ with_duty (devices_of self.old) n }
        ensures sending { self.new.sending ≡ self.old.sending }
        ensures sent { self.new.sent ≡ self.old.sent }
    {
        self.duty = n.clamp(0, 100) as u8;
    }
}

impl State {
    /// The variable becomes the received byte, if there is one that was not taken, and it is taken. The bit tells whether it was.
    fn receive(&mut self, v: u32, b: BitDest)
        requires number { v < length self.old.numbers.items }
        requires bit { IsDest (state_sizes self.old) b }
        ensures store { store_of self.new ≡ received (store_of self.old) v b self.old.devices.received }
        ensures sending { self.new.devices.sending ≡ self.old.devices.sending }
        ensures sent { self.new.devices.sent ≡ self.old.devices.sent }
        ensures sizes { SameSizes self.old self.new }
    {
        match self.devices.received {
            None => self.set_bit(b, false),
            Some(byte) => {
                self.devices.received = None;
                self.set_number(v, i16::from(byte));
                self.set_bit(b, true);
            }
        }
    }

    /// A number's low byte is sent where that is wanted and the transmitter does not send.
    fn transmit(&mut self, wanted: bool, n: i16)
        requires { IsIdle self.old }
        ensures store { store_of self.new ≡ transmitted (store_of self.old) wanted n }
        ensures idle { IsIdle self.new }
        ensures sizes { SameSizes self.old self.new }
    {
        if wanted {
            self.devices.send(n);
        }
    }
}

/// Executes an operation that reads or writes what devices hold.
pub fn use_device(op: &IntOp, reading: &Reading, state: &mut State)
    requires group { is_of_device op.now ≡ true }
    requires range { IsInRange (held_sizes reading.now state.old) op.now }
    requires idle { IsIdle state.old }
    ensures store { store_of state.new ≡ store_after reading.now op.now (store_of state.old) }
    ensures idle { IsIdle state.new }
    ensures sizes { SameSizes state.old state.new }
{
    match op {
        IntOp::Adc { v, k } => state.set_number(*v, *reading.analog.get(*k as usize)),
        IntOp::Pwm { w, .. } => {
            let n = number(state, *w);
            state.devices.set_duty(n);
        }
        IntOp::Rx { v, b } => state.receive(*v, *b),
        IntOp::Tx { w, s, b } => {
            let wanted = value(reading, state, *s);
            let n = number(state, *w);
            state.transmit(wanted, n);
            state.set_bit(*b, state.devices.sending);
        }
        IntOp::Eebusy { b } => {
            let busy = state.devices.check();
            state.set_bit(*b, busy);
        }
        IntOp::Eerd { v, a } => {
            let n = saved(&state.devices, *a);
            state.set_number(*v, n);
        }
        IntOp::Eewr { w, a } => {
            let n = number(state, *w);
            state.devices.save(*a, n);
        }
        _ => unreachable!(),
    }
}
