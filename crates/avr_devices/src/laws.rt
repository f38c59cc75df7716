//! Laws of the devices, each the contract of a function that does nothing.

ghost use Rattle.std.specs.Prelude.{◌≡◌, ◌<◌, ℕ, slice_index};
ghost use Rattle.avr_devices.specs.Device.{port_of, with_port, pins};
ghost use Rattle.avr_devices.specs.DeviceReads.{device_byte};
ghost use Rattle.avr_devices.specs.DeviceWrites.{device_written};
ghost use Rattle.avr_devices.specs.IoSpace.{latch_register, direction_register, level_register};
ghost use Rattle.avr_devices.specs.declared.devices.AvrDevices.{AvrDevices};

/// The registers of a port read as its latches, its directions and the levels at its pins.
pub fn ports_are_read()
    ensures latch { (d : AvrDevices) (port : ℕ) → port < 4 → device_byte d (latch_register port) ≡ (port_of d port).latch }
    ensures direction { (d : AvrDevices) (port : ℕ) → port < 4 → device_byte d (direction_register port) ≡ (port_of d port).direction }
    ensures level { (d : AvrDevices) (port : ℕ) → port < 4 → device_byte d (level_register port) ≡ pins (port_of d port) (slice_index d.reading.levels port) }
{}

/// A write to the latches or the directions of a port sets them, and nothing else.
pub fn ports_are_written()
    ensures latch { (d : AvrDevices) (port x cycles : ℕ) → port < 4 → device_written d (latch_register port) x cycles ≡ with_port d port (record (port_of d port) { latch = x }) }
    ensures direction { (d : AvrDevices) (port x cycles : ℕ) → port < 4 → device_written d (direction_register port) x cycles ≡ with_port d port (record (port_of d port) { direction = x }) }
    ensures level { (d : AvrDevices) (port x cycles : ℕ) → port < 4 → device_written d (level_register port) x cycles ≡ d }
{}
