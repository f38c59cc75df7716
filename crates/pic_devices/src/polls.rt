//! Questions to the devices that end a wait.

ghost use Rattle.std.specs.Prelude.{◌≡◌, slice_index};
ghost use Rattle.avr_devices.specs.DevicePolls.{result_of};
ghost use Rattle.pic_devices.specs.DevicePolls.{cycle_answer, cycle_asked, converter_answer, converter_asked};

use crate::devices::{PicConverter, PicDevices, converter_status};
use avr_devices::{Answer, Conversion};
use chip_tables::{Env, Poll};

impl PicDevices {
    /// Asks the cycle timer: bit 2 of the answer is its flag.
    pub fn ask_timer(&mut self, env: &Env) -> Answer
        ensures state { self.new ≡ cycle_asked env.now self.old }
        ensures answer { result ≡ cycle_answer env.now self.old }
    {
        if self.timer.flag {
            return Answer {
                value: 4,
                poll: Poll::CycleStill,
            };
        }
        if self.is_timing() && env.ready {
            self.reading = env.reading;
            self.timer.flag = true;
            return Answer {
                value: 4,
                poll: Poll::CycleReady,
            };
        }
        Answer {
            value: 0,
            poll: Poll::CycleNotReady,
        }
    }

    /// Asks the converter: the answer is ADCON0.
    pub fn ask_converter(&mut self, env: &Env) -> Answer
        ensures state { self.new ≡ converter_asked env.now self.old }
        ensures answer { result ≡ converter_answer env.now self.old }
    {
        if env.ready {
            self.converter.finish(&self.reading.adc);
            return Answer {
                value: converter_status(self.converter.control, false),
                poll: Poll::NoPoll,
            };
        }
        Answer {
            value: converter_status(self.converter.control, true),
            poll: Poll::DeviceNotReady,
        }
    }
}

impl PicConverter {
    fn finish(&mut self, adc: &[u16; 8])
        ensures { self.new ≡ record self.old { result = result_of self.old.conversion self.old.result adc.now; conversion = Conversion.Idle } }
    {
        match self.conversion {
            Conversion::Idle => {}
            Conversion::Channel(channel) => self.result = channel_value(adc, channel),
            Conversion::Unsupported => self.result = 0,
        }
        self.conversion = Conversion::Idle;
    }
}

fn channel_value(adc: &[u16; 8], channel: u8) -> u16
    ensures { result ≡ slice_index adc.now channel }
{
    match adc.get(channel as usize) {
        Some(value) => *value,
        None => 0,
    }
}
