//! Reads and writes of file registers.

ghost use Rattle.std.specs.Prelude.{◌≡◌, ◌+◌, ◌<◌, slice_index, slice_set};
ghost use Rattle.avr_devices.specs.DevicePolls.{answer};
ghost use Rattle.pic_devices.specs.FileSpace.{IsWithin};
ghost use Rattle.pic_devices.specs.declared.file_space.PicPlace.TheVariants as PicPlace;
ghost use Rattle.pic_devices.specs.declared.part.TheConstants.{FILE_SIZE};
ghost use Rattle.pic16_mach.specs.File.{place_of, special_byte, byte_of, after_reading, plain_read, asking_read, bit_read, special_written, stored, delivered, special_made};
ghost use Rattle.pic16_mach.specs.Exec.{bit_set};
ghost use Rattle.pic16_mach.specs.State.{act, IsNear};

use crate::insn::Destination;
use crate::state::{Acted, Flow, PicState};
use avr_devices::Answer;
use chip_tables::{Env, Poll};
use pic_devices::{PicPart, PicPlace, PicRegister, place_at};

impl PicState {
    /// What file register `f` of an instruction is.
    pub(crate) fn place_of(&self, part: PicPart, f: u8) -> PicPlace
        requires { f < 128 }
        ensures value { result ≡ place_of part self.now f }
        ensures within { IsWithin result }
    {
        place_at(part, self.address_of(f))
    }

    fn special_byte(&self, part: PicPart, register: PicRegister) -> u8
        requires { self.now.place < 10000 }
        ensures { result ≡ special_byte part self.now register }
    {
        match register {
            PicRegister::Indf => 0,
            PicRegister::Pcl => ((self.place + 1) % 256) as u8,
            PicRegister::Status => self.status(),
            PicRegister::Fsr => self.fsr,
            PicRegister::Pclath => self.pclath,
            _ => self.devices.byte(part, register),
        }
    }

    fn byte_of(&self, part: PicPart, place: PicPlace) -> u8
        requires { self.now.place < 10000 }
        ensures { result ≡ byte_of part self.now place }
    {
        match place {
            PicPlace::Ram(cell) => self.cell(cell),
            PicPlace::Special(register) => self.special_byte(part, register),
        }
    }

    fn note_reading(&mut self, place: PicPlace)
        ensures state { self.new ≡ after_reading self.old place }
        ensures part { self.new.part ≡ self.old.part }
    {
        match place {
            PicPlace::Special(PicRegister::Rcreg) => self.devices.take_byte(),
            _ => {}
        }
    }

    /// Reads a file register and asks nobody.
    pub(crate) fn take(&mut self, part: PicPart, place: PicPlace) -> u8
        requires { self.old.place < 10000 }
        ensures state { self.new ≡ after_reading self.old place }
        ensures value { result ≡ byte_of part self.old place }
        ensures part { self.new.part ≡ self.old.part }
    {
        let value = self.byte_of(part, place);
        self.note_reading(place);
        value
    }

    fn read_plain(&mut self, part: PicPart, place: PicPlace) -> Answer
        requires { self.old.place < 10000 }
        ensures state { self.new ≡ (plain_read part self.old place).state }
        ensures answer { result ≡ (plain_read part self.old place).answer }
        ensures part { self.new.part ≡ self.old.part }
    {
        let value = self.take(part, place);
        Answer {
            value,
            poll: Poll::NoPoll,
        }
    }

    fn read_asking(&mut self, part: PicPart, env: &Env, place: PicPlace) -> Answer
        requires { self.old.place < 10000 }
        ensures state { self.new ≡ (asking_read part env.now self.old place).state }
        ensures answer { result ≡ (asking_read part env.now self.old place).answer }
        ensures part { self.new.part ≡ self.old.part }
    {
        match place {
            PicPlace::Special(PicRegister::Pir1) => self.devices.ask_timer(env),
            PicPlace::Special(PicRegister::Adcon0) => self.devices.ask_converter(env),
            _ => self.read_plain(part, place),
        }
    }

    /// Reads a file register as BTFSC and BTFSS do, for one of its bits.
    pub(crate) fn read_bit(&mut self, part: PicPart, env: &Env, place: PicPlace, b: u8) -> Answer
        requires { self.old.place < 10000 }
        ensures state { self.new ≡ (bit_read part env.now self.old place b).state }
        ensures answer { result ≡ (bit_read part env.now self.old place b).answer }
        ensures part { self.new.part ≡ self.old.part }
    {
        if b == 2 {
            self.read_asking(part, env, place)
        } else {
            self.read_plain(part, place)
        }
    }

    /// A result goes to W or to the file register; `flagged` says whether the instruction sets a flag.
    pub(crate) fn deliver(
        &mut self,
        part: PicPart,
        place: PicPlace,
        d: Destination,
        x: u8,
        flagged: bool,
    ) -> Acted
        requires { IsWithin place }
        ensures state { self.new ≡ (delivered part self.old place d x flagged).state }
        ensures acted { result ≡ (delivered part self.old place d x flagged).acted }
        ensures near { IsNear result.flow }
        ensures part { self.new.part ≡ self.old.part }
    {
        match d {
            Destination::W => {
                self.w = x;
                next()
            }
            Destination::File => self.store(part, place, x, flagged),
        }
    }

    /// A file register takes a byte; `flagged` says whether the instruction sets a flag.
    pub(crate) fn store(&mut self, part: PicPart, place: PicPlace, x: u8, flagged: bool) -> Acted
        requires { IsWithin place }
        ensures state { self.new ≡ (stored part self.old place x flagged).state }
        ensures acted { result ≡ (stored part self.old place x flagged).acted }
        ensures near { IsNear result.flow }
        ensures part { self.new.part ≡ self.old.part }
    {
        match place {
            PicPlace::Ram(cell) => self.store_cell(cell, x),
            PicPlace::Special(register) => self.store_special(part, register, x, flagged),
        }
    }

    fn store_cell(&mut self, cell: u16, x: u8) -> Acted
        requires { cell < FILE_SIZE }
        ensures state { self.new ≡ record self.old { ram = slice_set self.old.ram cell x } }
        ensures acted { result ≡ act Flow.Next 1 Poll.NoPoll None }
    {
        self.ram[cell as usize] = x;
        next()
    }

    fn store_special(&mut self, part: PicPart, register: PicRegister, x: u8, flagged: bool) -> Acted
        ensures state { self.new ≡ special_written part self.old register x flagged }
        ensures acted { result ≡ (stored part self.old (PicPlace.Special register) x flagged).acted }
        ensures near { IsNear result.flow }
        ensures part { self.new.part ≡ self.old.part }
    {
        match register {
            PicRegister::Indf => next(),
            PicRegister::Pcl => jump(u32::from(self.pclath % 32) * 256 + u32::from(x)),
            PicRegister::Status => {
                if flagged {
                    self.put_banks(x);
                } else {
                    self.put_status(x);
                }
                next()
            }
            PicRegister::Fsr => {
                self.fsr = x;
                next()
            }
            PicRegister::Pclath => {
                self.pclath = x;
                next()
            }
            _ => {
                let sent = self.devices.write(part, register, x);
                sending(sent)
            }
        }
    }

    /// A file register takes the byte that it becomes by BSF of a bit.
    pub(crate) fn store_bit(&mut self, part: PicPart, place: PicPlace, b: u8, x: u8) -> Acted
        requires { IsWithin place }
        ensures state { self.new ≡ (bit_set part self.old place b x).state }
        ensures acted { result ≡ (bit_set part self.old place b x).acted }
        ensures part { self.new.part ≡ self.old.part }
    {
        match place {
            PicPlace::Ram(cell) => self.store_cell(cell, x),
            PicPlace::Special(register) => self.make_special_bit(part, register, b, x),
        }
    }

    fn make_special_bit(&mut self, part: PicPart, register: PicRegister, b: u8, x: u8) -> Acted
        ensures state { self.new ≡ special_made part self.old register b x }
        ensures acted { result ≡ (bit_set part self.old (PicPlace.Special register) b x).acted }
        ensures part { self.new.part ≡ self.old.part }
    {
        match register {
            PicRegister::Indf => next(),
            PicRegister::Pcl => jump(u32::from(self.pclath % 32) * 256 + u32::from(x)),
            PicRegister::Status => {
                self.put_status(x);
                next()
            }
            PicRegister::Fsr => {
                self.fsr = x;
                next()
            }
            PicRegister::Pclath => {
                self.pclath = x;
                next()
            }
            _ => {
                let sent = self.devices.make_bit(part, register, b, x);
                sending(sent)
            }
        }
    }
}

/// An instruction of one cycle that goes on at the next one.
pub(crate) fn next() -> Acted
    ensures { result ≡ act Flow.Next 1 Poll.NoPoll None }
{
    sending(None)
}

fn sending(sent: Option<u8>) -> Acted
    ensures { result ≡ act Flow.Next 1 Poll.NoPoll sent }
{
    Acted {
        flow: Flow::Next,
        cycles: 1,
        poll: Poll::NoPoll,
        sent,
    }
}

/// An instruction of two cycles that goes to a place.
pub(crate) fn jump(place: u32) -> Acted
    ensures { result ≡ act (Flow.To place) 2 Poll.NoPoll None }
{
    Acted {
        flow: Flow::To(place),
        cycles: 2,
        poll: Poll::NoPoll,
        sent: None,
    }
}
