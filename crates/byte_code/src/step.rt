//! One step of the byte machine.

ghost use Rattle.std.specs.Prelude.{◌≡◌, ◌<◌, suc, length, is_some};
ghost use Rattle.byte_code.specs.Machine.{is_name, label_place, byte_step, act, returned};
ghost use Rattle.byte_code.specs.State.{behind, went_of, first_of};
ghost use Rattle.byte_code.specs.Table.{shape_of, said_by, branches};

use crate::prim::{BytePrim, DeviceOp, Paced, Prims, Shape};
use crate::state::{ByteState, Bytes};
use chip_tables::{Env, Poll};

/// One step: the primitive at the machine's place is done. False exactly where none stands there; the machine then stays as it is.
#[tactic(auto, using(crate::proofs::Steps::stops, crate::proofs::Steps::steps))]
pub fn byte_step(s: &mut ByteState, code: &Prims, env: &Env) -> bool
    ensures answer { result ≡ is_some (byte_step code.now s.old.bytes env.now.ready env.now.reading) }
    ensures state { s.new ≡ behind s.old (byte_step code.now s.old.bytes env.now.ready env.now.reading) }
{
    let place = s.bytes.place;
    if place >= code.len() {
        return false;
    }
    s.act(code.as_slice(), &code.get(place).prim, env);
    true
}

impl ByteState {
    fn act(&mut self, code: &[Paced], prim: &BytePrim, env: &Env)
        requires { self.old.bytes.place < length code.now }
        ensures { self.new ≡ went_of (act code.now prim.now self.old.bytes env.now.ready env.now.reading) }
    {
        let next = self.bytes.place + 1;
        self.sent = self.bytes.said_by(prim);
        self.poll = Poll::NoPoll;
        let shape = shape_of(prim);
        if !env.ready && matches!(shape, Shape::AtPoll) {
            self.poll = Poll::CycleNotReady;
            return;
        }
        if !env.ready && matches!(shape, Shape::AtDevice) {
            self.poll = Poll::DeviceNotReady;
            return;
        }
        self.bytes.store.apply(prim);
        match shape {
            Shape::AtStart => {
                self.bytes.started = true;
                self.bytes.place = next;
            }
            Shape::AtPoll => {
                self.bytes.store.reading = env.reading;
                self.poll = Poll::CycleReady;
                self.bytes.place = next;
            }
            Shape::AtDevice | Shape::Names { .. } | Shape::Straight => self.bytes.place = next,
            Shape::Jumps { label } => self.bytes.place = label_place(code, label),
            Shape::Branches { label } => {
                if self.bytes.branches(prim) {
                    self.bytes.place = label_place(code, label);
                } else {
                    self.bytes.place = next;
                }
            }
            Shape::Calls { label } => {
                self.bytes.open_call = Some(next);
                self.bytes.place = label_place(code, label);
            }
            Shape::Returns => self.bytes.go_back(next),
        }
    }
}

impl Bytes {
    fn go_back(&mut self, next: usize)
        requires { next ≡ suc self.old.place }
        ensures { self.new ≡ returned self.old self.old.store self.old.open_call }
    {
        match self.open_call {
            Some(place) => {
                self.open_call = None;
                self.place = place;
            }
            None => self.place = next,
        }
    }

    fn said_by(&self, prim: &BytePrim) -> Option<u8>
        ensures { result ≡ first_of (said_by prim.now self.now.store) }
    {
        match prim {
            BytePrim::Device(DeviceOp::Send { from }) if !self.store.reading.tx_busy => {
                Some(self.store.byte_from(*from))
            }
            _ => None,
        }
    }

    fn branches(&self, prim: &BytePrim) -> bool
        ensures { result ≡ branches prim.now self.now.store }
    {
        match prim {
            BytePrim::JumpWhere { test, .. } => self.store.says(*test),
            _ => false,
        }
    }
}

/// How a primitive goes on.
fn shape_of(prim: &BytePrim) -> Shape
    ensures { result ≡ shape_of prim.now }
{
    match prim {
        BytePrim::Start { .. } => Shape::AtStart,
        BytePrim::CyclePoll { .. } => Shape::AtPoll,
        BytePrim::AdcPoll { .. } => Shape::AtDevice,
        BytePrim::Label { label } => Shape::Names { label: *label },
        BytePrim::Jump { label } => Shape::Jumps { label: *label },
        BytePrim::Call { label } => Shape::Calls { label: *label },
        BytePrim::Return => Shape::Returns,
        BytePrim::JumpWhere { label, .. } => Shape::Branches { label: *label },
        BytePrim::Bit(_)
        | BytePrim::Byte(_)
        | BytePrim::Word(_)
        | BytePrim::Compare(_)
        | BytePrim::Device(_)
        | BytePrim::Eeprom(_)
        | BytePrim::Table { .. } => Shape::Straight,
    }
}

/// Where a label stands first, or the end of the code.
fn label_place(code: &[Paced], label: u32) -> usize
    ensures { result ≡ label_place code.now label }
{
    for place in 0..code.len() {
        if is_label(&code[place].prim, label) {
            return place;
        }
    }
    code.len()
}

fn is_label(prim: &BytePrim, label: u32) -> bool
    ensures { result ≡ is_name (shape_of prim.now) label }
{
    match shape_of(prim) {
        Shape::Names { label: other } => other == label,
        _ => false,
    }
}
