//! What is read of a text, line by line.

ghost use Rattle.std.specs.Prelude.{◌≡◌, IfOk, reverse};
ghost use Rattle.texts.specs.Keys.{Takes};
ghost use Rattle.interp_code.specs.declared.reader.Stage.TheVariants as stage;
ghost use Rattle.interp_code.specs.Said.{said};
ghost use Rattle.interp_code.specs.Line.{Input, Output, Analog, Variable, Relay, Persistent, BitCount, Operation, End};
ghost use Rattle.interp_code.specs.Program.{are_in};
ghost use Rattle.interp_code.specs.Draft as draft_of;
ghost use Rattle.interp_code.specs.Draft.{ifs_behind, sizes, start, step, step_at, step_kept, step_line};
ghost use Rattle.interp_code.specs.Held.{draft};

use crate::line::{Line, line_of};
use int_code::limits::{MOST_BITS, MOST_PERSISTENT};
use int_code::op::{IntOp, Ops, Shape};
use int_code::range::{Counts, is_in_range};
use ladder_tree::element::Nums;
use std::alloc::{AllocError, Global};
use texts::keys::{KeySet, add_key, has_key};

/// Which lines may come next.
#[derive(Clone, Copy)]
pub enum Stage {
    /// Nothing was read.
    Start,
    /// The format was read.
    Headed,
    /// The cycle was read: inputs, outputs, analog inputs and variables may come, and what comes behind those.
    Named,
    /// A relay or a persistent variable was read: more of them may come, or the number of bits.
    Kept,
    /// The number of bits was read.
    Sized,
    /// `code` was read: operations may come, or `end`.
    Coded,
    /// `end` was read.
    Ended,
}

/// What was read so far. Names are parts of the text, in the order in which they came, each once.
#[derive(Drop)]
pub struct Reader<'a> {
    pub stage: Stage,
    pub cycle: u32,
    pub inputs: KeySet<'a>,
    pub outputs: KeySet<'a>,
    pub analogs: KeySet<'a>,
    pub variables: KeySet<'a>,
    /// A start value for each variable.
    pub starts: Nums,
    pub relays: KeySet<'a>,
    pub persistent: KeySet<'a>,
    pub bits: u32,
    pub ops: Ops,
    /// For each open if, the innermost last, whether it had its `els`.
    pub ifs: Vec<bool>,
}

impl<'a> Reader<'a> {
    pub fn new(alloc: Global) -> Self
        ensures { draft result ≡ start }
    {
        Reader {
            stage: Stage::Start,
            cycle: 0,
            inputs: KeySet::new(alloc),
            outputs: KeySet::new(alloc),
            analogs: KeySet::new(alloc),
            variables: KeySet::new(alloc),
            starts: Nums::new(alloc),
            relays: KeySet::new(alloc),
            persistent: KeySet::new(alloc),
            bits: 0,
            ops: Ops::new(alloc),
            ifs: Vec::new(alloc),
        }
    }

    /// Reads a line, and says whether it may stand where it stands.
    pub fn read(&mut self, alloc: Global, line: &'a [u8]) -> Result<bool, AllocError>
        ensures { IfOk result (λ ok. Takes (step_line (draft self.old) line.now) ok (draft self.new)) }
    {
        match line_of(alloc, line)? {
            None => Ok(false),
            Some(line) => self.take(line),
        }
    }

    fn take(&mut self, line: Line<'a>) -> Result<bool, AllocError>
        ensures { IfOk result (λ ok. Takes (step (draft self.old) (said line.entry)) ok (draft self.new)) }
    {
        match self.stage {
            Stage::Start => Ok(self.take_magic(line)),
            Stage::Headed => Ok(self.take_cycle(line)),
            Stage::Named => self.take_name(line),
            Stage::Kept => self.take_kept(line),
            Stage::Sized => Ok(self.take_code(line)),
            Stage::Coded => self.take_operation(line),
            Stage::Ended => Ok(false),
        }
    }

    fn take_magic(&mut self, line: Line<'a>) -> bool
        ensures { Takes (step_at stage.Start (draft self.old) (said line.entry)) result (draft self.new) }
    {
        match line {
            Line::Magic => {
                self.stage = Stage::Headed;
                true
            }
            _ => false,
        }
    }

    fn take_cycle(&mut self, line: Line<'a>) -> bool
        ensures { Takes (step_at stage.Headed (draft self.old) (said line.entry)) result (draft self.new) }
    {
        match line {
            Line::Cycle(cycle) => {
                self.cycle = cycle;
                self.stage = Stage::Named;
                true
            }
            _ => false,
        }
    }

    fn take_name(&mut self, line: Line<'a>) -> Result<bool, AllocError>
        ensures { IfOk result (λ ok. Takes (step_at stage.Named (draft self.old) (said line.entry)) ok (draft self.new)) }
    {
        match line {
            Line::Input(name) => self.take_input(name),
            Line::Output(name) => self.take_output(name),
            Line::Analog(name) => self.take_analog(name),
            Line::Variable(name, start) => self.take_variable(name, start),
            _ if self.analogs_are_variables() => self.take_kept(line),
            _ => Ok(false),
        }
    }

    fn take_kept(&mut self, line: Line<'a>) -> Result<bool, AllocError>
        ensures { IfOk result (λ ok. Takes (step_kept (draft self.old) (said line.entry)) ok (draft self.new)) }
    {
        match line {
            Line::Relay(name) => self.take_relay(name),
            Line::Persistent(name) => self.take_persistent(name),
            Line::BitCount(bits) => Ok(self.take_bits(bits)),
            _ => Ok(false),
        }
    }

    fn take_code(&mut self, line: Line<'a>) -> bool
        ensures { Takes (step_at stage.Sized (draft self.old) (said line.entry)) result (draft self.new) }
    {
        match line {
            Line::Code => {
                self.stage = Stage::Coded;
                true
            }
            _ => false,
        }
    }

    fn take_operation(&mut self, line: Line<'a>) -> Result<bool, AllocError>
        ensures { IfOk result (λ ok. Takes (step_at stage.Coded (draft self.old) (said line.entry)) ok (draft self.new)) }
    {
        match line {
            Line::Operation(op) => self.add_operation(op),
            Line::End => Ok(self.take_end()),
            _ => Ok(false),
        }
    }

    fn take_input(&mut self, name: &'a [u8]) -> Result<bool, AllocError>
        ensures { IfOk result (λ ok. Takes (step_at stage.Named (draft self.old) (Input name.now)) ok (draft self.new)) }
    {
        if self.outputs.len() != 0 || self.analogs.len() != 0 || self.variables.len() != 0 {
            return Ok(false);
        }
        add_key(&mut self.inputs, name)
    }

    fn take_output(&mut self, name: &'a [u8]) -> Result<bool, AllocError>
        ensures { IfOk result (λ ok. Takes (step_at stage.Named (draft self.old) (Output name.now)) ok (draft self.new)) }
    {
        if self.analogs.len() != 0 || self.variables.len() != 0 {
            return Ok(false);
        }
        add_key(&mut self.outputs, name)
    }

    fn take_analog(&mut self, name: &'a [u8]) -> Result<bool, AllocError>
        ensures { IfOk result (λ ok. Takes (step_at stage.Named (draft self.old) (Analog name.now)) ok (draft self.new)) }
    {
        if self.variables.len() != 0 {
            return Ok(false);
        }
        add_key(&mut self.analogs, name)
    }

    fn take_variable(&mut self, name: &'a [u8], start: i16) -> Result<bool, AllocError>
        ensures { IfOk result (λ ok. Takes (step_at stage.Named (draft self.old) (Variable name.now start)) ok (draft self.new)) }
    {
        if !add_key(&mut self.variables, name)? {
            return Ok(false);
        }
        self.starts.push(start)?;
        Ok(true)
    }

    /// Whether each analog name is that of a variable. This is asked once, where all variables were read.
    fn analogs_are_variables(&self) -> bool
        ensures { result ≡ are_in (draft self.now).names.variables (draft self.now).names.analog }
    {
        for name in self.analogs.as_slice() {
            if !has_key(&self.variables, name) {
                return false;
            }
        }
        true
    }

    fn take_relay(&mut self, name: &'a [u8]) -> Result<bool, AllocError>
        ensures { IfOk result (λ ok. Takes (step_kept (draft self.old) (Relay name.now)) ok (draft self.new)) }
    {
        if self.persistent.len() != 0 || self.relays.len() >= MOST_BITS as usize {
            return Ok(false);
        }
        self.stage = Stage::Kept;
        add_key(&mut self.relays, name)
    }

    fn take_persistent(&mut self, name: &'a [u8]) -> Result<bool, AllocError>
        ensures { IfOk result (λ ok. Takes (step_kept (draft self.old) (Persistent name.now)) ok (draft self.new)) }
    {
        if !has_key(&self.variables, name) || self.persistent.len() >= MOST_PERSISTENT as usize {
            return Ok(false);
        }
        self.stage = Stage::Kept;
        add_key(&mut self.persistent, name)
    }

    fn take_bits(&mut self, bits: u32) -> bool
        ensures { Takes (step_kept (draft self.old) (BitCount bits)) result (draft self.new) }
    {
        if self.relays.len() > bits as usize || bits > MOST_BITS {
            return false;
        }
        self.bits = bits;
        self.stage = Stage::Sized;
        true
    }

    fn add_operation(&mut self, op: IntOp) -> Result<bool, AllocError>
        ensures { IfOk result (λ ok. Takes (step_at stage.Coded (draft self.old) (Operation op)) ok (draft self.new)) }
    {
        if self.has_range(&op) && nest(&mut self.ifs, op.shape())? {
            self.ops.push(op)?;
            Ok(true)
        } else {
            Ok(false)
        }
    }

    fn take_end(&mut self) -> bool
        ensures { Takes (step_at stage.Coded (draft self.old) End) result (draft self.new) }
    {
        if !self.ifs.is_empty() {
            return false;
        }
        self.stage = Stage::Ended;
        true
    }

    /// Whether an operation names only what was read.
    #[tactic(auto, using(crate::proofs::RangeTests::same_test))]
    fn has_range(&self, op: &IntOp) -> bool
        ensures { result ≡ draft_of.is_in_range (sizes (draft self.now)) op.now }
    {
        let counts = Counts {
            bits: self.bits as usize,
            outputs: self.outputs.len(),
            inputs: self.inputs.len(),
            analogs: self.analogs.len(),
            variables: self.variables.len(),
            persistent: self.persistent.len(),
        };
        is_in_range(counts, op)
    }
}

/// Opens or closes an if, or takes its `els`. It says whether an operation of this shape may come.
fn nest(ifs: &mut Vec<bool>, shape: Shape) -> Result<bool, AllocError>
    ensures { IfOk result (λ ok. Takes (ifs_behind shape (reverse ifs.old.items)) ok (reverse ifs.new.items)) }
{
    match shape {
        Shape::Opens => {
            ifs.push(false)?;
            Ok(true)
        }
        Shape::Turns => match ifs.pop() {
            Some(false) => {
                ifs.push(true)?;
                Ok(true)
            }
            _ => Ok(false),
        },
        Shape::Closes => Ok(ifs.pop().is_some()),
        Shape::Plain => Ok(true),
    }
}
