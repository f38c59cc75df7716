//! Reading a project text that comes in pieces.

ghost use Rattle.std.specs.Prelude.{◌≡◌, ℕ, [], ◌++◌, true, false, List, IfOk, OnOk, IfErr, Some, None, Err};
ghost use Rattle.ld_line.specs.Tokens.{tokens};
ghost use Rattle.ld_line.specs.declared.said.Said.TheVariants.{Is};
ghost use Rattle.ld_text.specs.declared.fault.TextError.TheVariants as error;
ghost use Rattle.ld_text.specs.declared.heard.LineForm.TheVariants as form;
ghost use Rattle.ld_text.specs.Faults.{is_bad, counting, begins_unbuilt, names_unbuilt, is_chipless, is_too_deep, is_one_too_many, fault_of, end_fault};
ghost use Rattle.ld_text.specs.declared.heard.Mark.TheVariants as mark;
ghost use Rattle.ld_text.specs.Reading.{Reads, Goes, Accepts, at_end, word_fault, form_fault, said_fault, RoomFor, Fits, fed, fed_byte, finished, line_done, next, place_of, settings_of, standing_of, mind_of, taken, went, IsStopped, IsRefused, IsRejected, Stands, StandsRefused};
ghost use Rattle.ld_text.specs.Place.{said_in};
ghost use Rattle.ld_text.specs.Text.{IsReadAs, IsCause, project_of, text_fault, early_fault};
ghost use Rattle.ld_text.specs.Within.{IsWithin};
ghost use Rattle.ld_text.specs.Tree.{is_open};

use crate::fault::TextError;
use crate::forms::{Form, FormKind, Forms, kind_of};
use crate::heard::{Heard, LineForm, Mark, hear};
use crate::place::{Place, Site};
use arrayvec::ArrayVec;
use chip_tables::Target;
use ladder_tree::fault::ProjectFault;
use ladder_tree::limits::{DEPTH, ELEMENTS, OPENINGS, PIN_LINES, RUNGS};
use ladder_tree::project::{Node, Nodes, PinList, Project, Rung, Rungs};
use ld_line::header::HeaderLine;
use ld_line::pins::PinsLine;
use ld_line::said::Said;
use ld_line::word::is_target_built;
use std::alloc::{AllocError, Global};
use texts::limits::FILE_BYTES;

/// How many there were: lines that are ended, their bytes, and the lines of each kind.
#[derive(Drop)]
pub struct Counts {
    lines: u32,
    bytes: u32,
    rungs: u32,
    elements: u32,
    /// SERIES and PARALLELs.
    openings: u32,
    pin_lines: u32,
}

/// Reads a project text that comes in pieces, and keeps the project so far and one line. Times are microseconds, the crystal is
/// hertz, the rate of the serial line baud.
#[derive(Drop)]
pub struct Reader {
    /// None while no MICRO line came.
    target: Option<Target>,
    cycle: u32,
    crystal: u32,
    baud: u32,
    pins: PinList,
    /// The rungs that are ended.
    rungs: Rungs,
    place: Place,
    forms: Forms,
    counts: Counts,
    /// The error that is answered from now on.
    first: Option<TextError>,
    /// What came of the line that is not ended.
    line: ArrayVec<u8, 512>,
    alloc: Global,
}

/// Takes a reader apart, its open forms and its counts too, each field by its name and with its type. It does nothing: a reader
/// that keeps anything more, as the text, does not compile.
fn reader_fields(reader: &Reader) {
    let Reader {
        target,
        cycle,
        crystal,
        baud,
        pins,
        rungs,
        place,
        forms,
        counts,
        first,
        line,
        alloc,
    } = reader;
    let _: &Option<Target> = target;
    let _: &u32 = cycle;
    let _: &u32 = crystal;
    let _: &u32 = baud;
    let _: &PinList = pins;
    let _: &Rungs = rungs;
    let _: &Place = place;
    let _: &Forms = forms;
    let _: &Option<TextError> = first;
    let _: &ArrayVec<u8, 512> = line;
    let _: &Global = alloc;
    for form in forms.as_slice() {
        form_fields(form);
    }
    count_fields(counts);
}

fn form_fields(form: &Form) {
    let Form { kind, nodes } = form;
    let _: &FormKind = kind;
    let _: &Nodes = nodes;
}

fn count_fields(counts: &Counts) {
    let Counts {
        lines,
        bytes,
        rungs,
        elements,
        openings,
        pin_lines,
    } = counts;
    let _: &u32 = lines;
    let _: &u32 = bytes;
    let _: &u32 = rungs;
    let _: &u32 = elements;
    let _: &u32 = openings;
    let _: &u32 = pin_lines;
}

fn is_bad(said: &Said<LineForm>) -> bool
    ensures { result ≡ is_bad said.now }
{
    matches!(said, Said::Bad)
}

fn names_unbuilt(said: &Said<LineForm>) -> bool
    ensures { result ≡ names_unbuilt said.now }
{
    match said {
        Said::Is(LineForm::Header(HeaderLine::Micro(Some(target)))) => !is_target_built(*target),
        _ => false,
    }
}

impl Counts {
    fn new() -> Counts
        ensures { result ≡ record { lines = 0; bytes = 0; rungs = 0; elements = 0; openings = 0; pin_lines = 0 } }
    {
        Counts {
            lines: 0,
            bytes: 0,
            rungs: 0,
            elements: 0,
            openings: 0,
            pin_lines: 0,
        }
    }

    /// The number of the line that is not ended, counted from 1.
    fn number(&self) -> u32
        ensures { result ≡ next self.now.lines }
    {
        self.lines.saturating_add(1)
    }
}

impl Reader {
    /// A reader of the empty text. It takes no memory.
    pub fn new(alloc: Global) -> Reader
        ensures { Stands result [] }
    {
        Reader {
            target: None,
            cycle: 10_000,
            crystal: 4_000_000,
            baud: 2_400,
            pins: PinList::new(alloc),
            rungs: Rungs::new(alloc),
            place: Place::FirstLine,
            forms: Forms::new(alloc),
            counts: Counts::new(),
            first: None,
            line: ArrayVec::new(),
            alloc,
        }
    }

    /// Takes a piece of the text. An error is the first fault of the lines that are ended, or that the line behind them
    /// is too long already. It is answered from then on.
    pub fn feed(&mut self, piece: &[u8]) -> Result<(), TextError>
        ensures stands { (text : List ℕ) → Stands self.old text → OnOk result (Stands self.new (text ++ piece.now)) }
        ensures taken { (text : List ℕ) → Stands self.old text → OnOk result (early_fault (text ++ piece.now) ≡ None) }
        ensures refused { (text : List ℕ) → Stands self.old text → IfErr result (IsCause (early_fault (text ++ piece.now))) }
        ensures kept { (text : List ℕ) → Stands self.old text → IfErr result (StandsRefused self.new (text ++ piece.now)) }
        ensures fails { IfErr result (λ e. self.new.first ≡ Some e) }
        ensures failed { (e : TextError) → self.old.first ≡ Some e → (result ≡ Err e) × (self.new ≡ self.old) }
    {
        if let Some(e) = self.first {
            return Err(e);
        }
        match self.take_bytes(piece) {
            Ok(()) => Ok(()),
            Err(e) => {
                self.first = Some(e);
                Err(e)
            }
        }
    }

    /// The project of the text that was fed, which ends here.
    pub fn end(self) -> Result<Project, TextError>
        ensures read { (text : List ℕ) → Stands self text → IfOk result (IsReadAs text) }
        ensures within { (text : List ℕ) → Stands self text → IfOk result IsWithin }
        ensures refused { (text : List ℕ) → Stands self text → IfErr result (IsCause (text_fault text)) }
        ensures failed { (e : TextError) → self.first ≡ Some e → result ≡ Err e }
    {
        let mut reader = self;
        match reader.finish() {
            Ok(target) => Ok(reader.project(target)),
            Err(e) => Err(e),
        }
    }

    /// Ends the text here: the target of its project, or why it has none.
    fn finish(&mut self) -> Result<Target, TextError>
        ensures accepts { self.old.first ≡ None → IfOk result (λ target. finished (mind_of self.old) ≡ Accepts (project_of (settings_of self.new) target self.new.rungs)) }
        ensures rejects { self.old.first ≡ None → IfErr result (IsRejected (finished (mind_of self.old))) }
        ensures failed { (e : TextError) → self.old.first ≡ Some e → result ≡ Err e }
    {
        if let Some(e) = self.first {
            return Err(e);
        }
        if self.line.is_empty() {
            return self.end_text();
        }
        let size = self.line.len() as u32;
        self.take_line(size)?;
        self.end_text()
    }

    /// The target of the text's project where the last line was taken.
    fn end_text(&self) -> Result<Target, TextError>
        ensures accepts { IfOk result (λ target. at_end (next self.now.counts.lines) (Goes (standing_of self.now)) ≡ Accepts (project_of (settings_of self.now) target self.now.rungs)) }
        ensures rejects { IfErr result (IsRejected (at_end (next self.now.counts.lines) (Goes (standing_of self.now)))) }
    {
        let line = self.counts.number();
        match (self.site(), self.target) {
            (Site::Between, Some(target)) => Ok(target),
            (Site::First, _) => Err(TextError::Refused(ProjectFault::NotProject { line })),
            _ => Err(TextError::Refused(ProjectFault::Unclosed { line })),
        }
    }

    /// The project that was read, for this target.
    fn project(self, target: Target) -> Project
        ensures { result ≡ project_of (settings_of self) target self.rungs }
    {
        let Reader {
            cycle,
            crystal,
            baud,
            pins,
            rungs,
            ..
        } = self;
        Project {
            target,
            cycle,
            crystal,
            baud,
            pins,
            rungs,
        }
    }

    /// Takes bytes of the text.
    #[tactic(auto, using(crate::proofs::FedLemmas::stopped_at))]
    fn take_bytes(&mut self, piece: &[u8]) -> Result<(), TextError>
        ensures reads { OnOk result (mind_of self.new ≡ fed (mind_of self.old) piece.now) }
        ensures refused { IfErr result (IsRefused (fed (mind_of self.old) piece.now)) }
        ensures first { OnOk result (self.new.first ≡ self.old.first) }
    {
        for byte in piece {
            if let Err(e) = self.take_byte(*byte) {
                return Err(e);
            }
        }
        Ok(())
    }

    /// Takes a byte of the text.
    fn take_byte(&mut self, byte: u8) -> Result<(), TextError>
        ensures reads { OnOk result (mind_of self.new ≡ fed_byte (mind_of self.old) byte) }
        ensures refused { IfErr result (IsRefused (fed_byte (mind_of self.old) byte)) }
        ensures first { OnOk result (self.new.first ≡ self.old.first) }
    {
        if byte == b'\n' {
            let size = self.line.len() as u32 + 1;
            return self.take_line(size);
        }
        if self.line.is_full() {
            let line = self.counts.number();
            return Err(TextError::Refused(ProjectFault::LineTooLong { line }));
        }
        self.line.push(byte);
        Ok(())
    }

    /// Takes the line that came, which takes so many bytes of the text.
    fn take_line(&mut self, size: u32) -> Result<(), TextError>
        ensures goes { OnOk result (mind_of self.new ≡ line_done (next self.old.counts.lines) (taken (next self.old.counts.lines) self.old.line.items size (standing_of self.old))) }
        ensures stops { IfErr result (IsStopped (taken (next self.old.counts.lines) self.old.line.items size (standing_of self.old))) }
        ensures first { OnOk result (self.new.first ≡ self.old.first) }
    {
        let number = self.counts.number();
        let heard = hear(
            self.alloc,
            self.site(),
            self.target,
            number,
            self.line.as_slice(),
        )?;
        if let Some(fault) = self.word_fault(number, &heard) {
            return Err(TextError::Refused(fault));
        }
        self.take_said(number, size, heard.said)
    }

    /// Takes the line of the number that came, which takes so many bytes of the text and says this.
    fn take_said(&mut self, number: u32, size: u32, said: Said<LineForm>) -> Result<(), TextError>
        requires said { said ≡ said_in (place_of self.old).site number self.old.line.items }
        requires fault { fault_of (place_of self.old) number self.old.line.items size said ≡ said_fault (place_of self.old) number size said }
        ensures goes { OnOk result (Reads (next self.new.counts.lines) self.new.line.items (standing_of self.new) ≡ line_done number (taken number self.old.line.items size (standing_of self.old))) }
        ensures stops { IfErr result (IsStopped (taken number self.old.line.items size (standing_of self.old))) }
        ensures first { OnOk result (self.new.first ≡ self.old.first) }
    {
        match said {
            Said::Bad => Err(TextError::Refused(ProjectFault::BadLine { line: number })),
            Said::Range => Err(TextError::Refused(ProjectFault::NumberRange { line: number })),
            Said::Is(form) => {
                if let Some(fault) = self.form_fault(number, size, &form) {
                    return Err(TextError::Refused(fault));
                }
                let bytes = self.counts.bytes + size;
                self.take_form(form)?;
                self.counts.bytes = bytes;
                self.counts.lines = number;
                self.line.clear();
                Ok(())
            }
        }
    }

    /// Where the line that came stands.
    fn site(&self) -> Site
        ensures { result ≡ (place_of self.now).site }
    {
        if self.forms.is_open() {
            return Site::Inside;
        }
        match self.place {
            Place::FirstLine => Site::First,
            Place::Header => Site::Header,
            Place::PinLines => Site::Pins,
            Place::Body => Site::Between,
        }
    }

    /// The fault of the line that came, of which so much is heard, among those that stand in front of what it says. It has the number.
    fn word_fault(&self, number: u32, heard: &Heard) -> Option<ProjectFault>
        requires { heard.now.is_unbuilt ≡ begins_unbuilt (counting (place_of self.now).site self.now.target) (tokens self.now.line.items) }
        ensures { result ≡ word_fault (place_of self.now) number self.now.line.items heard.now.said }
    {
        let is_first = matches!(self.site(), Site::First);
        if is_first && is_bad(&heard.said) {
            Some(ProjectFault::NotProject { line: number })
        } else if !is_first && (heard.is_unbuilt || names_unbuilt(&heard.said)) {
            Some(ProjectFault::NotBuilt { line: number })
        } else {
            None
        }
    }

    /// The fault of the line that came, which says this. It has the number, and takes so many bytes of the text.
    fn form_fault(&self, number: u32, size: u32, form: &LineForm) -> Option<ProjectFault>
        ensures { result ≡ form_fault (place_of self.now) number size form.now }
    {
        if self.is_chipless(form) {
            Some(ProjectFault::UnknownChip { line: number })
        } else if self.is_too_deep(form) {
            Some(ProjectFault::TooDeep { line: number })
        } else if self.is_one_too_many(form)
            || self.counts.bytes.saturating_add(size) as usize > FILE_BYTES
        {
            Some(ProjectFault::TooMany { line: number })
        } else {
            None
        }
    }

    fn is_chipless(&self, form: &LineForm) -> bool
        ensures { result ≡ is_chipless self.now.target (Is form.now) }
    {
        match form {
            LineForm::Header(HeaderLine::Micro(None)) => true,
            LineForm::Header(HeaderLine::Program) => self.target.is_none(),
            _ => false,
        }
    }

    fn is_too_deep(&self, form: &LineForm) -> bool
        ensures { result ≡ is_too_deep (place_of self.now) (Is form.now) }
    {
        match form {
            LineForm::Body(Mark::Open(_)) => self.forms.depth() >= DEPTH as usize,
            _ => false,
        }
    }

    /// Whether there are as many lines of the kind as there may be.
    fn is_one_too_many(&self, form: &LineForm) -> bool
        ensures { result ≡ is_one_too_many (place_of self.now) (Is form.now) }
    {
        match form {
            LineForm::Body(Mark::Rung) => self.counts.rungs >= RUNGS,
            LineForm::Body(Mark::Element(_)) => self.counts.elements >= ELEMENTS,
            LineForm::Body(Mark::Open(_)) => self.counts.openings >= OPENINGS,
            LineForm::Pins(PinsLine::Pin(_)) => self.counts.pin_lines >= PIN_LINES,
            _ => false,
        }
    }

    /// Takes what a line says.
    fn take_form(&mut self, form: LineForm) -> Result<(), AllocError>
        requires fits { Fits (is_open self.old.forms) form }
        requires room { RoomFor (place_of self.old) form }
        ensures goes { OnOk result (standing_of self.new ≡ went (standing_of self.old) form) }
        ensures first { OnOk result (self.new.first ≡ self.old.first) }
    {
        match form {
            LineForm::Blank => Ok(()),
            LineForm::Magic => {
                self.place = Place::Header;
                Ok(())
            }
            LineForm::Header(line) => {
                self.take_header(line);
                Ok(())
            }
            LineForm::Pins(line) => self.take_pins(line),
            LineForm::Body(mark) => self.take_mark(mark),
        }
    }

    fn take_header(&mut self, line: HeaderLine)
        requires { is_open self.old.forms ≡ false }
        ensures goes { standing_of self.new ≡ went (standing_of self.old) (form.Header line) }
        ensures first { self.new.first ≡ self.old.first }
    {
        match line {
            HeaderLine::Micro(target) => self.target = target,
            HeaderLine::Cycle(cycle) => self.cycle = cycle,
            HeaderLine::Crystal(crystal) => self.crystal = crystal,
            HeaderLine::Baud(baud) => self.baud = baud,
            HeaderLine::Compiled => {}
            HeaderLine::Pins => self.place = Place::PinLines,
            HeaderLine::Program => self.place = Place::Body,
        }
    }

    fn take_pins(&mut self, line: PinsLine) -> Result<(), AllocError>
        requires closed { is_open self.old.forms ≡ false }
        requires room { RoomFor (place_of self.old) (form.Pins line) }
        ensures goes { OnOk result (standing_of self.new ≡ went (standing_of self.old) (form.Pins line)) }
        ensures first { OnOk result (self.new.first ≡ self.old.first) }
    {
        match line {
            PinsLine::Pin(line) => {
                self.counts.pin_lines += 1;
                self.pins.push(line)
            }
            PinsLine::End => {
                self.place = Place::Header;
                Ok(())
            }
        }
    }

    fn take_mark(&mut self, mark: Mark) -> Result<(), AllocError>
        requires fits { Fits (is_open self.old.forms) (form.Body mark) }
        requires room { RoomFor (place_of self.old) (form.Body mark) }
        ensures goes { OnOk result (standing_of self.new ≡ went (standing_of self.old) (form.Body mark)) }
        ensures first { OnOk result (self.new.first ≡ self.old.first) }
    {
        match mark {
            Mark::Rung => {
                self.counts.rungs += 1;
                self.forms.open(self.alloc, FormKind::Rung)
            }
            Mark::Open(circuit) => {
                self.counts.openings += 1;
                self.forms.open(self.alloc, kind_of(circuit))
            }
            Mark::End => self.end_form(),
            Mark::Element(leaf) => {
                self.counts.elements += 1;
                self.forms.append(Node::Leaf(leaf))
            }
        }
    }

    /// Ends the innermost form. Behind a rung the text goes on in its body.
    fn end_form(&mut self) -> Result<(), AllocError>
        requires { is_open self.old.forms ≡ true }
        ensures goes { OnOk result (standing_of self.new ≡ went (standing_of self.old) (form.Body mark.End)) }
        ensures first { OnOk result (self.new.first ≡ self.old.first) }
    {
        match self.forms.end()? {
            Some(nodes) => {
                self.place = Place::Body;
                self.rungs.push(Rung { nodes })
            }
            None => Ok(()),
        }
    }
}
