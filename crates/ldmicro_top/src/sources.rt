//! What the names of a command hold: projects, traces and code.

ghost use Rattle.std.specs.Prelude.{◌≡◌, true, IfOk, IfErr, Decides};
ghost use Rattle.ladder_trace.specs.Trace.{IsTraceOf};
ghost use Rattle.trace_run.specs.Run.{IsProgramOf};
ghost use Rattle.interp_code.specs.Machine.{IsRunnable};
ghost use Rattle.ldmicro_top.specs.Expected.{HeldAnswers, ProjectAnswers, CompileAnswers, CodeAnswers, HexAnswers, NoMachineAnswers, TraceAnswers, ReplayAnswers, Expected};
ghost use Rattle.ldmicro_top.specs.Command.{Simulate, Replay};
ghost use Rattle.ldmicro_top.specs.Ran.{IsCompiled, IsSimulated, ReplaysHeld, IsReplayed};
ghost use Rattle.ldmicro_top.specs.Replayed.{SameNames};
ghost use Rattle.ldmicro_top.specs.Sources.{HoldsProject, HoldsTrace, HoldsCode, HoldsHex};
ghost use Rattle.ldmicro_top.specs.Steps.{OnlyReads, Declined, unread, status_of_source, lines_of_run, IsReady, lines_of_file, end_of_file, IsFileReady};
ghost use Rattle.ldmicro_top.specs.Judged.{IsJudged};
ghost use Rattle.ldmicro_top.specs.Verdict.{code_fault};
ghost use Rattle.std.specs.String.{string_bytes};

use crate::compile::{Compiled, compile_legal};
use crate::judge::judge;
use crate::kept::plan_of;
use crate::status::{InputFault, Status};
use crate::traced::{FileRun, TraceRun, replay, simulation};
use avr_file::run::AvrRun;
use chip_tables::{Target, flash_words};
use intel_hex::fault::HexError;
use intel_hex::image::Image;
use intel_hex::read::read_hex;
use interp_code::program::InterpProgram;
use interp_code::read::{InterpError, read_interp};
use ladder_lower::program::lower;
use ladder_rules::{Legal, word_need};
use ladder_trace::trace::{Trace, TraceError, read_trace};
use ladder_tree::fault::ProjectFault;
use ladder_tree::names::{NameList, Names};
use ld_base::files::{Files, OpenFault};
use ld_base::whole::read_file;
use ld_text::fault::TextError;
use project_file::{SourceFault, read_source};
use std::alloc::Global;
use texts::limits::{CODE_BYTES, FILE_BYTES};

/// The status of a file that could not be read.
fn unread(fault: OpenFault) -> Status
    ensures { result ≡ unread fault }
{
    match fault {
        OpenFault::Memory(_) => Status::NoMemory,
        OpenFault::Failed | OpenFault::Absent => Status::ReadFault,
    }
}

/// The status of a source that gives no project.
fn status_of_source(fault: SourceFault) -> Status
    ensures { result ≡ status_of_source fault }
{
    match fault {
        SourceFault::Memory(_) => Status::NoMemory,
        SourceFault::Absent | SourceFault::Failed => Status::ReadFault,
        SourceFault::Refused(fault) => Status::Refused(fault),
    }
}

/// The project that a source holds, which keeps the rules and fits.
pub fn take_project<F: Files>(alloc: Global, files: &mut F, source: &str) -> Result<Legal, Status>
    ensures only { OnlyReads F.tells (F.counts files.old) (F.counts files.new) (F.held files.old) (F.held files.new) }
    ensures judged { IfOk result (λ l. IsJudged l.names l.project) }
    ensures holds { F.tells ≡ true → IfOk result (λ l. HoldsProject (F.held files.old) source.now l.project) }
    ensures declined { IfErr result (Declined F.tells (HeldAnswers (ProjectAnswers (λ p a. ⊥)) (F.held files.old source.now)) (F.counts files.old) (F.counts files.new)) }
{
    let project = match read_source(alloc, files, source) {
        Ok(project) => project,
        Err(fault) => return Err(status_of_source(fault)),
    };
    match judge(alloc, project) {
        Ok(legal) => Ok(legal),
        Err(TextError::Refused(fault)) => Err(Status::Refused(fault)),
        Err(TextError::Memory(_)) => Err(Status::NoMemory),
    }
}

/// The trace that a name holds, for a project with the names.
pub fn take_trace<F: Files>(
    alloc: Global,
    files: &mut F,
    name: &str,
    names: &Names,
) -> Result<Trace, Status>
    ensures only { OnlyReads F.tells (F.counts files.old) (F.counts files.new) (F.held files.old) (F.held files.new) }
    ensures fits { IfOk result (IsTraceOf names.now) }
    ensures holds { F.tells ≡ true → IfOk result (HoldsTrace (F.held files.old) name.now names.now) }
    ensures declined { IfErr result (Declined F.tells (HeldAnswers (TraceAnswers names.now (λ t a. ⊥)) (F.held files.old name.now)) (F.counts files.old) (F.counts files.new)) }
{
    let text = match read_file(alloc, files, name, FILE_BYTES) {
        Ok(text) => text,
        Err(fault) => return Err(unread(fault)),
    };
    match read_trace(alloc, names, &text) {
        Ok(trace) => Ok(trace),
        Err(TraceError::Fault { line }) => Err(Status::BadInput(InputFault::Trace { line })),
        Err(TraceError::Memory(_)) => Err(Status::NoMemory),
    }
}

/// Whether two lists have the same names in the same order.
fn same_list(a: &NameList, b: &NameList) -> bool
    ensures { Decides result (b.now ≡ a.now) }
{
    if a.len() != b.len() {
        return false;
    }
    for place in 0..a.len() {
        if a.get(place).as_slice() != b.get(place).as_slice() {
            return false;
        }
    }
    true
}

/// Whether the names of each kind are the same.
fn same_names(a: &Names, b: &Names) -> bool
    ensures { Decides result (SameNames a.now b.now) }
{
    same_list(&a.inputs, &b.inputs)
        && same_list(&a.outputs, &b.outputs)
        && same_list(&a.analog, &b.analog)
        && same_list(&a.variables, &b.variables)
        && same_list(&a.relays, &b.relays)
        && same_list(&a.persistent, &b.persistent)
}

/// The program with the names that a name holds as an interpretable text.
pub fn take_code<F: Files>(
    alloc: Global,
    files: &mut F,
    name: &str,
    names: &Names,
) -> Result<InterpProgram, Status>
    ensures only { OnlyReads F.tells (F.counts files.old) (F.counts files.new) (F.held files.old) (F.held files.new) }
    ensures runs { IfOk result IsRunnable }
    ensures fits { IfOk result (λ said. IsProgramOf names.now said.program) }
    ensures holds { F.tells ≡ true → IfOk result (λ said. HoldsCode (F.held files.old) name.now names.now said.program) }
    ensures declined { IfErr result (Declined F.tells (HeldAnswers (CodeAnswers names.now (λ a. ⊥)) (F.held files.old name.now)) (F.counts files.old) (F.counts files.new)) }
{
    let text = match read_file(alloc, files, name, CODE_BYTES) {
        Ok(text) => text,
        Err(fault) => return Err(unread(fault)),
    };
    match read_interp(alloc, &text) {
        Ok(said) => {
            if !same_names(names, &said.names) {
                let line = said.code_line;
                return Err(Status::BadInput(InputFault::OtherProject { line }));
            }
            Ok(said)
        }
        Err(InterpError::Fault(fault)) => {
            let line = fault.line;
            Err(Status::BadInput(InputFault::Interp { line }))
        }
        Err(InterpError::Memory(_)) => Err(Status::NoMemory),
    }
}

/// The image that a name holds as a HEX file for the ATmega16.
fn take_hex<F: Files>(alloc: Global, files: &mut F, name: &str) -> Result<Image, Status>
    ensures only { OnlyReads F.tells (F.counts files.old) (F.counts files.new) (F.held files.old) (F.held files.new) }
    ensures holds { F.tells ≡ true → IfOk result (λ image. HoldsHex (F.held files.old) name.now image) }
    ensures declined { IfErr result (Declined F.tells (HeldAnswers (HexAnswers (λ a. ⊥)) (F.held files.old name.now)) (F.counts files.old) (F.counts files.new)) }
{
    let text = match read_file(alloc, files, name, FILE_BYTES) {
        Ok(text) => text,
        Err(fault) => return Err(unread(fault)),
    };
    match read_hex(alloc, Target::Mega16, &text) {
        Ok(image) => Ok(image),
        Err(HexError::Fault(fault)) => {
            let line = fault.line;
            let cause = fault.cause;
            Err(Status::BadInput(InputFault::Hex { line, cause }))
        }
        Err(HexError::Memory(_)) => Err(Status::NoMemory),
    }
}

/// Reads a file that no machine runs. Answers the status that says so.
fn decline_file<F: Files>(alloc: Global, files: &mut F, name: &str) -> Status
    ensures only { OnlyReads F.tells (F.counts files.old) (F.counts files.new) (F.held files.old) (F.held files.new) }
    ensures declined { Declined F.tells (HeldAnswers NoMachineAnswers (F.held files.old name.now)) (F.counts files.old) (F.counts files.new) result }
{
    match read_file(alloc, files, name, CODE_BYTES) {
        Ok(_) => Status::BadInput(InputFault::NoMachine),
        Err(fault) => unread(fault),
    }
}

/// The code that the project's chip may have no room for.
fn code_fault(legal: &Legal) -> Option<ProjectFault>
    ensures { result ≡ code_fault legal.now.project }
{
    let have = flash_words(legal.project().target)?;
    let need = word_need(legal);
    if have < need {
        Some(ProjectFault::CodeFull { need, have })
    } else {
        None
    }
}

/// What a source compiles to. It is refused where the chip has no room for the code that the project may need.
pub fn take_compiled<F: Files>(
    alloc: Global,
    files: &mut F,
    source: &str,
) -> Result<Compiled, Status>
    ensures only { OnlyReads F.tells (F.counts files.old) (F.counts files.new) (F.held files.old) (F.held files.new) }
    ensures compiled { F.tells ≡ true → IfOk result (λ c. IsCompiled source.now (F.held files.old) c.code (string_bytes c.report)) }
    ensures declined { IfErr result (Declined F.tells (HeldAnswers (ProjectAnswers CompileAnswers) (F.held files.old source.now)) (F.counts files.old) (F.counts files.new)) }
{
    let legal = take_project(alloc, files, source)?;
    if let Some(fault) = code_fault(&legal) {
        return Err(Status::Refused(fault));
    }
    match compile_legal(alloc, &legal) {
        Ok(compiled) => Ok(compiled),
        Err(_) => Err(Status::NoMemory),
    }
}

/// The simulation of a source over a trace: by the program to which the source is lowered.
pub fn take_simulation<F: Files>(
    alloc: Global,
    files: &mut F,
    source: &str,
    trace: &str,
) -> Result<TraceRun, Status>
    ensures only { OnlyReads F.tells (F.counts files.old) (F.counts files.new) (F.held files.old) (F.held files.new) }
    ensures ready { IfOk result IsReady }
    ensures simulated { F.tells ≡ true → IfOk result (λ r. IsSimulated source.now trace.now (F.held files.old) (lines_of_run r)) }
    ensures declined { IfErr result (Declined F.tells (Expected (Simulate source.now trace.now) (F.held files.old)) (F.counts files.old) (F.counts files.new)) }
{
    let legal = take_project(alloc, files, source)?;
    let program = match lower(alloc, legal.project(), legal.names()) {
        Ok(program) => program,
        Err(_) => return Err(Status::NoMemory),
    };
    let trace = take_trace(alloc, files, trace, legal.names())?;
    match simulation(alloc, legal, program, trace) {
        Ok(run) => Ok(run),
        Err(_) => Err(Status::NoMemory),
    }
}

/// The run of a project's interpretable text over a trace. The text is judged before the trace is opened.
fn take_interp<F: Files>(
    alloc: Global,
    files: &mut F,
    legal: Legal,
    file: &str,
    trace: &str,
) -> Result<FileRun, Status>
    requires target { legal.project.target ≡ Target.Interp }
    requires judged { IsJudged legal.names legal.project }
    ensures only { OnlyReads F.tells (F.counts files.old) (F.counts files.new) (F.held files.old) (F.held files.new) }
    ensures ready { IfOk result IsFileReady }
    ensures replayed { F.tells ≡ true → IfOk result (λ r. ReplaysHeld (F.held files.old) file.now trace.now legal.project (lines_of_file r) (end_of_file r)) }
    ensures declined { IfErr result (Declined F.tells (ReplayAnswers (F.held files.old) file.now trace.now legal.project) (F.counts files.old) (F.counts files.new)) }
{
    let said = take_code(alloc, files, file, legal.names())?;
    let trace = take_trace(alloc, files, trace, legal.names())?;
    match replay(alloc, legal, said, trace) {
        Ok(run) => Ok(FileRun::Interp(run)),
        Err(_) => Err(Status::NoMemory),
    }
}

/// The run of a project's HEX file over a trace on the ATmega16. The file is judged before the trace is opened.
fn take_avr<F: Files>(
    alloc: Global,
    files: &mut F,
    legal: Legal,
    file: &str,
    trace: &str,
) -> Result<FileRun, Status>
    requires target { legal.project.target ≡ Target.Mega16 }
    requires judged { IsJudged legal.names legal.project }
    ensures only { OnlyReads F.tells (F.counts files.old) (F.counts files.new) (F.held files.old) (F.held files.new) }
    ensures ready { IfOk result IsFileReady }
    ensures replayed { F.tells ≡ true → IfOk result (λ r. ReplaysHeld (F.held files.old) file.now trace.now legal.project (lines_of_file r) (end_of_file r)) }
    ensures declined { IfErr result (Declined F.tells (ReplayAnswers (F.held files.old) file.now trace.now legal.project) (F.counts files.old) (F.counts files.new)) }
{
    let image = take_hex(alloc, files, file)?;
    let trace = take_trace(alloc, files, trace, legal.names())?;
    let plan = plan_of(&legal);
    match AvrRun::new(alloc, legal, plan, image, &trace) {
        Ok(run) => Ok(FileRun::Avr(run)),
        Err(_) => Err(Status::NoMemory),
    }
}

/// The run of a file of a source's code over a trace, on the project's target.
pub fn take_replay<F: Files>(
    alloc: Global,
    files: &mut F,
    source: &str,
    file: &str,
    trace: &str,
) -> Result<FileRun, Status>
    ensures only { OnlyReads F.tells (F.counts files.old) (F.counts files.new) (F.held files.old) (F.held files.new) }
    ensures ready { IfOk result IsFileReady }
    ensures replayed { F.tells ≡ true → IfOk result (λ r. IsReplayed source.now file.now trace.now (F.held files.old) (lines_of_file r) (end_of_file r)) }
    ensures declined { IfErr result (Declined F.tells (Expected (Replay source.now file.now trace.now) (F.held files.old)) (F.counts files.old) (F.counts files.new)) }
{
    let legal = take_project(alloc, files, source)?;
    match legal.project().target {
        Target::Mega16 => take_avr(alloc, files, legal, file, trace),
        Target::AnsiC => Err(decline_file(alloc, files, file)),
        Target::Interp | Target::F628 | Target::F877 => {
            take_interp(alloc, files, legal, file, trace)
        }
    }
}
