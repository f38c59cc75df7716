//! The top call, over any files and any output.

ghost use Rattle.std.specs.Prelude.{◌≡◌, ◌≤◌, ◌++◌, true, map, IfErr, OnOk};
ghost use Rattle.std.specs.Rc.{rc_str_bytes};
ghost use Rattle.ld_base.specs.Bytes.{HoldsThen};
ghost use Rattle.ldmicro_top.specs.Command.{command_of, Compile, Simulate, Replay};
ghost use Rattle.ldmicro_top.specs.Ran.{Ran, IsComplete};
ghost use Rattle.ldmicro_top.specs.World.{world};
ghost use Rattle.ldmicro_top.specs.StatusLine.{line_of};
ghost use Rattle.ldmicro_top.specs.Steps.{Told, Unwritten, status_of, lines_of_run, IsReady, lines_of_file, end_of_file, IsFileReady};
ghost use Rattle.avr_file.specs.Run as avr;
ghost use Rattle.ldmicro_top.specs.Replays.{status_of_run};

use crate::sources::{take_compiled, take_replay, take_simulation};
use crate::status::{Status, status_line};
use crate::traced::{FileRun, TraceRun};
use crate::words::{Request, requested};
use avr_file::run::AvrRun;
use chip_run::end::RunEnd;
use ld_base::files::{FileFault, Files, Out};
use ld_base::whole::{write_file, write_out};
use std::alloc::Global;
use std::rc::RcStr;
use trace_run::run_sim;

/// Writes a text, and then the status stands.
fn say<O: Out>(out: &mut O, text: &[u8], status: Status) -> Status
    ensures { Told O.tells (O.fault_count out.old) (O.fault_count out.new) (O.written out.old) (O.written out.new) text.now status result }
{
    match write_out(out, text) {
        Ok(()) => status,
        Err(FileFault::Failed) => Status::WriteFault,
        Err(FileFault::Memory(_)) => Status::NoMemory,
    }
}

/// Writes the line of a status.
fn tell<O: Out>(alloc: Global, out: &mut O, status: Status) -> Status
    ensures { Told O.tells (O.fault_count out.old) (O.fault_count out.new) (O.written out.old) (O.written out.new) (line_of status) status result }
{
    match status_line(alloc, status) {
        Ok(line) => say(out, line.as_bytes(), status),
        Err(_) => Status::NoMemory,
    }
}

/// Makes the destination hold the code.
fn write_dest<F: Files>(files: &mut F, dest: &str, code: &[u8]) -> Result<(), Status>
    ensures reads { (F.counts files.new).reads ≡ (F.counts files.old).reads }
    ensures absences { (F.counts files.new).absences ≡ (F.counts files.old).absences }
    ensures writes { (F.counts files.old).writes ≤ (F.counts files.new).writes }
    ensures whole { F.tells ≡ true → OnOk result (HoldsThen (F.held files.old) (F.held files.new) dest.now code.now) }
    ensures unwritten { IfErr result (Unwritten F.tells dest.now code.now (F.counts files.old).writes (F.counts files.new).writes (F.held files.old) (F.held files.new)) }
{
    if let Err(e) = files.create(dest) {
        return Err(status_of(e));
    }
    if let Err(e) = write_file(files, code) {
        return Err(status_of(e));
    }
    if let Err(e) = files.finish() {
        return Err(status_of(e));
    }
    Ok(())
}

fn status_of(e: FileFault) -> Status
    ensures { result ≡ status_of e }
{
    match e {
        FileFault::Failed => Status::WriteFault,
        FileFault::Memory(_) => Status::NoMemory,
    }
}

/// Compiles a source to a destination: all is made before the destination is touched, and reported after it is whole.
fn compile<F: Files, O: Out>(
    alloc: Global,
    files: &mut F,
    out: &mut O,
    source: &str,
    dest: &str,
) -> Status
    ensures { Ran F.tells O.tells (Compile source.now dest.now)
        (world F.Files O.Out files.old out.old) (world F.Files O.Out files.new out.new) result }
{
    let compiled = match take_compiled(alloc, files, source) {
        Ok(compiled) => compiled,
        Err(status) => return tell(alloc, out, status),
    };
    match write_dest(files, dest, compiled.code.as_slice()) {
        Ok(()) => say(out, compiled.report.as_bytes(), Status::Ok),
        Err(status) => tell(alloc, out, status),
    }
}

/// Writes the lines of a run over a trace.
fn show<O: Out>(alloc: Global, out: &mut O, run: TraceRun) -> Status
    requires { IsReady run }
    ensures { Told O.tells (O.fault_count out.old) (O.fault_count out.new) (O.written out.old) (O.written out.new) (lines_of_run run) Status.Ok result }
{
    let sim = run.sim;
    match run_sim(alloc, out, run.legal.names(), run.duty, sim, &run.trace) {
        Ok(()) => Status::Ok,
        Err(fault) => status_of(fault),
    }
}

/// How a chip's run ended.
fn status_of_run(end: RunEnd) -> Status
    ensures { result ≡ status_of_run end }
{
    match end {
        RunEnd::Done => Status::Ok,
        RunEnd::Late { cycle } => Status::NoCycleEnd { cycle },
        RunEnd::Stuck { cycle, at } => Status::Stuck { cycle, at },
    }
}

/// Writes the lines of a run on the ATmega16 over a trace, and then the line of its end.
fn show_avr<O: Out>(alloc: Global, out: &mut O, run: AvrRun) -> Status
    requires { avr.CanRun run }
    ensures { Told O.tells (O.fault_count out.old) (O.fault_count out.new) (O.written out.old) (O.written out.new) (avr.lines_of_run run ++ line_of (status_of_run (avr.end_of_run run))) (status_of_run (avr.end_of_run run)) result }
{
    match run.print(alloc, out) {
        Ok(end) => tell(alloc, out, status_of_run(end)),
        Err(fault) => status_of(fault),
    }
}

/// Writes the lines of a file's run over a trace, and then the line of its end.
fn show_file<O: Out>(alloc: Global, out: &mut O, run: FileRun) -> Status
    requires { IsFileReady run }
    ensures { Told O.tells (O.fault_count out.old) (O.fault_count out.new) (O.written out.old) (O.written out.new) (lines_of_file run ++ line_of (end_of_file run)) (end_of_file run) result }
{
    match run {
        FileRun::Interp(run) => show(alloc, out, run),
        FileRun::Avr(run) => show_avr(alloc, out, run),
    }
}

/// Simulates a source over a trace: both are read and judged before the first line is written.
fn simulate<F: Files, O: Out>(
    alloc: Global,
    files: &mut F,
    out: &mut O,
    source: &str,
    trace: &str,
) -> Status
    ensures { Ran F.tells O.tells (Simulate source.now trace.now)
        (world F.Files O.Out files.old out.old) (world F.Files O.Out files.new out.new) result }
{
    match take_simulation(alloc, files, source, trace) {
        Ok(run) => show(alloc, out, run),
        Err(status) => tell(alloc, out, status),
    }
}

/// Runs a file of a source's code over a trace: all three are read and judged before the first line is written.
fn replay<F: Files, O: Out>(
    alloc: Global,
    files: &mut F,
    out: &mut O,
    source: &str,
    file: &str,
    trace: &str,
) -> Status
    ensures { Ran F.tells O.tells (Replay source.now file.now trace.now)
        (world F.Files O.Out files.old out.old) (world F.Files O.Out files.new out.new) result }
{
    match take_replay(alloc, files, source, file, trace) {
        Ok(run) => show_file(alloc, out, run),
        Err(status) => tell(alloc, out, status),
    }
}

/// Does what the words ask for. `/c source dest` compiles the project text that `source` holds to `dest`, and writes
/// its report out. `/s source trace` writes out the line of each cycle of the project over a trace, and `/r source file trace`
/// those of the code that `file` holds. Any other answer writes out its line. Words of no command that is built are
/// answered by Usage.
#[tactic(auto, using(crate::proofs::RanLemmas::complete_of, crate::proofs::RanLemmas::useless))]
pub fn run<F: Files, O: Out>(alloc: Global, words: &[RcStr], files: &mut F, out: &mut O) -> Status
    ensures ran { Ran F.tells O.tells (command_of (map rc_str_bytes words.now))
        (world F.Files O.Out files.old out.old) (world F.Files O.Out files.new out.new) result }
    ensures complete { IsComplete F.tells (command_of (map rc_str_bytes words.now))
        (world F.Files O.Out files.old out.old) (world F.Files O.Out files.new out.new) result }
{
    match requested(words) {
        Request::Compile { source, dest } => compile(alloc, files, out, source, dest),
        Request::Simulate { source, trace } => simulate(alloc, files, out, source, trace),
        Request::Replay {
            source,
            file,
            trace,
        } => replay(alloc, files, out, source, file, trace),
        Request::Other => tell(alloc, out, Status::Usage),
    }
}
