//! `ldmicro`: compiles ladder diagrams. The work is done by `ldmicro_top::run::run`; here are the real files,
//! the standard output, the words of the command line and the exit status.
#![tactic(auto)]

use ld_base::host::{HostFiles, HostOut};
use ldmicro_top::run::run;
use ldmicro_top::status::Status;
use std::alloc::AllocError;
use std::env;
use std::io::ErrorKind;
use std::process::ExitCode;
use std::rc::RcStr;

/// The words behind the program's name. Where one of them is not UTF-8 there are none, which is no command.
fn words(rt: &HostRuntime) -> Result<Vec<RcStr>, AllocError> {
    let mut words = Vec::new(rt.alloc());
    match env::args(rt) {
        Ok(args) => {
            for arg in args.skip(1) {
                words.push(RcStr::from_str(rt.alloc(), arg.as_str())?)?;
            }
            Ok(words)
        }
        Err(e) if e.kind() == ErrorKind::OutOfMemory => Err(AllocError),
        Err(_) => Ok(words),
    }
}

fn main(rt: HostRuntime) -> ExitCode {
    let mut files = HostFiles::new(&rt);
    let mut out = HostOut::new(&rt);
    let status = match words(&rt) {
        Ok(words) => run(rt.alloc(), &words, &mut files, &mut out),
        Err(_) => Status::NoMemory,
    };
    ExitCode::from(status.code())
}
