//! Compiles a file that has no end: each read fills the buffer, and no read is the last. It prints what the compiler answers, and how
//! many bytes it asked for.
#![tactic(auto)]

mod endless;

use endless::Endless;
use ld_base::host::HostOut;
use ldmicro_top::run::run;
use std::alloc::AllocError;
use std::rc::RcStr;

fn words(rt: &HostRuntime) -> Result<Vec<RcStr>, AllocError> {
    let mut words = Vec::new(rt.alloc());
    for word in ["/c", "endless", "code"] {
        words.push(RcStr::from_str(rt.alloc(), word)?)?;
    }
    Ok(words)
}

fn main(rt: HostRuntime) -> std::io::Result<()> {
    let mut files = Endless::new();
    let mut out = HostOut::new(&rt);
    let status = run(rt.alloc(), &words(&rt)?, &mut files, &mut out);
    println!(rt; "status {} after {} bytes", status.code(), files.given())
}
