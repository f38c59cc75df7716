//! Cases of project texts: what is read of them, what they are refused for, and how they are printed back; and of files and outputs, in memory and real.
#![tactic(auto)]

mod answers;
mod device;
mod host;
mod lines;
mod names;
mod printing;
mod reading;

use answers::Texts;
use case_script::play;
use std::io;

fn main(rt: HostRuntime) -> io::Result<()> {
    let script = io::read_to_string(rt.alloc(), rt.reader())?;
    play(&rt, script.as_str(), &mut Texts::new(rt.alloc()))?;
    host::show(&rt)
}
