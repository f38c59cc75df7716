//! Cases of the top call over files and an output in memory, of which any call may fail.
#![tactic(auto)]

mod answers;
mod command_runs;
mod held;
mod needs;

use answers::Runs;
use case_script::play;
use std::io;

fn main(rt: HostRuntime) -> io::Result<()> {
    let script = io::read_to_string(rt.alloc(), rt.reader())?;
    play(&rt, script.as_str(), &mut Runs::new(rt.alloc()))
}
