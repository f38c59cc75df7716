//! Cases of interpretable texts: what is read of them and written back, what their programs do and show over traces, and what
//! memory they need.
#![tactic(auto)]

mod answers;
mod formed;
mod places;
mod program_texts;
mod runs;
mod traces;

use answers::Programs;
use case_script::play;
use std::io;

fn main(rt: HostRuntime) -> io::Result<()> {
    let script = io::read_to_string(rt.alloc(), rt.reader())?;
    play(&rt, script.as_str(), &mut Programs::new(rt.alloc()))
}
