//! Cases of ladders whose primitives run on the byte machine: what each cycle shows, and how many primitives there are.
#![tactic(auto)]

mod answers;
mod lowered;
mod run;
mod shown;

use answers::Ladders;
use case_script::play;
use std::io;

fn main(rt: HostRuntime) -> io::Result<()> {
    let script = io::read_to_string(rt.alloc(), rt.reader())?;
    play(&rt, script.as_str(), &mut Ladders::new(rt.alloc()))
}
