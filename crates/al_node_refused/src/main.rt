//! The same program, run on a genesis that is refused.
#![tactic(auto)]

use al_base::{DirFolder, ReadSource, WriteSink};
use al_session::enter;
use std::process::ExitCode;
use std::{env, io};

fn main(rt: HostRuntime) -> ExitCode {
    let mut source = ReadSource::new(rt.reader());
    let mut sink = WriteSink::new(io::writer(&rt));
    let mut folder = DirFolder::new(rt);
    enter(
        rt.alloc(),
        env::args(&rt),
        &mut source,
        &mut sink,
        &mut folder,
    )
}
