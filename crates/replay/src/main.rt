//! `replay` alone: reads a workload from standard input, and writes its outcome. It stands on half of what the program stands on,
//! so this is what `./hindsight replay` runs in a checkout that was not built.
#![tactic(auto)]

mod replaying;

use hs_workload::{StdinSource, StdoutSink};
use replaying::replay_all;
use std::process::ExitCode;

fn main(rt: HostRuntime) -> ExitCode {
    let mut source = StdinSource::new(&rt);
    let mut sink = StdoutSink::new(&rt);
    ExitCode::from(replay_all(rt.alloc(), &mut source, &mut sink).number())
}
