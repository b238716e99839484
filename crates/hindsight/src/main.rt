//! The program: the top call over standard input and output.
#![tactic(auto)]

use hs_base::{Memory, OpenGate};
use hs_cli::{Status, hindsight};
use hs_workload::{StdinSource, StdoutSink};
use std::env;
use std::io::ErrorKind;
use std::process::ExitCode;
use std::rt::Env;

fn main(rt: HostRuntime) -> ExitCode {
    let status = match words(&rt) {
        Ok(words) => hindsight(
            &rt,
            rt.alloc(),
            &words,
            &mut StdinSource::new(&rt),
            &mut StdoutSink::new(&rt),
            &OpenGate,
        ),
        Err(Memory) => Status::Memory,
    };
    ExitCode::from(status.number())
}

/// The words behind the program's name. Where one of them is no text there is none, which no command
/// has.
fn words<R: Env + AllocGlobal>(rt: &R) -> Result<Vec<String>, Memory> {
    match env::args(rt) {
        Ok(words) => Ok(words.skip(1).collect(rt.alloc())?),
        Err(error) if error.kind() == ErrorKind::OutOfMemory => Err(Memory),
        Err(_) => Ok(Vec::new(rt.alloc())),
    }
}
