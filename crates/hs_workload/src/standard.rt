//! Standard input and output as a source and a sink, which count their faults and tell no bytes.

ghost use Rattle.std.specs.Prelude.{◌≡◌, ◌<◌, ◌≤◌, ◌↔◌, [], None, length, take, IfOk, OnErr, IfSome};
ghost use Rattle.hs_base.specs.Outside.{Rose, Loses, Gains};

use hs_base::{Failed, Sink, Source};
use std::io::{Print, Read};
use std::marker::Model;
use std::rt::{Stdin, Stdout};

/// Standard input. What it will give nobody can say; of its value only the count of its faults is known.
#[derive(Drop)]
pub struct StdinSource {
    stdin: Stdin,
    faults: u64,
}

impl Model for StdinSource {
    ghost use Rattle.std.specs.Prelude.{ℕ};

    ghost Value = { ℕ };

    ghost view = { λ source. source.faults };
}

impl StdinSource {
    /// Standard input, of which no read failed yet.
    pub fn new(rt: &HostRuntime) -> StdinSource
        ensures { result ≡ 0 }
    {
        StdinSource {
            stdin: rt.stdin(),
            faults: 0,
        }
    }
}

impl Source for StdinSource {
    ghost left = { λ _. None };

    ghost faults = { λ s. s };

    fn read(&mut self, piece: &mut [u8]) -> Result<usize, Failed> {
        match self.stdin.read(piece) {
            Ok(count) => Ok(count),
            Err(_) => {
                self.faults = self.faults.saturating_add(1);
                Err(Failed)
            }
        }
    }
}

/// Standard output, unbuffered. What it has written nobody can see; of its value only the count of its faults is known.
#[derive(Drop)]
pub struct StdoutSink {
    stdout: Stdout,
    faults: u64,
}

impl Model for StdoutSink {
    ghost use Rattle.std.specs.Prelude.{ℕ};

    ghost Value = { ℕ };

    ghost view = { λ sink. sink.faults };
}

impl StdoutSink {
    /// Standard output, of which no write failed yet.
    pub fn new(rt: &HostRuntime) -> StdoutSink
        ensures { result ≡ 0 }
    {
        StdoutSink {
            stdout: rt.stdout(),
            faults: 0,
        }
    }
}

impl Sink for StdoutSink {
    ghost written = { λ _. None };

    ghost faults = { λ s. s };

    fn write(&mut self, piece: &[u8]) -> Result<usize, Failed> {
        match self.stdout.write_some(piece) {
            Ok(count) if count > 0 => Ok(count),
            _ => {
                self.faults = self.faults.saturating_add(1);
                Err(Failed)
            }
        }
    }
}
