//! A row: a call of the program, and what it owes.

use crate::files::{input_of, status_of, words_of};
use hs_base::{MemorySink, MemorySource, OpenGate};
use hs_cli::hindsight;
use std::alloc::Global;
use std::io::ErrorKind;
use std::marker::Sync;
use std::rt::Files;
use std::sync::Wait;
use std::thread::Threads;
use std::{fs, io};

/// The words and the input of a call, and what it writes and ends with.
#[derive(Drop)]
pub(crate) struct Row {
    words: Vec<String>,
    input: Vec<u8>,
    output: Vec<u8>,
    status: u8,
}

/// What is wrong with a call.
#[derive(Drop)]
pub(crate) enum Fault {
    /// It ends with this status.
    Status(u8),
    /// What it writes differs first at this byte, in this line, both counted from 1.
    Output { line: u64, byte: u64 },
}

/// Where two texts differ first.
fn first_difference(wanted: &[u8], written: &[u8]) -> Option<Fault> {
    let (mut line, mut byte) = (1u64, 1u64);
    for (place, due) in wanted.iter().enumerate() {
        if written.get(place) != Some(due) {
            return Some(Fault::Output { line, byte });
        }
        byte = byte.saturating_add(1);
        line = line.saturating_add(u64::from(*due == b'\n'));
    }
    if written.len() == wanted.len() {
        None
    } else {
        Some(Fault::Output { line, byte })
    }
}

impl Row {
    /// The row of this name in a folder.
    pub(crate) fn read<R: Files + AllocGlobal>(
        rt: &R,
        folder: &str,
        name: &str,
    ) -> io::Result<Row> {
        let path = format!(in rt.alloc(); "{folder}/{name}.out")?;
        Ok(Row {
            words: words_of(rt, folder, name)?,
            input: input_of(rt, folder, name)?,
            output: fs::read(rt, path.as_str())?,
            status: status_of(rt, folder, name)?,
        })
    }

    /// The status number of the call, and what it writes.
    fn called<R: Threads + Wait + Sync + AllocGlobal>(&self, rt: &R) -> io::Result<(u8, Vec<u8>)> {
        let alloc = rt.alloc();
        let Ok(mut source) = MemorySource::new(alloc, &self.input, 1 << 20, &[]) else {
            return Err(ErrorKind::OutOfMemory.into());
        };
        let Ok(mut sink) = MemorySink::new(alloc, 1 << 20, 1 << 20, &[]) else {
            return Err(ErrorKind::OutOfMemory.into());
        };
        let status = hindsight(rt, alloc, &self.words, &mut source, &mut sink, &OpenGate);
        Ok((status.number(), sink.bytes().to_vec(alloc)?))
    }

    /// What is wrong with the call, if anything.
    pub(crate) fn fault<R: Threads + Wait + Sync + AllocGlobal>(
        &self,
        rt: &R,
    ) -> io::Result<Option<Fault>> {
        let (status, written) = self.called(rt)?;
        if status != self.status {
            return Ok(Some(Fault::Status(status)));
        }
        Ok(first_difference(&self.output, &written))
    }

    /// Whether the output is the whole outcome of a workload.
    pub(crate) fn is_outcome(&self) -> bool {
        match self.words.as_slice() {
            [word] => self.status == 0 && matches!(word.as_str(), "replay" | "run"),
            _ => false,
        }
    }

    /// The check of this output behind its workload, which owes it again.
    pub(crate) fn check_of(self, alloc: Global) -> io::Result<Row> {
        let mut input = self.input;
        input.extend_from_slice(&self.output)?;
        let mut words = Vec::new(alloc);
        words.push("check".to_string(alloc)?)?;
        Ok(Row {
            words,
            input,
            output: self.output,
            status: 0,
        })
    }
}
