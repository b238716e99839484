//! Calls of the program over memory.

use anyhow::{Context, Result, ensure};
use hs_base::{Gate, MemorySink, MemorySource};
use hs_cli::hindsight;
use std::marker::Sync;
use std::sync::Wait;
use std::thread::Threads;

/// What a call with these words writes, which has to end well.
pub(crate) fn called<R: Threads + Wait + Sync + AllocGlobal, G: Gate>(
    rt: &R,
    words: &[&str],
    input: &[u8],
    gate: &G,
) -> Result<Vec<u8>> {
    let alloc = rt.alloc();
    let mut texts = Vec::new(alloc);
    for word in words {
        texts.push(word.to_string(alloc)?)?;
    }
    let mut source = MemorySource::new(alloc, input, 1 << 20, &[])
        .ok()
        .context("memory")?;
    let mut sink = MemorySink::new(alloc, 1 << 22, 1 << 20, &[])
        .ok()
        .context("memory")?;
    let status = hindsight(rt, alloc, &texts, &mut source, &mut sink, gate);
    let number = status.number();
    let written = sink.bytes().to_vec(alloc)?;
    let told = str::from_utf8(&written).unwrap_or("no text");
    ensure!(number == 0, "the status is {number}: {told}");
    Ok(written)
}
