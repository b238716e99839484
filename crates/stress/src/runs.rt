//! Runs of made workloads, each under a gate of its own.

use crate::calls::called;
use crate::counts::Counts;
use crate::gate::Shaking;
use anyhow::{Context, Result, ensure};
use hs_base::OpenGate;
use std::alloc::Global;
use std::marker::Sync;
use std::rt::Clock;
use std::sync::Wait;
use std::thread::Threads;
use std::time::Instant;

/// How many requests a workload has.
const REQUESTS: &str = "40";

/// How many lines of a made workload the lines of `head` stand for.
const HEAD: usize = 9;

/// The strides and the numbers of buffers, and with these how many chunks may be indexed.
const STRIDES: [u32; 4] = [1, 2, 8, 64];

const BUFFERS: [(u32, u32); 4] = [(1, 1), (2, 1), (5, 3), (64, 48)];

/// The first lines of a workload.
fn head(alloc: Global, seed: u64) -> Result<String> {
    let stride = STRIDES[(seed & 3) as usize];
    let (buffers, threshold) = BUFFERS[(seed >> 2 & 3) as usize];
    Ok(format!(in alloc;
        "hindsight 1\nnodes 3\nclients 4\nbuffers {buffers}\nsize 256\nthreshold {threshold}\ntraces 1000\npins 32\nstride {stride}\n"
    )?)
}

/// A made workload with a stride and a number of buffers of its own.
fn workload_of<R: Threads + Wait + Sync + AllocGlobal>(rt: &R, seed: u64) -> Result<Vec<u8>> {
    let alloc = rt.alloc();
    let number = seed.to_string(alloc)?;
    let made = called(rt, &["make", number.as_str(), REQUESTS], &[], &OpenGate)?;
    let mut text = head(alloc, seed)?;
    let made = str::from_utf8(&made).ok().context("a workload is a text")?;
    for line in made.lines().skip(HEAD) {
        text.push_str(line)?;
        text.push_str("\n")?;
    }
    Ok(text.into_bytes())
}

/// Whether an output is this outcome, and under watch what watchers saw behind it.
fn is_of(output: &[u8], outcome: &[u8], words: &[&str]) -> bool {
    match output.strip_prefix(outcome) {
        Some(behind) if words.len() == 1 => behind.is_empty(),
        Some(behind) => behind.starts_with(b"watcher 0\n") && behind.ends_with(b"\nend\n"),
        None => false,
    }
}

/// Runs a workload, watched or not, and has what came of it checked.
fn run_one<R: Threads + Wait + Sync + AllocGlobal>(
    rt: &R,
    workload: &[u8],
    words: &[&str],
    seed: u64,
) -> Result<Vec<u8>> {
    let output = called(rt, words, workload, &Shaking { seed })?;
    let mut text = workload.to_vec(rt.alloc())?;
    text.extend_from_slice(&output)?;
    let outcome = called(rt, &["check"], &text, &OpenGate)?;
    ensure!(
        is_of(&output, &outcome, words),
        "seed {seed}: the outcome is another"
    );
    Ok(output)
}

/// Runs the workload of a seed, and then under watch.
fn run_both<R: Threads + Wait + Sync + AllocGlobal>(
    rt: &R,
    seed: u64,
    counts: &mut Counts,
) -> Result<()> {
    let workload = workload_of(rt, seed)?;
    counts.add(&run_one(rt, &workload, &["run"], seed)?)?;
    counts.add(&run_one(rt, &workload, &["run", "--watch"], seed)?)
}

/// Runs workloads for so many seconds, of the seeds from the first on, and prints what happened in them.
pub(crate) fn run<R: Print + Clock + AllocGlobal + Threads + Wait + Sync>(
    rt: &R,
    first: u64,
    seconds: u64,
) -> Result<()> {
    let start = Instant::now(rt)?;
    let mut counts = Counts::default();
    for seed in first..u64::MAX {
        if start.elapsed(rt)?.as_secs() >= seconds {
            break;
        }
        run_both(rt, seed, &mut counts).context("a run")?;
    }
    counts.report(rt)
}
