//! Four drawers and a giver of a ring on eight chunks, each in a thread of its own, for so many seconds. It counts how often a
//! give missed or was left unread, and looks at the stamps of each pool.

use anyhow::{Context, Result, ensure};
use hs_base::limits::MAX_OPERATIONS;
use std::alloc::Global;
use std::rt::Clock;
use std::sync::Wait;
use std::thread::Threads;
use std::time::{Duration, Instant};
use tests_with::{Seen, work_ring};

/// The allowance of each of the four drawers of a pool.
pub(crate) const DRAWS: u32 = MAX_OPERATIONS / 4;

/// Lets five threads work on a pool, looks at its stamps, and adds what was seen.
pub(crate) fn turn_pool<R: Threads + Clock + Wait + Sync>(
    rt: &R,
    alloc: Global,
    rests: u32,
    seen: &mut Seen,
) -> Result<()> {
    let mut one = work_ring(rt, alloc, DRAWS, rests).ok().context("memory")?;
    seen.add_counts(&one);
    ensure!(one.leaves_no_gap(), "a stamp is missing, or stands twice");
    Ok(())
}

/// Prints what was seen of so many pools in that time.
fn report<R: Print>(rt: &R, pools: u64, seen: &Seen, past: Duration) -> Result<()> {
    let gots = seen.drawn.count();
    println!(rt;
        "{pools} pools: {gots} draws got a chunk, {} were empty, {} gives missed, {} were unread",
        seen.empties, seen.misses, seen.unread
    )?;
    println!(rt;
        "{} ns for each chunk that was got, with four drawers and a giver",
        past.as_nanos() / u128::from(gots.max(1))
    )?;
    Ok(())
}

/// Goes on for so many seconds, and prints what was seen.
pub(crate) fn run<R: Print + Clock + AllocGlobal + Threads + Wait + Sync>(
    rt: &R,
    seconds: u32,
) -> Result<()> {
    let mut seen = Seen::nothing(rt.alloc());
    let mut pools = 0u64;
    let start = Instant::now(rt)?;
    for _ in rt.forever() {
        turn_pool(rt, rt.alloc(), 0, &mut seen)?;
        pools = pools.saturating_add(1);
        let past = start.elapsed(rt)?;
        if past.as_secs() >= u64::from(seconds) {
            return report(rt, pools, &seen, past);
        }
    }
    unreachable!()
}
