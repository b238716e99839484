//! A draw and a give behind it in one thread, eight chunks in the pool: through the plain pool, a ring, a locked pool and the
//! kit's `ArrayQueue`.

ghost use Rattle.std.specs.Prelude.{◌≡◌, ◌≤◌, [], IfOk};
ghost use Rattle.hs_pool.specs.Pool.{IsAfter};

use anyhow::{Context, Result};
use crossbeam_queue::ArrayQueue;
use hs_base::Memory;
use hs_base::limits::{MAX_BUFFERS, MIN_SIZE};
use hs_locked::{LockedDrawer, LockedGiver};
use hs_pool::PlainPool;
use hs_ring::{Drawer, Giver};
use hs_words::{Chunk, Drawn, Given, Stock};
use std::alloc::Global;
use std::rt::Clock;
use std::sync::Wait;
use std::time::Instant;
use tests_with::{locked_of, ring_of};

/// How many chunks a pool has.
const CHUNKS: u32 = 8;

/// How often is drawn of one pool.
const DRAWS: u32 = 200_000;

/// A plain pool of so many chunks of 64 bytes.
fn plain_of(alloc: Global, chunks: u32) -> Result<PlainPool, Memory>
    requires { (1 ≤ chunks) × (chunks ≤ MAX_BUFFERS) }
    ensures { IfOk result (λ pool. IsAfter [] pool) }
{
    let chunks = Stock::make(alloc, chunks, MIN_SIZE)?;
    PlainPool::make(alloc, chunks)
}

/// Draws and gives so often. Answers how often a chunk came and went.
fn turn_ring(giver: &mut Giver, drawer: &mut Drawer, rounds: u32) -> u32
    requires { (drawer.old.pool ≡ giver.old.pool) × (drawer.old.size ≡ giver.old.size) × (rounds ≤ drawer.old.left) }
{
    let mut done = 0u32;
    for _round in 0..rounds {
        let Drawn::Got { held, .. } = drawer.draw() else {
            continue;
        };
        if let Given::Given { .. } = giver.give(held) {
            done = done.wrapping_add(1);
        }
    }
    done
}

/// The same through the plain pool.
fn turn_plain(pool: &mut PlainPool, rounds: u32) -> u32
    requires { IsAfter [] pool.old }
{
    let mut done = 0u32;
    for _round in 0..rounds {
        let Drawn::Got { held, .. } = pool.draw() else {
            continue;
        };
        if let Given::Given { .. } = pool.give(held) {
            done = done.wrapping_add(1);
        }
    }
    done
}

/// The same through a locked pool.
fn turn_locked<R: Wait>(
    rt: &R,
    giver: &mut LockedGiver,
    drawer: &mut LockedDrawer,
    rounds: u32,
) -> u32
    requires { (drawer.old.pool ≡ giver.old.pool) × (drawer.old.size ≡ giver.old.size) × (rounds ≤ drawer.old.left) }
{
    let mut done = 0u32;
    for _round in 0..rounds {
        let Drawn::Got { held, .. } = drawer.draw(rt) else {
            continue;
        };
        if let Given::Given { .. } = giver.give(rt, held) {
            done = done.wrapping_add(1);
        }
    }
    done
}

/// The same through `crossbeam_queue`, whose chunks have no lease.
fn turn_queue<R: Wait>(rt: &R, queue: &ArrayQueue<Chunk>, rounds: u32) -> u32 {
    let mut done = 0u32;
    for _round in 0..rounds {
        let Some(mut chunk) = queue.pop(rt) else {
            continue;
        };
        chunk.clear();
        if queue.push(rt, chunk).is_ok() {
            done = done.wrapping_add(1);
        }
    }
    done
}

/// Prints the nanoseconds of a draw with its give, and how many there were.
fn report<R: Print>(rt: &R, name: &str, nanos: u128, done: u64) -> Result<()> {
    let tenths = nanos.saturating_mul(10) / u128::from(done.max(1));
    println!(rt;
        "{name}: {}.{} ns a draw and a give, {done} of them",
        tenths / 10,
        tenths % 10
    )?;
    Ok(())
}

fn time_plain<R: Print + Clock>(rt: &R, alloc: Global, pools: u32) -> Result<()> {
    let mut nanos = 0u128;
    let mut done = 0u64;
    for _pool in 0..pools {
        let mut pool = plain_of(alloc, CHUNKS).ok().context("memory")?;
        let start = Instant::now(rt)?;
        done = done.saturating_add(u64::from(turn_plain(&mut pool, DRAWS)));
        nanos = nanos.saturating_add(start.elapsed(rt)?.as_nanos());
    }
    report(rt, "plain pool", nanos, done)
}

fn time_ring<R: Print + Clock>(rt: &R, alloc: Global, pools: u32) -> Result<()> {
    let mut nanos = 0u128;
    let mut done = 0u64;
    for _pool in 0..pools {
        let (mut giver, mut drawers) = ring_of(alloc, CHUNKS, &[DRAWS]).ok().context("memory")?;
        let Some(mut drawer) = drawers.pop() else {
            unreachable!()
        };
        let start = Instant::now(rt)?;
        done = done.saturating_add(u64::from(turn_ring(&mut giver, &mut drawer, DRAWS)));
        nanos = nanos.saturating_add(start.elapsed(rt)?.as_nanos());
    }
    report(rt, "ring", nanos, done)
}

fn time_locked<R: Print + Clock + Wait>(rt: &R, alloc: Global, pools: u32) -> Result<()> {
    let mut nanos = 0u128;
    let mut done = 0u64;
    for _pool in 0..pools {
        let (mut giver, mut drawers) = locked_of(alloc, CHUNKS, &[DRAWS]).ok().context("memory")?;
        let Some(mut drawer) = drawers.pop() else {
            unreachable!()
        };
        let start = Instant::now(rt)?;
        done = done.saturating_add(u64::from(turn_locked(rt, &mut giver, &mut drawer, DRAWS)));
        nanos = nanos.saturating_add(start.elapsed(rt)?.as_nanos());
    }
    report(rt, "locked pool", nanos, done)
}

/// A queue with eight chunks of 64 bytes.
pub(crate) fn queue_of<R: Wait>(rt: &R, alloc: Global) -> Result<ArrayQueue<Chunk>> {
    let queue = ArrayQueue::new(alloc, CHUNKS as usize)?;
    let chunks = Stock::make(alloc, CHUNKS, MIN_SIZE).ok().context("memory")?;
    for chunk in chunks.into_vec() {
        queue.push(rt, chunk).ok().context("room")?;
    }
    Ok(queue)
}

fn time_queue<R: Print + Clock + Wait>(rt: &R, alloc: Global, pools: u32) -> Result<()> {
    let queue = queue_of(rt, alloc)?;
    let mut nanos = 0u128;
    let mut done = 0u64;
    for _pool in 0..pools {
        let start = Instant::now(rt)?;
        done = done.saturating_add(u64::from(turn_queue(rt, &queue, DRAWS)));
        nanos = nanos.saturating_add(start.elapsed(rt)?.as_nanos());
    }
    report(rt, "crossbeam_queue", nanos, done)
}

/// Times so many pools of each kind.
pub(crate) fn run<R: Print + Clock + AllocGlobal + Wait>(rt: &R, pools: u32) -> Result<()> {
    time_plain(rt, rt.alloc(), pools)?;
    time_ring(rt, rt.alloc(), pools)?;
    time_locked(rt, rt.alloc(), pools)?;
    time_queue(rt, rt.alloc(), pools)
}
