//! Four threads that draw and one that gives, on eight chunks: through a ring and through the kit's `ArrayQueue`, in turn. Each call is
//! timed by itself, and a thread rests behind a draw that got a chunk, as one that fills a page before it needs the next.

ghost use Rattle.std.specs.Prelude.{◌≡◌, ◌/◌, []};
ghost use Rattle.std.specs.Thread.{IsSync};
ghost use Rattle.hs_base.specs.declared.limits.TheConstants.{MAX_OPERATIONS};
ghost use Rattle.hs_link.specs.Contents.{sent};

use crate::link::Anything;
use crate::pool::queue_of;
use crate::ring::{DRAWS, turn_pool};
use anyhow::{Context, Result};
use crossbeam_queue::ArrayQueue;
use hs_base::{List, Memory};
use hs_link::{Receiver, Sender, link};
use hs_words::Chunk;
use std::alloc::Global;
use std::rt::Clock;
use std::sync::Wait;
use std::sync::atomic::{AtomicU64, Ordering};
use std::thread;
use std::thread::Threads;
use tests_with::{Seen, Spent, bare, now, rest, since};

type Chunks = Receiver<Chunk, Anything>;

/// How many turns a thread rests behind a draw that got a chunk, of a few nanoseconds each.
const RESTS: u32 = 64;

/// What takes the chunks of a thread to the one that pushes.
#[derive(Drop)]
struct Pops {
    chunks: Sender<Chunk, Anything>,
    ghost room: { (sent chunks ≡ []) × (chunks.room ≡ MAX_OPERATIONS / 4) },
}

/// What one of the threads does: it pops, or pushes what comes on these links.
#[derive(Drop)]
enum Job {
    Pop(Pops),
    Push(List<Chunks>),
}

/// What calls took: the pops that got a chunk, and the pushes.
#[derive(Clone, Copy, Default, Drop)]
struct Calls {
    pops: Spent,
    pushes: Spent,
}

impl Calls {
    fn add_all(&mut self, other: Calls) {
        self.pops.add_all(other.pops);
        self.pushes.add_all(other.pushes);
    }
}

/// Pops as often as a drawer of the ring draws, and sends what came.
fn pop_all<R: Wait + Clock>(rt: &R, queue: &ArrayQueue<Chunk>, job: Pops) -> Spent {
    let Pops { mut chunks } = job;
    let mut spent = Spent::default();
    for _draw in 0..DRAWS {
        let start = now(rt);
        match queue.pop(rt) {
            Some(mut chunk) => {
                spent.add(since(rt, start));
                chunk.clear();
                chunks.send(chunk);
                rest(RESTS);
            }
            None => thread::yield_now(),
        }
    }
    spent
}

/// Pushes back what one thread sent, as far as it has come.
fn serve<R: Wait + Clock>(
    rt: &R,
    queue: &ArrayQueue<Chunk>,
    chunks: &mut Chunks,
    spent: &mut Spent,
) {
    for _ in 0..8 {
        let Some(chunk) = chunks.receive() else {
            break;
        };
        let start = now(rt);
        let _ = queue.push(rt, chunk);
        spent.add(since(rt, start));
    }
}

/// Pushes back what comes, until all four threads are done.
fn push_all<R: Wait + Clock>(
    rt: &R,
    queue: &ArrayQueue<Chunk>,
    mut links: List<Chunks>,
    over: &AtomicU64,
) -> Spent {
    let mut spent = Spent::default();
    for _ in rt.forever() {
        let last = over.load(Ordering::SeqCst) >= 4;
        for chunks in links.as_mut_slice().iter_mut() {
            serve(rt, queue, chunks, &mut spent);
        }
        if last {
            return spent;
        }
    }
    unreachable!()
}

/// Does what one of the threads does. One that pops says when it is done.
fn work<R: Wait + Clock>(rt: &R, queue: &ArrayQueue<Chunk>, job: Job, over: &AtomicU64) -> Calls {
    let mut calls = Calls::default();
    match job {
        Job::Pop(pops) => {
            calls.pops = pop_all(rt, queue, pops);
            over.fetch_add(1, Ordering::SeqCst);
        }
        Job::Push(links) => calls.pushes = push_all(rt, queue, links, over),
    }
    calls
}

/// The jobs of five threads.
fn five_jobs(alloc: Global) -> Result<Vec<Job>, Memory> {
    let mut jobs = List::new(alloc);
    let mut links = List::new(alloc);
    for _thread in 0..4u32 {
        let (chunks, receiver) = link::<Chunk, Anything>(alloc, 8, DRAWS, &Anything)?;
        jobs.append(Job::Pop(Pops { chunks }))?;
        links.append(receiver)?;
    }
    jobs.append(Job::Push(links))?;
    Ok(jobs.into_vec())
}

/// Times the calls of a queue with its five threads, and adds what they took.
fn turn_queue<R: Threads + Clock + Wait + Sync>(
    rt: &R,
    alloc: Global,
    calls: &mut Calls,
) -> Result<()> {
    let over = AtomicU64::new(0);
    let queue = queue_of(rt, alloc)?;
    let jobs = five_jobs(alloc).ok().context("memory")?;
    let (told, shared) = (&over, &queue);
    let parts = thread::map_vec(
        rt,
        jobs,
        &|job: Job| -> Calls
            requires { IsSync R.row }
        { work(rt, shared, job, told) },
    )?;
    for part in parts {
        calls.add_all(part);
    }
    Ok(())
}

/// Prints what such a call took.
fn report<R: Print>(rt: &R, name: &str, spent: Spent) -> Result<()> {
    println!(rt;
        "{name}: {}.{} ns, {} calls and {} that were kept from their processor",
        spent.tenths() / 10,
        spent.tenths() % 10,
        spent.calls,
        spent.late
    )?;
    Ok(())
}

/// Prints what was seen of so many pools and queues.
fn report_all<R: Print + Clock>(rt: &R, pools: u32, seen: &Seen, calls: Calls) -> Result<()> {
    report(rt, "the clock, read twice", bare(rt, DRAWS))?;
    report(rt, "a draw that got a chunk", seen.drawn)?;
    report(rt, "a give that put one back", seen.given)?;
    report(rt, "a pop that got a chunk", calls.pops)?;
    report(rt, "a push", calls.pushes)?;
    println!(rt;
        "of {} draws of the ring {} got a chunk, and {} gives missed",
        u64::from(pools) * 4 * u64::from(DRAWS),
        seen.drawn.count(),
        seen.misses
    )?;
    Ok(())
}

/// Times so many pools and queues, in turn.
pub(crate) fn run<R: Print + Clock + AllocGlobal + Threads + Wait + Sync>(
    rt: &R,
    pools: u32,
) -> Result<()> {
    let mut seen = Seen::nothing(rt.alloc());
    let mut calls = Calls::default();
    for _pool in 0..pools {
        turn_pool(rt, rt.alloc(), RESTS, &mut seen)?;
        turn_queue(rt, rt.alloc(), &mut calls)?;
    }
    report_all(rt, pools, &seen, calls)
}
