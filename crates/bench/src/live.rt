//! A tracepoint of a client: into a page that has room, averaged over page changes while an agent in a thread of its own gives the
//! buffers back, and into pages that fit no cache. Beside it the bare copy of the payload.

ghost use Rattle.std.specs.Prelude.{◌≡◌, ◌≤◌, length};
ghost use Rattle.std.specs.Thread.{IsSync};
ghost use Rattle.hs_records.specs.Records.{piece_count};
ghost use Rattle.tests_with.specs.Pairs.{CanCall, KeepsPort, HasClient};

use anyhow::{Context, Result, ensure};
use hs_base::TraceId;
use hs_base::limits::{HEADER_COST, MAX_OPERATIONS, MAX_SIZE, PIECE_COST};
use hs_live::{AgentPort, Client};
use std::alloc::Global;
use std::hint;
use std::rt::Clock;
use std::sync::Wait;
use std::sync::atomic::{AtomicU64, Ordering};
use std::thread::{Threads, join};
use std::time::Instant;
use tests_with::{Making, client_and_port, give_back, next_chunk};

/// How many bytes all pages have together: 64 pages of 32,768.
const BYTES: usize = 64 * MAX_SIZE as usize;

/// How many pages each of two pools has that fit no cache together, and how many bytes all of them have.
const FAR_BUFFERS: u32 = 1024;

const FAR_BYTES: usize = 2 * FAR_BUFFERS as usize * MAX_SIZE as usize;

/// How many bytes a page has for its pieces: all but the 24 of its header.
const ROOM: u32 = MAX_SIZE - HEADER_COST as u32;

/// A client may have so many calls counted.
const CALLS: u32 = MAX_OPERATIONS;

const MAKING: Making = Making {
    buffers: 64,
    size: MAX_SIZE,
    calls: CALLS,
    capacity: 64,
};

/// One of two pools whose pages fit no cache together.
const FAR: Making = Making {
    buffers: FAR_BUFFERS,
    size: MAX_SIZE,
    calls: CALLS,
    capacity: 64,
};

/// Records the payload so often, as long as calls are left.
fn record(client: &mut Client, left: &mut u32, payload: &[u8], count: u32)
    requires one { piece_count MAX_SIZE (length payload.now) ≡ 1 }
    requires can { CanCall MAX_SIZE left.old client.old }
    ensures can { CanCall MAX_SIZE left.new client.new }
{
    for moment in 0..count {
        if *left == 0 {
            return;
        }
        *left -= 1;
        client.point(u64::from(moment), payload);
    }
}

/// Opens a trace.
fn begin(client: &mut Client, left: &mut u32)
    requires { CanCall MAX_SIZE left.old client.old }
    ensures { CanCall MAX_SIZE left.new client.new }
{
    if *left > 0 {
        *left -= 1;
        client.begin(TraceId(1));
    }
}

/// Closes the trace, and sends its last chunk.
fn end(client: &mut Client, left: &mut u32)
    requires { CanCall MAX_SIZE left.old client.old }
    ensures { CanCall MAX_SIZE left.new client.new }
{
    if *left > 0 {
        *left -= 1;
        client.end();
    }
}

/// What was timed: so many points in so many nanoseconds, and the draws that found the pool empty.
#[derive(Default, Drop)]
struct Timed {
    points: u64,
    nanos: u128,
    nulls: u64,
}

impl Timed {
    fn add(&mut self, points: u64, nanos: u128, nulls: u64) {
        self.points = self.points.saturating_add(points);
        self.nanos = self.nanos.saturating_add(nanos);
        self.nulls = self.nulls.saturating_add(nulls);
    }

    /// Tenths of a nanosecond for each.
    fn tenths(&self) -> u128 {
        self.nanos.saturating_mul(10) / u128::from(self.points.max(1))
    }
}

/// Fills a page, whose first point is not timed, and gives it back.
fn fill_page<R: Clock>(
    rt: &R,
    client: &mut Client,
    port: &mut AgentPort,
    left: &mut u32,
    payload: &[u8],
    timed: &mut Timed,
) -> Result<()>
    requires few { length payload.now ≤ 1000 }
    requires one { piece_count MAX_SIZE (length payload.now) ≡ 1 }
    requires can { CanCall MAX_SIZE left.old client.old }
    requires port { HasClient port.old }
    ensures can { CanCall MAX_SIZE left.new client.new }
    ensures port { KeepsPort port.old port.new }
{
    let more = ROOM / (PIECE_COST as u32 + payload.len() as u32);
    begin(client, left);
    record(client, left, payload, 1);
    let before = *left;
    let start = Instant::now(rt)?;
    record(client, left, payload, more.saturating_sub(1));
    let nanos = start.elapsed(rt)?.as_nanos();
    timed.add(u64::from(before.saturating_sub(*left)), nanos, 0);
    end(client, left);
    if let Some(held) = next_chunk(port) {
        give_back(port, held, CALLS);
    }
    Ok(())
}

/// Fills pages with so many calls of a client.
fn fill_pages<R: Clock>(
    rt: &R,
    client: &mut Client,
    port: &mut AgentPort,
    calls: u32,
    payload: &[u8],
    timed: &mut Timed,
) -> Result<()>
    requires few { length payload.now ≤ 1000 }
    requires one { piece_count MAX_SIZE (length payload.now) ≡ 1 }
    requires can { CanCall MAX_SIZE calls client.old }
    requires port { HasClient port.old }
{
    let mut left = calls;
    for _page in 0..calls {
        if left == 0 {
            break;
        }
        fill_page(rt, client, port, &mut left, payload, timed)?;
    }
    Ok(())
}

/// Fills pages with all calls of a client. Answers how many draws found the pool empty, too.
fn fill_all<R: Clock>(
    rt: &R,
    mut client: Client,
    mut port: AgentPort,
    payload: &[u8],
    timed: &mut Timed,
) -> (Result<()>, u32)
    requires few { length payload.now ≤ 1000 }
    requires one { piece_count MAX_SIZE (length payload.now) ≡ 1 }
    requires can { CanCall MAX_SIZE MAX_OPERATIONS client }
    requires port { HasClient port }
{
    let filled = fill_pages(rt, &mut client, &mut port, CALLS, payload, timed);
    (filled, client.nulls())
}

/// Times points into pages that have room, with all calls of a client.
fn time_pages<R: Clock>(rt: &R, alloc: Global, payload: &[u8], timed: &mut Timed) -> Result<()>
    requires few { length payload.now ≤ 1000 }
    requires one { piece_count MAX_SIZE (length payload.now) ≡ 1 }
{
    let (client, port) = client_and_port(alloc, MAKING).ok().context("memory")?;
    let (filled, nulls) = fill_all(rt, client, port, payload, timed);
    filled?;
    ensure!(nulls == 0, "a page had no buffer");
    Ok(())
}

/// The same of so many clients.
fn time_room<R: Clock>(rt: &R, alloc: Global, payload: &[u8], clients: u32) -> Result<Timed>
    requires few { length payload.now ≤ 1000 }
    requires one { piece_count MAX_SIZE (length payload.now) ≡ 1 }
{
    let mut timed = Timed::default();
    for _client in 0..clients {
        time_pages(rt, alloc, payload, &mut timed)?;
    }
    Ok(timed)
}

/// Fills pages of two clients in turn, with all their calls, so that each page comes again behind all others of both pools.
fn fill_in_turn<R: Clock>(
    rt: &R,
    one: &mut (Client, AgentPort),
    other: &mut (Client, AgentPort),
    payload: &[u8],
    timed: &mut Timed,
) -> Result<()>
    requires few { length payload.now ≤ 1000 }
    requires one { piece_count MAX_SIZE (length payload.now) ≡ 1 }
    requires first { CanCall MAX_SIZE MAX_OPERATIONS one.old.0 × HasClient one.old.1 }
    requires second { CanCall MAX_SIZE MAX_OPERATIONS other.old.0 × HasClient other.old.1 }
{
    let mut left = CALLS;
    let mut right = CALLS;
    for _page in 0..CALLS {
        if left == 0 {
            break;
        }
        fill_page(rt, &mut one.0, &mut one.1, &mut left, payload, timed)?;
        fill_page(rt, &mut other.0, &mut other.1, &mut right, payload, timed)?;
    }
    Ok(())
}

/// The same of two clients that are not handed back. Answers whether all draws got a buffer, too.
fn fill_both<R: Clock>(
    rt: &R,
    mut one: (Client, AgentPort),
    mut other: (Client, AgentPort),
    payload: &[u8],
    timed: &mut Timed,
) -> (Result<()>, bool)
    requires few { length payload.now ≤ 1000 }
    requires one { piece_count MAX_SIZE (length payload.now) ≡ 1 }
    requires first { CanCall MAX_SIZE MAX_OPERATIONS one.0 × HasClient one.1 }
    requires second { CanCall MAX_SIZE MAX_OPERATIONS other.0 × HasClient other.1 }
{
    let filled = fill_in_turn(rt, &mut one, &mut other, payload, timed);
    (filled, one.0.nulls() == 0 && other.0.nulls() == 0)
}

/// Times points into the pages of this client and of another one, which fit no cache together.
fn time_beside<R: Clock>(
    rt: &R,
    alloc: Global,
    one: (Client, AgentPort),
    payload: &[u8],
) -> Result<Timed>
    requires few { length payload.now ≤ 1000 }
    requires one { piece_count MAX_SIZE (length payload.now) ≡ 1 }
    requires first { CanCall MAX_SIZE MAX_OPERATIONS one.0 × HasClient one.1 }
{
    let other = client_and_port(alloc, FAR).ok().context("memory")?;
    let mut timed = Timed::default();
    let (filled, full) = fill_both(rt, one, other, payload, &mut timed);
    filled?;
    ensure!(full, "a page had no buffer");
    Ok(timed)
}

/// The same of two clients of its own.
fn time_far<R: Clock>(rt: &R, alloc: Global, payload: &[u8]) -> Result<Timed>
    requires few { length payload.now ≤ 1000 }
    requires one { piece_count MAX_SIZE (length payload.now) ≡ 1 }
{
    let one = client_and_port(alloc, FAR).ok().context("memory")?;
    time_beside(rt, alloc, one, payload)
}

/// Times the points of so many calls, in one trace.
fn time_trace<R: Clock>(rt: &R, client: &mut Client, calls: u32, payload: &[u8]) -> Result<Timed>
    requires one { piece_count MAX_SIZE (length payload.now) ≡ 1 }
    requires can { CanCall MAX_SIZE calls client.old }
{
    let mut left = calls;
    begin(client, &mut left);
    let before = left;
    let start = Instant::now(rt)?;
    record(client, &mut left, payload, calls);
    let nanos = start.elapsed(rt)?.as_nanos();
    let mut timed = Timed::default();
    timed.add(u64::from(before), nanos, u64::from(client.nulls()));
    Ok(timed)
}

/// Times them, and says that this is done.
fn time_and_tell<R: Clock>(
    rt: &R,
    mut client: Client,
    calls: u32,
    payload: &[u8],
    over: &AtomicU64,
) -> Result<Timed>
    requires one { piece_count MAX_SIZE (length payload.now) ≡ 1 }
    requires can { CanCall MAX_SIZE calls client }
{
    let timed = time_trace(rt, &mut client, calls, payload);
    over.fetch_add(1, Ordering::SeqCst);
    timed
}

/// Gives back what comes, until the client is done.
fn give_all<R: Wait>(rt: &R, mut port: AgentPort, over: &AtomicU64)
    requires { HasClient port }
{
    for _ in rt.forever() {
        let last = over.load(Ordering::SeqCst) > 0;
        if let Some(held) = next_chunk(&mut port) {
            give_back(&mut port, held, CALLS);
        } else if last {
            return;
        } else {
            hint::spin_loop();
        }
    }
    unreachable!()
}

/// Times points over page changes, with so many calls of a client and with an agent in a thread of its own.
fn time_both<R: Clock + Threads + Wait + Sync>(
    rt: &R,
    client: Client,
    port: AgentPort,
    calls: u32,
    payload: &[u8],
) -> Result<Timed>
    requires one { piece_count MAX_SIZE (length payload.now) ≡ 1 }
    requires can { CanCall MAX_SIZE calls client }
    requires port { HasClient port }
{
    let over = AtomicU64::new(0);
    let told = &over;
    let (timed, ()) = join(
        rt,
        move || -> Result<Timed>
            requires { IsSync R.row × (piece_count MAX_SIZE (length payload.now) ≡ 1) × CanCall MAX_SIZE calls client }
        { time_and_tell(rt, client, calls, payload, told) },
        move || -> ()
            requires { IsSync R.row × HasClient port }
        { give_all(rt, port, told) },
    );
    timed
}

/// The same with all calls of a new client.
fn time_client<R: Clock + Threads + Wait + Sync>(
    rt: &R,
    alloc: Global,
    payload: &[u8],
) -> Result<Timed>
    requires { piece_count MAX_SIZE (length payload.now) ≡ 1 }
{
    let (client, port) = client_and_port(alloc, MAKING).ok().context("memory")?;
    time_both(rt, client, port, CALLS, payload)
}

/// The same of so many clients.
fn time_changes<R: Clock + Threads + Wait + Sync>(
    rt: &R,
    alloc: Global,
    payload: &[u8],
    clients: u32,
) -> Result<Timed>
    requires { piece_count MAX_SIZE (length payload.now) ≡ 1 }
{
    let mut timed = Timed::default();
    for _client in 0..clients {
        let one = time_client(rt, alloc, payload)?;
        timed.add(one.points, one.nanos, one.nulls);
    }
    Ok(timed)
}

/// Copies the payload again and again, as far apart as on a page. Answers how often.
fn copy_all(target: &mut [u8], payload: &[u8]) -> u64
    requires target { length target.old ≤ 67108864 }
    requires payload { length payload.now ≤ 1000 }
    ensures { length target.new ≡ length target.old }
{
    let step = PIECE_COST + payload.len();
    let mut copies = 0u64;
    let mut at = 0;
    'copies: while at + step <= target.len() {
        target[at + PIECE_COST..at + step].copy_from_slice(payload);
        at += step;
        copies = copies.wrapping_add(1);
    }
    copies
}

/// Times as many bare copies, over so many bytes.
fn time_copies<R: Clock>(
    rt: &R,
    alloc: Global,
    payload: &[u8],
    bytes: usize,
    rounds: u32,
) -> Result<Timed>
    requires few { length payload.now ≤ 1000 }
    requires bytes { (2097152 ≤ bytes) × (bytes ≤ 67108864) }
{
    let mut target = Vec::from_elem(alloc, 0u8, bytes)?;
    copy_all(target.as_mut_slice(), payload);
    let mut timed = Timed::default();
    for _round in 0..rounds {
        let start = Instant::now(rt)?;
        let copies = copy_all(target.as_mut_slice(), payload);
        timed.add(copies, start.elapsed(rt)?.as_nanos(), 0);
    }
    let first = &target.as_slice()[PIECE_COST..PIECE_COST + payload.len()];
    ensure!(first == payload, "a copy is wrong");
    Ok(timed)
}

/// What was timed of one payload: points into pages with room, points over page changes, and bare copies.
#[derive(Drop)]
struct Times {
    room: Timed,
    changes: Timed,
    copies: Timed,
}

/// Times points of so many bytes, and their copies.
fn time_all<R: Clock + Threads + Wait + Sync>(
    rt: &R,
    alloc: Global,
    bytes: usize,
    clients: u32,
) -> Result<Times>
    requires few { bytes ≤ 1000 }
    requires one { piece_count MAX_SIZE bytes ≡ 1 }
{
    let payload = Vec::from_elem(alloc, 7u8, bytes)?;
    Ok(Times {
        room: time_room(rt, alloc, payload.as_slice(), clients)?,
        changes: time_changes(rt, alloc, payload.as_slice(), clients)?,
        copies: time_copies(
            rt,
            alloc,
            payload.as_slice(),
            BYTES,
            clients.saturating_mul(16),
        )?,
    })
}

/// Prints what was timed of so many bytes.
fn report<R: Print>(rt: &R, bytes: usize, times: &Times) -> Result<()> {
    println!(rt;
        "{bytes} bytes: {}.{} ns a point into a page with room, {}.{} ns over page changes with {} null pages, {}.{} ns a copy",
        times.room.tenths() / 10,
        times.room.tenths() % 10,
        times.changes.tenths() / 10,
        times.changes.tenths() % 10,
        times.changes.nulls,
        times.copies.tenths() / 10,
        times.copies.tenths() % 10
    )?;
    Ok(())
}

/// Times points of so many bytes, and prints what was seen.
fn time_each<R: Print + Clock + Threads + Wait + Sync>(
    rt: &R,
    alloc: Global,
    bytes: usize,
    clients: u32,
) -> Result<()>
    requires few { bytes ≤ 1000 }
    requires one { piece_count MAX_SIZE bytes ≡ 1 }
{
    let times = time_all(rt, alloc, bytes, clients)?;
    report(rt, bytes, &times)
}

/// Times points of so many bytes into pages that fit no cache, and so many times as many copies: tenths of a nanosecond of each.
fn time_far_all<R: Clock>(rt: &R, alloc: Global, bytes: usize, rounds: u32) -> Result<(u128, u128)>
    requires few { bytes ≤ 1000 }
    requires one { piece_count MAX_SIZE bytes ≡ 1 }
{
    let payload = Vec::from_elem(alloc, 7u8, bytes)?;
    let points = time_far(rt, alloc, payload.as_slice())?;
    let copies = time_copies(rt, alloc, payload.as_slice(), FAR_BYTES, rounds)?;
    Ok((points.tenths(), copies.tenths()))
}

/// Times points of so many bytes into pages that fit no cache, and prints what was seen.
fn time_far_each<R: Print + Clock>(rt: &R, alloc: Global, bytes: usize, rounds: u32) -> Result<()>
    requires few { bytes ≤ 1000 }
    requires one { piece_count MAX_SIZE bytes ≡ 1 }
{
    let (points, copies) = time_far_all(rt, alloc, bytes, rounds)?;
    println!(rt;
        "{bytes} bytes, 64 MiB of pages: {}.{} ns a point, {}.{} ns a copy",
        points / 10,
        points % 10,
        copies / 10,
        copies % 10
    )?;
    Ok(())
}

/// Times points without bytes and of 16, 100 and 1,000 bytes, of so many clients each, and then points into pages that fit no cache.
pub(crate) fn run<R: Print + Clock + AllocGlobal + Threads + Wait + Sync>(
    rt: &R,
    clients: u32,
) -> Result<()> {
    time_each(rt, rt.alloc(), 0, clients)?;
    time_each(rt, rt.alloc(), 16, clients)?;
    time_each(rt, rt.alloc(), 100, clients)?;
    time_each(rt, rt.alloc(), 1000, clients)?;
    time_far_each(rt, rt.alloc(), 1000, clients)
}
