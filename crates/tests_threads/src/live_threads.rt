//! A client in a thread of its own, and its port in another.

ghost use Rattle.std.specs.Thread.{IsSync};
ghost use Rattle.tests_with.specs.Pairs.{CanCall, KeepsClient, KeepsPort, IsOnly, HasClient};

use crate::live_calls::{Call, do_calls, is_closed};
use crate::rows::row;
use hs_base::Memory;
use hs_base::limits::MIN_SIZE;
use hs_live::{AgentPort, Called, Client};
use hs_ring::Lease;
use hs_words::Held;
use std::alloc::Global;
use std::thread;
use std::thread::{Threads, join};
use tests_with::{
    Making, PairEnding, client_and_port, close_all, flush, give_back, meet, next_chunk, next_crumb,
    next_trigger,
};

/// Eight chunks, and links of eight entries.
const EIGHT: Making = Making {
    buffers: 8,
    size: MIN_SIZE,
    calls: 1401,
    capacity: 8,
};

/// A trace with three pages, a crumb and a trigger.
const ROUND: [(Call, Called); 7] = [
    (Call::Begin { trace: 1 }, Called::Done),
    (Call::Full { moment: 2 }, Called::Done),
    (Call::Over { moment: 3 }, Called::Done),
    (Call::Crumb, Called::Done),
    (
        Call::Sample {
            moment: 4,
            value: 1,
        },
        Called::Done,
    ),
    (Call::Trigger { moment: 5, lead: 1 }, Called::Done),
    (Call::End, Called::Done),
];

const ROUNDS: u32 = 100;

/// Makes the calls of all rounds, and flushes. Answers how many were answered otherwise.
fn work(mut client: Client) -> (Client, u32)
    requires { CanCall MIN_SIZE 1401 client }
    ensures left { CanCall MIN_SIZE 1 result.0 }
    ensures same { KeepsClient client result.0 }
{
    let mut others = 0u32;
    for _round in 0..ROUNDS {
        others = others.saturating_add(do_calls(&mut client, &ROUND));
    }
    flush(&mut client);
    (client, others)
}

/// What came: how many pages, crumbs and triggers, the least number that the next page may have, and how many pages had a
/// smaller one or were not given back.
#[derive(Default, Drop)]
struct Seen {
    pages: u32,
    crumbs: u32,
    triggers: u32,
    next: u32,
    strays: u32,
}

/// Counts a chunk.
fn see(seen: &mut Seen, held: &Held<Lease>) {
    seen.pages = seen.pages.saturating_add(1);
    match held.chunk.header() {
        Some(header) if header.page >= seen.next => seen.next = header.page.saturating_add(1),
        _ => seen.strays = seen.strays.saturating_add(1),
    }
}

/// Takes what has come, at most eight of each kind.
fn serve(port: &mut AgentPort, seen: &mut Seen)
    requires { HasClient port.old }
    ensures { KeepsPort port.old port.new }
{
    for _ in 0..8 {
        if let Some(held) = next_chunk(port) {
            see(seen, &held);
            if give_back(port, held, 1000).is_none() {
                seen.strays = seen.strays.saturating_add(1);
            }
        }
        if next_crumb(port).is_some() {
            seen.crumbs = seen.crumbs.saturating_add(1);
        }
        if next_trigger(port).is_some() {
            seen.triggers = seen.triggers.saturating_add(1);
        }
    }
}

/// Takes what comes meanwhile.
fn serve_meanwhile(mut port: AgentPort) -> (AgentPort, Seen)
    requires { HasClient port }
    ensures { KeepsPort port result.0 }
{
    let mut seen = Seen::default();
    for _round in 0..500 {
        serve(&mut port, &mut seen);
        thread::yield_now();
    }
    (port, seen)
}

/// The client and the port, each in a thread of its own.
fn work_and_serve<R: Threads + Sync>(
    rt: &R,
    client: Client,
    port: AgentPort,
) -> (Client, u32, AgentPort, Seen)
    requires can { CanCall MIN_SIZE 1401 client }
    requires ends { HasClient port }
    ensures left { CanCall MIN_SIZE 1 result.0 }
    ensures same { KeepsClient client result.0 × KeepsPort port result.2 }
{
    let (worked, served) = join(
        rt,
        move || -> (Client, u32)
            requires { CanCall MIN_SIZE 1401 client }
            ensures { CanCall MIN_SIZE 1 result.0 × KeepsClient client result.0 }
        { work(client) },
        move || -> (AgentPort, Seen)
            requires { HasClient port }
            ensures { KeepsPort port result.0 }
        { serve_meanwhile(port) },
    );
    let (client, others) = worked;
    let (port, seen) = served;
    (client, others, port, seen)
}

/// Takes what is left, on one thread.
fn settle(client: &mut Client, port: &mut AgentPort, seen: &mut Seen)
    requires can { CanCall MIN_SIZE 1 client.old }
    requires ends { IsOnly port.old client.old }
    ensures left { CanCall MIN_SIZE 1 client.new }
    ensures ends { IsOnly port.new client.new }
{
    for _round in 0..100 {
        meet(port, client);
        flush(client);
        serve(port, seen);
    }
}

/// Whether all that was sent came, in order, each buffer was given back, and so much is left behind.
fn is_whole(seen: &Seen, nulls: u32, left: &PairEnding) -> bool {
    (left.chunks, left.crumbs, left.triggers) == (0, 0, 0)
        && (seen.crumbs, seen.triggers, seen.strays) == (100, 100, 0)
        && (left.book.pages.len(), left.book.draws.len()) == (300, 300)
        && seen.pages.saturating_add(nulls) == 300
        && left.tally.gots == u64::from(seen.pages)
        && left.tally.empties == u64::from(nulls)
}

/// Takes what is left, and closes the client and its port. Answers whether all is whole.
fn ends_whole(
    alloc: Global,
    mut client: Client,
    mut port: AgentPort,
    mut seen: Seen,
) -> Result<bool, Memory>
    requires can { CanCall MIN_SIZE 1 client }
    requires ends { IsOnly port client }
{
    settle(&mut client, &mut port, &mut seen);
    let nulls = client.nulls();
    if !is_closed(&mut client) {
        return Ok(false);
    }
    let left = close_all(alloc, client, port)?;
    Ok(is_whole(&seen, nulls, &left))
}

fn a_client_in_a_thread_of_its_own<R: Threads + Sync>(
    rt: &R,
    alloc: Global,
) -> Result<bool, Memory> {
    let (client, port) = client_and_port(alloc, EIGHT)?;
    let (client, others, port, seen) = work_and_serve(rt, client, port);
    Ok(ends_whole(alloc, client, port, seen)? && others == 0)
}

#[test]
fn clients_in_threads(rt: HostRuntime) {
    row(
        &rt,
        "a thread of its own",
        a_client_in_a_thread_of_its_own(&rt, rt.alloc()),
    );
}
