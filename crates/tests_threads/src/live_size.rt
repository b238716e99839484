//! A client near its greatest sizes: 1,024 chunks of 32,768 bytes, and records of 65,535 bytes.

ghost use Rattle.std.specs.Prelude.{◌≡◌, ℕ, ◌+◌, ◌*◌, ◌≤◌, length, IsSome, IfOk};
ghost use Rattle.hs_records.specs.Records.{piece_count};
ghost use Rattle.tests_with.specs.Pairs.{CanCall, KeepsPort, HasClient};

use crate::rows::row;
use hs_base::limits::{MAX_BUFFERS, MAX_PAYLOAD, MAX_SIZE};
use hs_base::{Memory, TraceId};
use hs_live::{AgentPort, Called, Client};
use hs_ring::Lease;
use hs_words::Held;
use std::alloc::{AllocError, Global};
use tests_with::{Making, client_and_port, flush, give_back, next_chunk, nothing_comes};

/// How many entries each link has.
const CAPACITY: u32 = 64;

/// So many records need two pages more than there are chunks.
const RECORDS: u32 = (MAX_BUFFERS + 2) / 3;

const GREATEST: Making = Making {
    buffers: MAX_BUFFERS,
    size: MAX_SIZE,
    calls: 3 * RECORDS + 5,
    capacity: CAPACITY,
};

/// A payload of so many bytes.
fn payload_of(alloc: Global, count: usize) -> Result<Vec<u8>, AllocError>
    ensures { IfOk result (λ bytes. length bytes.items ≡ count) }
{
    Vec::from_elem(alloc, 9u8, count)
}

/// Opens a trace.
fn begin(client: &mut Client) -> Called
    ensures { (n : ℕ) → CanCall MAX_SIZE (n + 1) client.old → CanCall MAX_SIZE n client.new }
{
    client.begin(TraceId(1))
}

/// Records a payload of three pieces, or one that is a byte too long.
fn point(client: &mut Client, moment: u64, payload: &[u8]) -> Called
    requires pieces { piece_count MAX_SIZE (length payload.now) ≡ 3 }
    requires can { CanCall MAX_SIZE 3 client.old }
    ensures { (n : ℕ) → CanCall MAX_SIZE (n + 3) client.old → CanCall MAX_SIZE n client.new }
{
    client.point(moment, payload)
}

/// Records the longest payload again and again. Answers how often that was done.
fn record_all(client: &mut Client, payload: &[u8]) -> u32
    requires pieces { piece_count MAX_SIZE (length payload.now) ≡ 3 }
    requires can { CanCall MAX_SIZE (3 * RECORDS + 1) client.old }
    ensures left { CanCall MAX_SIZE 1 client.new }
    ensures few { result ≤ RECORDS }
{
    let mut done = 0;
    for moment in 0..RECORDS {
        if point(client, u64::from(moment), payload) == Called::Done {
            done += 1;
        }
    }
    done
}

/// A trace of the longest records, and one that is too long.
fn records(client: &mut Client, longest: &[u8], too_long: &[u8]) -> bool
    requires longest { length longest.now ≡ MAX_PAYLOAD }
    requires too_long { length too_long.now ≡ MAX_PAYLOAD + 1 }
    requires can { CanCall MAX_SIZE (3 * RECORDS + 5) client.old }
{
    let begun = begin(client);
    let wide = point(client, 0, too_long);
    let done = record_all(client, longest);
    let ended = client.end();
    begun == Called::Done && wide == Called::TooWide && done == RECORDS && ended == Called::Done
}

/// Whether the chunk has this page. Each record has two full pages and one of 67 bytes.
fn is_page(held: &Held<Lease>, page: u32) -> bool {
    let used = if page % 3 == 2 { 101 } else { MAX_SIZE };
    match held.chunk.header() {
        Some(header) => {
            header.trace == TraceId(1)
                && header.page == page
                && header.first == page / 3
                && held.chunk.used() == used
        }
        None => false,
    }
}

/// Takes what is in the ring of the link, and gives it back. Answers how many were the pages from this one on.
fn take_pages(port: &mut AgentPort, first: u32) -> u32
    requires ends { HasClient port.old }
    requires first { first ≤ MAX_BUFFERS }
    ensures same { KeepsPort port.old port.new }
    ensures few { result ≤ CAPACITY }
{
    let mut right = 0;
    for place in 0..CAPACITY {
        let Some(held) = next_chunk(port) else {
            break;
        };
        let is_right = is_page(&held, first + place);
        if is_right && give_back(port, held, 8).is_some() {
            right += 1;
        }
    }
    right
}

/// Takes all pages, as many at a time as the link has entries. Answers whether they are those that were sent, and as many
/// wait each time as should.
fn takes_all(client: &mut Client, port: &mut AgentPort) -> bool
    requires { HasClient port.old }
    ensures { KeepsPort port.old port.new }
{
    let mut right = 0;
    for round in 0..MAX_BUFFERS / CAPACITY {
        let waits = flush(client);
        if waits == MAX_BUFFERS - CAPACITY * (round + 1) {
            right += take_pages(port, CAPACITY * round);
        }
    }
    right == MAX_BUFFERS
}

/// Records with payloads of these sizes.
fn records_of(alloc: Global, client: &mut Client) -> Result<bool, AllocError>
    requires { CanCall MAX_SIZE (3 * RECORDS + 5) client.old }
{
    let longest = payload_of(alloc, MAX_PAYLOAD)?;
    let too_long = payload_of(alloc, MAX_PAYLOAD + 1)?;
    Ok(records(client, longest.as_slice(), too_long.as_slice()) && client.nulls() == 2)
}

fn the_greatest_sizes(alloc: Global) -> Result<bool, Memory> {
    let (mut client, mut port) = client_and_port(alloc, GREATEST)?;
    let recorded = records_of(alloc, &mut client)?;
    Ok(recorded && takes_all(&mut client, &mut port) && nothing_comes(&mut port))
}

#[test]
fn great_clients(rt: HostRuntime) {
    row(&rt, "the greatest sizes", the_greatest_sizes(rt.alloc()));
}
