//! Pages of one client that are added to a collector one behind another.

ghost use Rattle.std.specs.Prelude.{◌+◌, ◌<◌, ◌≤◌, ◌^◌, IfOk, OnOk};
ghost use Rattle.tests_with.specs.Pages.{HasSheet, HasAdded};

use hs_base::{ClientId, Memory, TraceId};
use hs_collect::Collector;
use hs_words::{Added, Chunk, Header};
use std::alloc::Global;

/// A collector to which no page was added.
pub fn no_pages(alloc: Global) -> Result<Collector, Memory>
    ensures none { IfOk result (λ collector. HasAdded collector 0 0) }
    // The first page that is added may be the client's second.
    ensures second { IfOk result (λ collector. HasAdded collector 1 1) }
{
    Collector::make(alloc)
}

/// Starts a page of the trace, and fills it with at most so many records without bytes. Answers how many there are.
pub fn fill_page(chunk: &mut Chunk, trace: u32, page: u32, first: u32, most: u32) -> u32
    ensures page { HasSheet chunk.new page first result }
    ensures few { result ≤ most }
{
    chunk.clear();
    chunk.start(Header {
        trace: TraceId(u128::from(trace)),
        client: ClientId { node: 0, number: 0 },
        page,
        first,
    });
    let mut count = 0u32;
    for moment in 0..most {
        match chunk.add(u64::from(moment), &[]) {
            Added::Added => count += 1,
            Added::NoRoom => break,
        }
    }
    count
}

/// Adds the page that comes next.
pub fn add_page(
    collector: &mut Collector,
    chunk: &Chunk,
    page: u32,
    first: u32,
    count: u32,
) -> Result<(), Memory>
    requires before { HasAdded collector.old page first }
    requires page { HasSheet chunk.now page first count }
    requires some { 0 < count }
    requires few { first + count ≤ 2 ^ 32 }
    ensures { OnOk result (HasAdded collector.new (page + 1) (first + count)) }
{
    collector.add(chunk.bytes())
}
