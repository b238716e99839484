//! Pages of as many records and of as many traces as may be, and one of which the page before was evicted. How records are joined is shown
//! by `examples/` and `cases/pages`.

ghost use Rattle.std.specs.Prelude.{◌≤◌, IsTrue};
ghost use Rattle.tests_with.specs.Pages.{HasAdded, HasSheet};

use crate::rows::row;
use hs_base::limits::{MAX_SIZE, MAX_TRACES, MIN_SIZE};
use hs_base::{ClientId, Memory, TraceId};
use hs_collect::Collector;
use hs_words::{Added, Chunk, Header, Stock};
use std::alloc::Global;
use tests_with::{add_page, fill_page, no_pages};

/// A chunk of this size.
fn chunk_of(alloc: Global, size: u32) -> Result<Chunk, Memory>
    requires { (MIN_SIZE ≤ size) × (size ≤ MAX_SIZE) }
{
    let mut chunks = Stock::make(alloc, 1, size)?;
    chunks.pop().ok_or(Memory)
}

/// Fills so many pages of trace 7 with records without bytes, and adds them. Answers how many records there are.
fn add_full(collector: &mut Collector, chunk: &mut Chunk, pages: u32) -> Result<u32, Memory>
    requires { HasAdded collector.old 0 0 }
{
    let mut first = 0u32;
    for page in 0..pages {
        let count = fill_page(chunk, 7, page, first, 4000);
        if count == 0 || first > 1_000_000 {
            break;
        }
        add_page(collector, chunk, page, first, count)?;
        first += count;
    }
    Ok(first)
}

/// Whether the trace 7 has so many records, each without bytes.
fn has_records(collector: &Collector, count: usize) -> bool {
    let Some(records) = collector.trace(TraceId(7)) else {
        return false;
    };
    let mut right = records.entries.len() == count;
    for record in records.entries.as_slice() {
        right &= record.payload.is_empty();
    }
    right
}

/// 80 pages of the greatest size have 261,920 records of one trace.
fn a_trace_of_all_records(alloc: Global) -> Result<bool, Memory> {
    let mut chunk = chunk_of(alloc, MAX_SIZE)?;
    let mut collector = no_pages(alloc)?;
    let count = add_full(&mut collector, &mut chunk, 80)?;
    Ok(count == 261_920 && has_records(&collector, 261_920))
}

/// Adds a page of one record for each trace from 0 on.
fn add_traces(collector: &mut Collector, chunk: &mut Chunk) -> Result<(), Memory>
    requires { HasAdded collector.old 0 0 }
{
    let mut first = 0u32;
    for page in 0..MAX_TRACES {
        let count = fill_page(chunk, page, page, first, 1);
        if count == 0 || first > 1_000_000 {
            break;
        }
        add_page(collector, chunk, page, first, count)?;
        first += count;
    }
    Ok(())
}

/// 65,536 traces of one record each.
fn as_many_traces_as_records(alloc: Global) -> Result<bool, Memory> {
    let mut chunk = chunk_of(alloc, MIN_SIZE)?;
    let mut collector = no_pages(alloc)?;
    add_traces(&mut collector, &mut chunk)?;
    let traces = collector.traces()?;
    Ok(traces.len() == MAX_TRACES as usize && traces.get(65_535).copied() == Some(TraceId(65_535)))
}

/// Fills the client's second page with its second record. Answers whether that fits.
fn fill_second(chunk: &mut Chunk) -> bool
    ensures { IsTrue result → HasSheet chunk.new 1 1 1 }
{
    chunk.clear();
    chunk.start(Header {
        trace: TraceId(1),
        client: ClientId { node: 0, number: 0 },
        page: 1,
        first: 1,
    });
    matches!(chunk.add(3, &[0xbb]), Added::Added)
}

/// Whether trace 1 has that record alone.
fn has_second(collector: &Collector) -> bool {
    let Some(records) = collector.trace(TraceId(1)) else {
        return false;
    };
    match records.entries.as_slice() {
        [record] => record.id.number == 1
            && record.moment == 3
            && record.payload.as_slice() == [0xbb].as_slice(),
        _ => false,
    }
}

/// The pages of `examples/gap.txt`: the first of its trace was evicted before the trace was claimed, and the second was reported.
fn a_trace_without_its_first_page(alloc: Global) -> Result<bool, Memory> {
    let mut chunk = chunk_of(alloc, MIN_SIZE)?;
    let mut collector = no_pages(alloc)?;
    if !fill_second(&mut chunk) {
        return Ok(false);
    }
    add_page(&mut collector, &chunk, 1, 1, 1)?;
    Ok(collector.traces()?.as_slice() == [TraceId(1)].as_slice() && has_second(&collector))
}

#[test]
fn collectors(rt: HostRuntime) {
    row(
        &rt,
        "a trace of all records",
        a_trace_of_all_records(rt.alloc()),
    );
    row(
        &rt,
        "as many traces as records",
        as_many_traces_as_records(rt.alloc()),
    );
    row(
        &rt,
        "a trace without its first page",
        a_trace_without_its_first_page(rt.alloc()),
    );
}
