//! Pages that come twice, of another life, of somebody else, and beyond the limits; many traces, one after another.

use crate::rows::row;
use hs_base::{Memory, TraceId};
use hs_traces::{Added, CoreId, MakeFault, Offered, PageKey, TraceCounts, TraceLimits, Traces};
use std::alloc::Global;

/// The page of `docs/FORMATS.md` with one record of one byte: of trace 1, written by client 0 of node 0.
const PAGE: [u8; 43] = [
    0, 0, 0, 0, 0, 0, 0, 0, 0, 0, 0, 0, 0, 0, 0, 1, 0, 0, 0, 0, 0, 0, 0, 0, 0, 0, 0, 0, 0, 1, 0,
    35, 0, 1, 0, 0, 0, 0, 0, 0, 0, 5, 0xaa,
];

/// The least bytes that may be held: 762 of these pages, and ten bytes more.
const LIMITS: TraceLimits = TraceLimits {
    hold: 2,
    outs: 1,
    bytes: 32_776,
};

/// That client in this life of its node.
fn sender(epoch: u64) -> CoreId {
    CoreId {
        node: 0,
        epoch,
        client: 0,
        core: 1,
    }
}

/// The key of its page 0.
fn key(epoch: u64) -> PageKey {
    PageKey {
        node: 0,
        epoch,
        client: 0,
        core: 1,
        page: 0,
    }
}

/// A page like that, of this trace and with this number.
fn page_of(trace: u16, page: u16) -> [u8; 43] {
    let [trace_high, trace_low] = trace.to_be_bytes();
    let [page_high, page_low] = page.to_be_bytes();
    let mut bytes = PAGE;
    bytes[14] = trace_high;
    bytes[15] = trace_low;
    bytes[22] = page_high;
    bytes[23] = page_low;
    bytes
}

fn made(alloc: Global, limits: TraceLimits) -> Result<Traces, Memory> {
    match Traces::make(alloc, limits) {
        Ok(traces) => Ok(traces),
        Err(_) => Err(Memory),
    }
}

fn counts(waiting: usize, out: usize, bytes: u64) -> TraceCounts {
    TraceCounts {
        waiting,
        out,
        bytes,
    }
}

/// Each limit has its least.
fn limits_are_refused(alloc: Global) -> Result<bool, Memory> {
    let none = TraceLimits { hold: 0, ..LIMITS };
    let out = TraceLimits { outs: 0, ..LIMITS };
    let bytes = TraceLimits {
        bytes: 32_775,
        ..LIMITS
    };
    Ok(is_refused(alloc, none) && is_refused(alloc, out) && is_refused(alloc, bytes))
}

fn is_refused(alloc: Global, limits: TraceLimits) -> bool {
    matches!(Traces::make(alloc, limits), Err(MakeFault::Limits))
}

/// A page is added once; of the next life it is another page.
fn a_page_is_held_once(alloc: Global) -> Result<bool, Memory> {
    let mut traces = made(alloc, LIMITS)?;
    let first = traces.add(sender(7), &PAGE)?;
    let again = traces.add(sender(7), &PAGE)?;
    let later = traces.add(sender(8), &PAGE)?;
    Ok(
        (first, again, later) == (Added::Added, Added::Repeated, Added::Added)
            && traces.counts() == counts(1, 0, 86),
    )
}

/// Bytes that are no page, and a page of another client.
fn others_are_refused(alloc: Global) -> Result<bool, Memory> {
    let mut traces = made(alloc, LIMITS)?;
    let other = CoreId {
        client: 1,
        ..sender(7)
    };
    let short = traces.add(sender(7), &PAGE[..42])?;
    let foreign = traces.add(other, &PAGE)?;
    Ok((short, foreign) == (Added::NoPage, Added::Foreign) && traces.counts() == counts(0, 0, 0))
}

/// Adds the page of two lives, the later one first, and gives the trace out.
fn given(alloc: Global) -> Result<Traces, Memory> {
    let mut traces = made(alloc, LIMITS)?;
    traces.add(sender(8), &PAGE)?;
    traces.add(sender(7), &PAGE)?;
    traces.offer(TraceId(1));
    Ok(traces)
}

fn next(traces: &Traces, after: Option<PageKey>) -> Option<PageKey> {
    match traces.next_page(TraceId(1), after) {
        Some((key, bytes)) if bytes == PAGE.as_slice() => Some(key),
        _ => None,
    }
}

/// What is given out is read in the order of its keys.
fn pages_are_read_in_order(alloc: Global) -> Result<bool, Memory> {
    let traces = given(alloc)?;
    Ok(
        next(&traces, None) == Some(key(7))
            && next(&traces, Some(key(7))) == Some(key(8))
            && next(&traces, Some(key(8))).is_none()
            && traces.counts() == counts(0, 1, 86),
    )
}

/// A page that is out comes again, and one of a third life waits as a later part.
fn a_later_part_waits(alloc: Global) -> Result<bool, Memory> {
    let mut traces = given(alloc)?;
    let again = traces.add(sender(7), &PAGE)?;
    let later = traces.add(sender(9), &PAGE)?;
    let offered = traces.offer(TraceId(1));
    Ok(
        (again, later, offered) == (Added::Repeated, Added::Added, Offered::Unsaved)
            && traces.counts() == counts(1, 1, 129),
    )
}

/// What was saved is gone; then the later part may go out.
fn saved_is_gone(alloc: Global) -> Result<bool, Memory> {
    let mut traces = given(alloc)?;
    traces.add(sender(9), &PAGE)?;
    let saved = traces.saved(TraceId(1));
    let left = traces.counts();
    let offered = traces.offer(TraceId(1));
    Ok(saved && left == counts(1, 0, 43) && offered == Offered::Given)
}

/// Adds so many pages of trace 1. Answers whether each was added.
fn fill(traces: &mut Traces, pages: u16) -> Result<bool, Memory> {
    let mut right = true;
    for page in 0..pages {
        right &= traces.add(sender(7), &page_of(1, page))? == Added::Added;
    }
    Ok(right)
}

/// At the limit of bytes a page is refused and a repeat is not; when the trace was saved there is room again.
fn bytes_are_bounded(alloc: Global) -> Result<bool, Memory> {
    let mut traces = made(alloc, LIMITS)?;
    let filled = fill(&mut traces, 762)?;
    let full = traces.add(sender(7), &page_of(1, 762))?;
    let again = traces.add(sender(7), &page_of(1, 0))?;
    Ok(filled && (full, again) == (Added::Full, Added::Repeated) && empties(&mut traces)?)
}

/// Saves trace 1, and adds a page.
fn empties(traces: &mut Traces) -> Result<bool, Memory> {
    let offered = traces.offer(TraceId(1));
    let full = traces.add(sender(7), &page_of(1, 762))?;
    let saved = traces.saved(TraceId(1));
    let added = traces.add(sender(7), &page_of(1, 762))?;
    Ok(offered == Offered::Given && full == Added::Full && saved && added == Added::Added)
}

/// A third trace has to wait until the oldest is given out.
fn traces_are_bounded(alloc: Global) -> Result<bool, Memory> {
    let mut traces = made(alloc, LIMITS)?;
    traces.add(sender(7), &page_of(1, 0))?;
    traces.add(sender(7), &page_of(2, 1))?;
    let full = traces.add(sender(7), &page_of(3, 2))?;
    let oldest = traces.oldest();
    let offered = traces.offer(TraceId(1));
    let added = traces.add(sender(7), &page_of(3, 2))?;
    Ok(
        (full, added) == (Added::Full, Added::Added)
            && (oldest, offered) == (Some(TraceId(1)), Offered::Given)
            && traces.offer(TraceId(2)) == Offered::Busy,
    )
}

/// One trace comes, goes out and is saved.
fn passes(traces: &mut Traces, trace: u16) -> Result<bool, Memory> {
    let added = traces.add(sender(7), &page_of(trace, trace))?;
    let offered = traces.offer(TraceId(u128::from(trace)));
    let saved = traces.saved(TraceId(u128::from(trace)));
    Ok(added == Added::Added && offered == Offered::Given && saved)
}

/// 60,000 traces, one after another, and nothing is left of them.
fn many_traces_pass(alloc: Global) -> Result<bool, Memory> {
    let mut traces = made(alloc, LIMITS)?;
    let mut right = true;
    for trace in 0..60_000u16 {
        right &= passes(&mut traces, trace)?;
    }
    Ok(right && traces.counts() == counts(0, 0, 0))
}

#[test]
fn held_pages(rt: HostRuntime) {
    let alloc = rt.alloc();
    row(&rt, "limits", limits_are_refused(alloc));
    row(&rt, "once", a_page_is_held_once(alloc));
    row(&rt, "others", others_are_refused(alloc));
    row(&rt, "order", pages_are_read_in_order(alloc));
    row(&rt, "later part", a_later_part_waits(alloc));
    row(&rt, "saved", saved_is_gone(alloc));
    row(&rt, "bytes", bytes_are_bounded(alloc));
    row(&rt, "traces", traces_are_bounded(alloc));
    row(&rt, "many", many_traces_pass(alloc));
}
