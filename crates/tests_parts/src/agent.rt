//! A node's agent at the empty lease with as many pins as there may be, and one for which memory is wanting. What an agent does else is
//! shown by `examples/`, by `cases/agents` and by the journals of `cases/lawful`.

use crate::rows::row;
use hs_base::limits::{MAX_PINS, MAX_THRESHOLD, MAX_TRACES};
use hs_base::{Laterals, Memory};
use std::alloc::Global;
use tests_with::{Limits, Site};

const FEW: Limits = Limits {
    threshold: 2,
    traces: 8,
    pins: 4,
    burst: 10,
    rate: 0,
};

const GREATEST: Limits = Limits {
    threshold: MAX_THRESHOLD,
    traces: MAX_TRACES,
    pins: MAX_PINS,
    burst: 10,
    rate: 0,
};

/// Gives chunks of trace 1 with the pages from 0 on. Answers whether nothing is told of any.
fn fills(site: &mut Site) -> Result<bool, Memory> {
    let mut quiet = true;
    for page in 0..MAX_THRESHOLD {
        quiet &= site.chunk(1, page)?.is_none();
    }
    Ok(quiet)
}

/// Triggers trace 1. Answers whether that is told, and as many chunks as may be are pinned.
fn pins_all(site: &mut Site) -> Result<bool, Memory> {
    let told = site.trigger(0, 1, Laterals::none())?.is_some();
    Ok(told && site.pinned() == MAX_PINS)
}

/// Gives a chunk more of it. Answers whether nothing is told, and no chunk is pinned.
fn lets_go(site: &mut Site) -> Result<bool, Memory> {
    let quiet = site.chunk(1, MAX_THRESHOLD)?.is_none();
    Ok(quiet && site.pinned() == 0)
}

/// Whether all of these go so.
fn fills_and_lets_go(site: &mut Site) -> Result<bool, Memory> {
    Ok(fills(site)? && pins_all(site)? && lets_go(site)?)
}

/// Whether an agent had 1,025 chunks, and has them left.
fn has_all(site: Site) -> Result<bool, Memory> {
    let end = site.finish()?;
    Ok(end.rest.len() == 1025 && end.book.standings.len() == 1025)
}

/// As many chunks are pinned as may be, and one more lets all of them go.
fn the_most_is_pinned(alloc: Global) -> Result<bool, Memory> {
    let mut site = Site::make(alloc, GREATEST)?;
    let went = fills_and_lets_go(&mut site)?;
    Ok(has_all(site)? && went)
}

/// Leaves a crumb and offers a chunk. Answers whether memory was wanting for each.
fn fails(site: &mut Site, trace: u32) -> (bool, bool) {
    let crumb = site.crumb(u128::from(trace), 1).is_err();
    (crumb, site.offer().is_err())
}

/// Where a call answers that memory is wanting, each later one does. With memory enough none does.
fn memory_stays_wanting(alloc: Global) -> Result<bool, Memory> {
    let mut site = Site::make(alloc, FEW)?;
    let mut wanting = false;
    let mut stays = true;
    for trace in 0u32..20 {
        let (crumb, offer) = fails(&mut site, trace);
        stays &= wanting <= crumb && crumb <= offer;
        wanting = offer;
    }
    Ok(stays)
}

/// Tries a chunk of this trace, and once more where it came back. Answers whether it was taken.
fn takes_a_chunk(site: &mut Site, trace: u32) -> Result<bool, Memory> {
    Ok(site.try_chunk(u128::from(trace), 0)? || site.try_chunk(u128::from(trace), 0)?)
}

/// Tries a chunk of each of 20 traces. Answers whether each was taken.
fn takes_chunks(site: &mut Site) -> Result<bool, Memory> {
    let mut all = true;
    for trace in 0u32..20 {
        all &= takes_a_chunk(site, trace)?;
    }
    Ok(all)
}

/// Tries a crumb of this trace, and once more where it was not taken. Answers whether it was.
fn takes_a_crumb(site: &mut Site, trace: u128) -> Result<bool, Memory> {
    Ok(site.try_crumb(trace, 1)? || site.try_crumb(trace, 1)?)
}

/// Tries a trigger of this trace, and once more where it was not taken. Answers whether it was.
fn takes_a_trigger(site: &mut Site, lead: u128) -> Result<bool, Memory> {
    let laterals = Laterals::none();
    Ok(site.try_trigger(lead, laterals)? || site.try_trigger(lead, laterals)?)
}

/// Tries a crumb of a new trace, and a trigger of the last trace that has a chunk. Answers whether both were taken, and its
/// chunk is pinned.
fn claims_the_last(site: &mut Site) -> Result<bool, Memory> {
    Ok(takes_a_crumb(site, 20)? && takes_a_trigger(site, 19)? && site.pinned() == 1)
}

/// Where one allocation is refused, what was tried comes back, and is taken when it is tried again.
fn what_comes_back_is_taken_later(alloc: Global) -> Result<bool, Memory> {
    let mut site = Site::make(alloc, FEW)?;
    Ok(takes_chunks(&mut site)? && claims_the_last(&mut site)?)
}

#[test]
fn agents(rt: HostRuntime) {
    row(&rt, "the most is pinned", the_most_is_pinned(rt.alloc()));
    row(
        &rt,
        "memory stays wanting",
        memory_stays_wanting(rt.alloc()),
    );
    row(
        &rt,
        "what comes back is taken later",
        what_comes_back_is_taken_later(rt.alloc()),
    );
}
