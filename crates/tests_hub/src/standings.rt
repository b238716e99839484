//! Standings of one life in any order, of as many lives as may be, and of traces that are forgotten.

use crate::rows::row;
use hs_base::{GroupId, Memory, NodeSet, TraceId};
use hs_standings::{Life, StandingOutcome, Standings};
use hs_wire::{Losses, Standing, Wholeness};
use std::alloc::Global;

const NONE_LOST: Losses = Losses {
    null_pages: 0,
    full_points: 0,
    dry_points: 0,
    long_points: 0,
    refused_crumbs: 0,
    evicted_crumbs: 0,
    forgotten_crumbs: 0,
    evicted_pages: 0,
    abandoned_pages: 0,
};

/// A standing of this trace, with so many segments open.
fn standing_of(trace: u128, open_segments: u32) -> Standing {
    Standing {
        trace: TraceId(trace),
        group: GroupId { node: 0, number: 7 },
        wholeness: Wholeness::Open,
        open_segments,
        horizon: 4,
        pages: 1,
        crumbs: NodeSet::none(),
        losses: NONE_LOST,
    }
}

fn life(epoch: u64) -> Life {
    Life { node: 3, epoch }
}

/// The number of the latest message of a life about trace 9, and how many segments it said to be open.
fn latest(standings: &Standings, epoch: u64) -> Option<(u64, u32)> {
    match standings.latest(TraceId(9), life(epoch)) {
        Some(latest) => Some((latest.number, latest.standing.open_segments)),
        None => None,
    }
}

/// Message 6 counts before and after message 5.
fn the_latest_counts(alloc: Global) -> Result<bool, Memory> {
    let mut standings = Standings::make(alloc, 4);
    let first = standings.note(life(1), 6, standing_of(9, 60))?;
    let earlier = standings.note(life(1), 5, standing_of(9, 50))?;
    let again = standings.note(life(1), 6, standing_of(9, 61))?;
    Ok(
        (first, earlier, again)
            == (
                StandingOutcome::Noted,
                StandingOutcome::Older,
                StandingOutcome::Older,
            )
            && latest(&standings, 1) == Some((6, 60)),
    )
}

/// A later message renews a life, and a later life does not.
fn each_life_has_its_own(alloc: Global) -> Result<bool, Memory> {
    let mut standings = Standings::make(alloc, 4);
    standings.note(life(1), 6, standing_of(9, 60))?;
    standings.note(life(2), 1, standing_of(9, 10))?;
    standings.note(life(1), 7, standing_of(9, 70))?;
    Ok(
        latest(&standings, 1) == Some((7, 70))
            && latest(&standings, 2) == Some((1, 10))
            && standings.len() == 2,
    )
}

/// At the limit one more trace has to wait until another is forgotten.
fn standings_are_bounded(alloc: Global) -> Result<bool, Memory> {
    let mut standings = Standings::make(alloc, 1);
    let first = standings.note(life(1), 6, standing_of(9, 60))?;
    let full = standings.note(life(1), 7, standing_of(8, 70))?;
    standings.forget(TraceId(9));
    let then = standings.note(life(1), 7, standing_of(8, 70))?;
    Ok(
        (first, full, then)
            == (
                StandingOutcome::Noted,
                StandingOutcome::Full,
                StandingOutcome::Noted,
            )
            && latest(&standings, 1).is_none(),
    )
}

/// Notes a trace and forgets it.
fn pass(standings: &mut Standings, trace: u128) -> Result<bool, Memory> {
    let noted = standings.note(life(1), 6, standing_of(trace, 0))?;
    standings.forget(TraceId(trace));
    Ok(noted == StandingOutcome::Noted)
}

/// 50,000 traces, one after another, and nothing is left of them.
fn many_traces_pass(alloc: Global) -> Result<bool, Memory> {
    let mut standings = Standings::make(alloc, 1);
    let mut right = true;
    for trace in 0..50_000u32 {
        right &= pass(&mut standings, u128::from(trace))?;
    }
    Ok(right && standings.len() == 0)
}

#[test]
fn noted_standings(rt: HostRuntime) {
    let alloc = rt.alloc();
    row(&rt, "latest", the_latest_counts(alloc));
    row(&rt, "lives", each_life_has_its_own(alloc));
    row(&rt, "bounds", standings_are_bounded(alloc));
    row(&rt, "many", many_traces_pass(alloc));
}
