//! Which trace may be given out.

ghost use Rattle.std.specs.Prelude.{◌≡◌, ◌∷◌, find};
ghost use Rattle.hs_hub.specs.Ready.{is_ready, traces_of, ready_of, first_ready};

use hs_base::{Laterals, TraceId};
use hs_groups::{FollowedGroup, Groups};
use hs_standings::Standings;
use hs_traces::Traces;
use hs_verdict::{HeldPages, are_full, has_all};

/// Whether pages of a trace wait, all that lives say they handed out, and nothing more is to come of it.
fn is_ready(groups: &Groups, standings: &Standings, traces: &Traces, trace: TraceId) -> bool
    ensures { result ≡ is_ready groups.now standings.now traces.now trace }
{
    traces.waits(trace)
        && are_full(standings, trace, &HeldPages::Waiting(traces))
        && has_all(groups, standings, trace)
}

/// The first of these traces that is ready.
fn ready_lateral(
    groups: &Groups,
    standings: &Standings,
    traces: &Traces,
    laterals: &Laterals,
) -> Option<TraceId>
    ensures { result ≡ find (is_ready groups.now standings.now traces.now) laterals.now }
{
    for place in 0..laterals.len() {
        let Some(trace) = laterals.get(place) else {
            return None;
        };
        if is_ready(groups, standings, traces, trace) {
            return Some(trace);
        }
    }
    None
}

/// The first trace of a group that is ready: its lead, or the first such lateral. None of a group is that waits for an answer.
fn ready_of(
    groups: &Groups,
    standings: &Standings,
    traces: &Traces,
    followed: &FollowedGroup,
) -> Option<TraceId>
    ensures { result ≡ ready_of groups.now standings.now traces.now followed.now }
{
    if !followed.waiting.is_empty() {
        return None;
    }
    if is_ready(groups, standings, traces, followed.ask.group.lead) {
        return Some(followed.ask.group.lead);
    }
    ready_lateral(groups, standings, traces, &followed.ask.laterals)
}

/// The first trace that is ready of the oldest group that has one.
pub(crate) fn first_ready(
    groups: &Groups,
    standings: &Standings,
    traces: &Traces,
) -> Option<TraceId>
    ensures { result ≡ first_ready groups.now standings.now traces.now groups.now.groups }
{
    let (older, newer) = groups.as_slices();
    match ready_among(groups, standings, traces, older) {
        Some(trace) => Some(trace),
        None => ready_among(groups, standings, traces, newer),
    }
}

/// The first trace that is ready of the first of these groups that has one.
fn ready_among(
    groups: &Groups,
    standings: &Standings,
    traces: &Traces,
    some: &[FollowedGroup],
) -> Option<TraceId>
    ensures { result ≡ first_ready groups.now standings.now traces.now some.now }
{
    for followed in some.iter() {
        if let Some(trace) = ready_of(groups, standings, traces, followed) {
            return Some(trace);
        }
    }
    None
}
