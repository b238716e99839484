//! Which groups claim a trace.

ghost use Rattle.std.specs.Prelude.{◌≡◌, length, filter, slice_get, option_copied};
ghost use Rattle.std.specs.List.{list_any};
ghost use Rattle.hs_base.specs.Ids.{same_trace};
ghost use Rattle.hs_verdict.specs.Verdict.{claims, claim_at};

use hs_base::{Laterals, TraceId};
use hs_groups::{FollowedGroup, Groups};

/// Whether a group claims a trace: as its lead or as a lateral.
pub fn claims(followed: &FollowedGroup, trace: TraceId) -> bool
    ensures { result ≡ claims trace followed.now }
{
    trace == followed.ask.group.lead || is_among(&followed.ask.laterals, trace)
}

/// How many of these groups claim a trace.
fn count_claims(groups: &[FollowedGroup], trace: TraceId) -> usize
    ensures { result ≡ length (filter (claims trace) groups.now) }
{
    groups
        .iter()
        .filter(|followed| claims(followed, trace))
        .count()
}

/// Of the groups that claim a trace, the oldest one first, the one at this place.
pub fn claim_at(groups: &Groups, trace: TraceId, place: usize) -> Option<&FollowedGroup>
    ensures { option_copied result ≡ claim_at groups.now trace place }
{
    let (older, newer) = groups.as_slices();
    let count = count_claims(older, trace);
    if place < count {
        claim_among(older, trace, place)
    } else {
        claim_among(newer, trace, place - count)
    }
}

/// Of these groups those that claim a trace, and of them the one at this place.
fn claim_among(groups: &[FollowedGroup], trace: TraceId, place: usize) -> Option<&FollowedGroup>
    ensures { option_copied result ≡ slice_get (filter (claims trace) groups.now) place }
{
    let mut left = place;
    for followed in groups.iter() {
        if claims(followed, trace) {
            if left == 0 {
                return Some(followed);
            }
            left -= 1;
        }
    }
    None
}

/// Whether a trace is among these.
fn is_among(laterals: &Laterals, trace: TraceId) -> bool
    ensures { result ≡ list_any (same_trace trace) laterals.now }
{
    for place in 0..laterals.len() {
        if Some(trace) == laterals.get(place) {
            return true;
        }
    }
    false
}
