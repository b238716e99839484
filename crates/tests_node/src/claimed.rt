//! The claims of a node with four places: groups that claim all their traces or none, what is said of each, and which group is forgotten.

use crate::rows::row;
use hs_base::{Group, GroupId, Laterals, Memory, NodeId, NodeSet, TraceId, TriggerId};
use hs_claimed::{ClaimOutcome, Claimant, ClaimedTraces};
use hs_wire::{Losses, Standing, Wholeness};
use std::alloc::Global;

const ONE: GroupId = GroupId { node: 3, number: 1 };

const TWO: GroupId = GroupId { node: 9, number: 2 };

const SEVEN: TraceId = TraceId(7);

const EIGHT: TraceId = TraceId(8);

const NINE: TraceId = TraceId(9);

/// Two laterals, of which the second stands there twice.
fn laterals(first: TraceId, second: TraceId) -> Laterals {
    let mut laterals = Laterals::none();
    laterals.push(first);
    laterals.push(second);
    laterals.push(second);
    laterals
}

/// How a node stands to a trace, of which so many pages were handed out.
fn standing(group: GroupId, trace: TraceId, horizon: u64, pages: u64) -> Standing {
    Standing {
        trace,
        group,
        wholeness: Wholeness::Unknown,
        open_segments: 0,
        horizon,
        pages,
        crumbs: NodeSet::none(),
        losses: Losses {
            null_pages: 0,
            full_points: 0,
            dry_points: 0,
            long_points: 0,
            refused_crumbs: 0,
            evicted_crumbs: 0,
            forgotten_crumbs: 0,
            evicted_pages: 0,
            abandoned_pages: 0,
        },
    }
}

/// The group of this id, of trigger id 1, with this lead.
fn led(id: GroupId, lead: TraceId) -> Group {
    Group {
        id,
        trigger: TriggerId(1),
        lead,
    }
}

/// Group 1 claims trace 7 and its laterals 8 and 9, of four that may be claimed.
fn three(alloc: Global) -> Result<ClaimedTraces, Memory> {
    let mut claims = ClaimedTraces::make(alloc, 4)?;
    claims.claim(led(ONE, SEVEN), &laterals(EIGHT, NINE));
    Ok(claims)
}

/// Whether this trace of this group is looked at.
fn is_at(claims: &ClaimedTraces, group: GroupId, trace: TraceId) -> bool {
    match claims.current() {
        Some(claim) => claim.group == group && claim.trace == trace,
        None => false,
    }
}

/// Each trace once; a group that is known changes nothing; two traces find no place where one is free, and one does.
fn all_or_none(alloc: Global) -> Result<bool, Memory> {
    let mut claims = three(alloc)?;
    let once = claims.len() == 3 && claims.free() == 1;
    let known = claims.claim(led(ONE, EIGHT), &Laterals::none());
    let full = claims.claim(led(TWO, SEVEN), &laterals(SEVEN, EIGHT));
    let same = claims.len() == 3 && !claims.is_known(TWO);
    let claimed = claims.claim(led(TWO, SEVEN), &laterals(SEVEN, SEVEN));
    Ok(
        once && known == ClaimOutcome::Known
            && full == ClaimOutcome::Full
            && same
            && claimed == ClaimOutcome::Claimed
            && claims.free() == 0
            && claims.is_known(TWO),
    )
}

/// The claims are looked at in order, and the first comes again.
fn a_round(alloc: Global) -> Result<bool, Memory> {
    let mut claims = three(alloc)?;
    let first = is_at(&claims, ONE, SEVEN);
    claims.advance();
    let second = is_at(&claims, ONE, EIGHT);
    claims.advance();
    let third = is_at(&claims, ONE, NINE);
    claims.advance();
    Ok(first && second && third && is_at(&claims, ONE, SEVEN))
}

/// A standing is said once. Another horizon is no news, nor is a trace that was forgotten; another count of pages is, and a crumb; another trace
/// is not looked at.
fn said_once(alloc: Global) -> Result<bool, Memory> {
    let mut claims = three(alloc)?;
    let first = claims.said(&standing(ONE, SEVEN, 0, 1), 5);
    let again = claims.said(&standing(ONE, SEVEN, 0, 1), 6);
    let moved = claims.is_news(&standing(ONE, SEVEN, 9, 1));
    let more = claims.is_news(&standing(ONE, SEVEN, 0, 2));
    let led = claims.is_news(&Standing {
        crumbs: NodeSet::only(NodeId(2)),
        ..standing(ONE, SEVEN, 0, 1)
    });
    let forgotten = claims.is_news(&Standing {
        wholeness: Wholeness::UnheardSince,
        ..standing(ONE, SEVEN, 9, 0)
    });
    let elsewhere = claims.said(&standing(ONE, EIGHT, 0, 1), 7);
    let stranger = claims.is_news(&standing(TWO, SEVEN, 0, 2));
    Ok(first && !again && !moved && more && led && !forgotten && !elsewhere && !stranger)
}

/// Whether this group claimed first, with so many traces and this last message.
fn is_oldest(claims: &ClaimedTraces, group: GroupId, traces: u32, last: Option<u64>) -> bool {
    claims.oldest()
        == Some(Claimant {
            group: led(group, SEVEN),
            traces,
            last,
            told: NodeSet(0),
        })
}

/// The greatest number of a message counts, by whatever call it came.
fn last_message(alloc: Global) -> Result<bool, Memory> {
    let mut claims = three(alloc)?;
    let none = is_oldest(&claims, ONE, 3, None);
    claims.spoke(ONE, u64::MAX - 1);
    claims.said(&standing(ONE, SEVEN, 0, 1), 5);
    let stranger = claims.spoke(TWO, 6);
    Ok(none && !stranger && is_oldest(&claims, ONE, 3, Some(u64::MAX - 1)))
}

/// Messages named the nodes 0 and 2 for group 1, and node 1 for group 2. Both claim trace 7, and group 1 alone trace 8.
fn named(alloc: Global) -> Result<ClaimedTraces, Memory> {
    let mut claims = three(alloc)?;
    claims.claim(led(TWO, SEVEN), &Laterals::none());
    claims.named(ONE, NodeSet(1), 3);
    claims.named(ONE, NodeSet(4), 4);
    claims.named(TWO, NodeSet(2), 5);
    Ok(claims)
}

fn told(alloc: Global) -> Result<bool, Memory> {
    let mut claims = named(alloc)?;
    let both = claims.told_for(SEVEN);
    let one = claims.told_for(EIGHT);
    let none = claims.told_for(TraceId(1));
    claims.forget_oldest();
    let left = claims.told_for(SEVEN);
    Ok(
        both == NodeSet(7)
            && one == NodeSet(5)
            && none == NodeSet(0)
            && left == NodeSet(2)
            && !claims.named(ONE, NodeSet(8), 6),
    )
}

/// The group that claimed first goes with its three traces. The claim that is looked at stays, and then the first one is looked at.
fn forgotten(alloc: Global) -> Result<bool, Memory> {
    let mut claims = three(alloc)?;
    claims.claim(led(TWO, SEVEN), &Laterals::none());
    let above = claims.is_above(3) && !claims.is_above(4);
    claims.advance();
    claims.advance();
    claims.advance();
    let at = is_at(&claims, TWO, SEVEN);
    claims.forget_oldest();
    let left = is_at(&claims, TWO, SEVEN) && claims.len() == 1 && !claims.is_known(ONE);
    let next = is_oldest(&claims, TWO, 1, None);
    claims.forget_oldest();
    claims.forget_oldest();
    Ok(above && at && left && next && claims.current().is_none() && claims.oldest().is_none())
}

/// As many traces as a group may name, and no place at all.
fn at_limits(alloc: Global) -> Result<bool, Memory> {
    let mut none = ClaimedTraces::make(alloc, 0)?;
    let refused = none.claim(led(ONE, SEVEN), &Laterals::none());
    let mut most = ClaimedTraces::make(alloc, 33)?;
    let claimed = most.claim(led(ONE, TraceId(u128::MAX)), &thirty_two());
    most.advance();
    Ok(
        refused == ClaimOutcome::Full
            && none.oldest().is_none()
            && claimed == ClaimOutcome::Claimed
            && most.free() == 0
            && is_at(&most, ONE, TraceId(0)),
    )
}

/// The traces from 0 to 31.
fn thirty_two() -> Laterals {
    let mut laterals = Laterals::none();
    for number in 0..32u32 {
        laterals.push(TraceId(u128::from(number)));
    }
    laterals
}

#[test]
fn claims(rt: HostRuntime) {
    row(&rt, "all or none", all_or_none(rt.alloc()));
    row(&rt, "a round", a_round(rt.alloc()));
    row(&rt, "said once", said_once(rt.alloc()));
    row(&rt, "last message", last_message(rt.alloc()));
    row(&rt, "told", told(rt.alloc()));
    row(&rt, "forgotten", forgotten(rt.alloc()));
    row(&rt, "at limits", at_limits(rt.alloc()));
}
