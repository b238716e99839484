//! Crumbs and answers over lives of nodes, asks that are sent again, and more groups than may be followed.

use crate::rows::row;
use hs_base::{Group, GroupId, Laterals, Memory, NodeId, NodeSet, Told, TraceId, TriggerId, Why};
use hs_groups::{GroupLimits, Groups, LifeHeard, MakeFault, ToldOutcome};
use std::alloc::Global;

/// Four nodes, two groups, and each ask is sent once more.
const LIMITS: GroupLimits = GroupLimits {
    nodes: 4,
    groups: 2,
    tries: 1,
};

fn id_of(number: u32) -> GroupId {
    GroupId { node: 0, number }
}

/// What is told of a group of node 0, with crumbs to these nodes.
fn told_of(number: u32, crumbs: u128, why: Why) -> Told {
    Told {
        group: Group {
            id: id_of(number),
            trigger: TriggerId(1),
            lead: TraceId(100),
        },
        laterals: Laterals::none(),
        crumbs: NodeSet(crumbs),
        why,
    }
}

fn made(alloc: Global, limits: GroupLimits) -> Result<Groups, Memory> {
    match Groups::make(alloc, limits) {
        Ok(groups) => Ok(groups),
        Err(_) => Err(Memory),
    }
}

/// What becomes of a message in which a node tells of group 7 in a life.
fn tell(groups: &mut Groups, node: u16, epoch: u64, crumbs: u128, why: Why) -> ToldOutcome {
    groups.told(NodeId(node), epoch, &told_of(7, crumbs, why))
}

/// Sends all asks in a pass, and answers the nodes that they go to.
fn send(groups: &mut Groups, now: u64) -> u128 {
    let mut nodes = NodeSet::none();
    for _ask in 0..200 {
        let Some((node, ask)) = groups.next_ask() else {
            return nodes.0;
        };
        groups.sent(node, ask.group.id, now);
        if node.0 < 128 {
            nodes = nodes.with(node);
        }
    }
    u128::MAX
}

/// The nodes whose asks for group 7 wait.
fn waiting(groups: &Groups) -> Option<u128> {
    match groups.group(id_of(7)) {
        Some(followed) => Some(followed.waiting.0),
        None => None,
    }
}

/// More than 128 nodes, or no group.
fn limits_are_refused(alloc: Global) -> Result<bool, Memory> {
    let nodes = GroupLimits {
        nodes: 129,
        ..LIMITS
    };
    let groups = GroupLimits {
        groups: 0,
        ..LIMITS
    };
    Ok(is_refused(alloc, nodes) && is_refused(alloc, groups))
}

fn is_refused(alloc: Global, limits: GroupLimits) -> bool {
    matches!(Groups::make(alloc, limits), Err(MakeFault::Limits))
}

/// Node 0's crumb leads to node 1, and its to node 2 and back. Each is asked once.
fn crumbs_are_followed(alloc: Global) -> Result<bool, Memory> {
    let mut groups = made(alloc, LIMITS)?;
    tell(&mut groups, 0, 5, 2, Why::Fired);
    let first = send(&mut groups, 1);
    tell(&mut groups, 1, 3, 5, Why::Answer);
    let second = send(&mut groups, 2);
    tell(&mut groups, 2, 0, 0, Why::Answer);
    Ok((first, second, send(&mut groups, 3)) == (2, 4, 0) && waiting(&groups) == Some(0))
}

/// There is no node 4.
fn strangers_are_refused(alloc: Global) -> Result<bool, Memory> {
    let mut groups = made(alloc, LIMITS)?;
    let node = tell(&mut groups, 4, 5, 0, Why::Fired);
    let crumb = tell(&mut groups, 0, 5, 16, Why::Fired);
    let heard = groups.hear(NodeId(4), 1);
    Ok(
        (node, crumb, heard)
            == (
                ToldOutcome::Refused,
                ToldOutcome::Refused,
                LifeHeard::Refused,
            )
            && groups.len() == 0,
    )
}

/// Node 1 begins life 9 before life 8 answers: it is asked again, and only life 9 settles it.
fn an_earlier_life_settles_nothing(alloc: Global) -> Result<bool, Memory> {
    let mut groups = made(alloc, LIMITS)?;
    tell(&mut groups, 0, 5, 2, Why::Fired);
    let first = send(&mut groups, 1);
    let newer = groups.hear(NodeId(1), 9);
    let earlier = tell(&mut groups, 1, 8, 0, Why::Answer);
    let open = (waiting(&groups), send(&mut groups, 2));
    let latest = tell(&mut groups, 1, 9, 0, Why::Answer);
    let settled = (waiting(&groups), send(&mut groups, 3));
    Ok(
        (first, newer, earlier) == (2, LifeHeard::Newer, ToldOutcome::Taken(LifeHeard::Known))
            && latest == ToldOutcome::Taken(LifeHeard::Known)
            && (open, settled) == ((Some(2), 2), (Some(0), 0)),
    )
}

/// A message of a newer life has that life's node asked again for what waits.
fn a_message_of_a_newer_life(alloc: Global) -> Result<bool, Memory> {
    let mut groups = made(alloc, LIMITS)?;
    tell(&mut groups, 0, 5, 2, Why::Fired);
    groups.hear(NodeId(1), 3);
    let first = send(&mut groups, 1);
    let late = tell(&mut groups, 1, 4, 0, Why::Late);
    Ok(
        (first, late, send(&mut groups, 2)) == (2, ToldOutcome::Taken(LifeHeard::Newer), 2)
            && groups.latest(NodeId(1)) == 4,
    )
}

/// An ask that was sent in pass 10 is sent again after five passes, and then no more.
fn asks_are_sent_again(alloc: Global) -> Result<bool, Memory> {
    let mut groups = made(alloc, LIMITS)?;
    tell(&mut groups, 0, 5, 6, Why::Fired);
    let both = send(&mut groups, 10);
    tell(&mut groups, 2, 1, 0, Why::Answer);
    groups.pass(14, 5);
    let early = send(&mut groups, 14);
    groups.pass(15, 5);
    let again = send(&mut groups, 15);
    groups.pass(99, 5);
    Ok((both, early, again, send(&mut groups, 99)) == (6, 0, 2, 0))
}

/// Whether a message of a group with a crumb to node 1 is refused since as many are followed as may be.
fn is_full(groups: &mut Groups, number: u32) -> bool {
    groups.told(NodeId(0), 5, &told_of(number, 2, Why::Fired)) == ToldOutcome::Full
}

/// A third group waits until the oldest is settled, and that is forgotten.
fn groups_are_bounded(alloc: Global) -> Result<bool, Memory> {
    let mut groups = made(alloc, LIMITS)?;
    let two = (is_full(&mut groups, 7), is_full(&mut groups, 8));
    let third = is_full(&mut groups, 9);
    tell(&mut groups, 1, 3, 0, Why::Answer);
    let then = is_full(&mut groups, 9);
    Ok(two == (false, false) && third && !then && waiting(&groups).is_none() && groups.len() == 2)
}

/// 50,000 groups that are settled at once, of which the last two are still known.
fn many_groups_pass(alloc: Global) -> Result<bool, Memory> {
    let mut groups = made(alloc, LIMITS)?;
    let mut right = true;
    for number in 0..50_000 {
        right &= groups.told(NodeId(0), 5, &told_of(number, 0, Why::Fired)) != ToldOutcome::Full;
    }
    Ok(right && groups.len() == 2 && groups.group(id_of(49_998)).is_some())
}

#[test]
fn followed_groups(rt: HostRuntime) {
    let alloc = rt.alloc();
    row(&rt, "limits", limits_are_refused(alloc));
    row(&rt, "crumbs", crumbs_are_followed(alloc));
    row(&rt, "strangers", strangers_are_refused(alloc));
    row(&rt, "lives", an_earlier_life_settles_nothing(alloc));
    row(&rt, "newer", a_message_of_a_newer_life(alloc));
    row(&rt, "again", asks_are_sent_again(alloc));
    row(&rt, "bounds", groups_are_bounded(alloc));
    row(&rt, "many", many_groups_pass(alloc));
}
