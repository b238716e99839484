//! A coordinator of as many nodes as may be, over many groups. What it asks is shown by `examples/` and `cases/lawful`.

ghost use Rattle.std.specs.Prelude.{◌≡◌, ◌<◌, ◌≤◌, OnOk};

use crate::rows::row;
use hs_base::limits::MOST_NODES;
use hs_base::{Group, GroupId, Laterals, Memory, NodeId, NodeSet, Told, TraceId, TriggerId, Why};
use hs_coord::Coordinator;
use std::alloc::Global;

/// How many groups there are.
const GROUPS: u32 = 50_000;

/// A group that node 0 admitted, with the lead that this node names for it.
fn group_of(number: u32, node: u16) -> Group {
    Group {
        id: GroupId { node: 0, number },
        trigger: TriggerId(1),
        lead: TraceId(100 + u128::from(node)),
    }
}

/// A node tells of a group, with a crumb to node 127. Answers who is asked, and whether the ask has the lead that node 0 named.
fn tell(
    coordinator: &mut Coordinator,
    number: u32,
    node: u16,
    why: Why,
) -> Result<(NodeSet, bool), Memory>
    requires nodes { coordinator.old.nodes ≡ MOST_NODES }
    requires node { node < MOST_NODES }
    ensures { OnOk result (coordinator.new.nodes ≡ MOST_NODES) }
{
    let told = Told {
        group: group_of(number, node),
        laterals: Laterals::none(),
        crumbs: NodeSet::only(NodeId(127)),
        why,
    };
    let asks = coordinator.step(NodeId(node), told)?;
    Ok((asks.to, asks.ask.group.lead == TraceId(100)))
}

/// Node 0 tells of a group, so node 127 is asked and its answer is waited for; then that one does, so nobody is asked. The ask is as
/// node 0 made it.
fn tell_twice(coordinator: &mut Coordinator, number: u32) -> Result<bool, Memory>
    requires { coordinator.old.nodes ≡ MOST_NODES }
    ensures { OnOk result (coordinator.new.nodes ≡ MOST_NODES) }
{
    let fired = tell(coordinator, number, 0, Why::Fired)?;
    let is_settled = coordinator.settled();
    let answer = tell(coordinator, number, 127, Why::Answer)?;
    Ok(fired == (NodeSet(1 << 127), true) && !is_settled && answer == (NodeSet::none(), true))
}

/// Tells so of all groups. Answers whether each is asked for so.
fn tell_all(coordinator: &mut Coordinator) -> Result<bool, Memory>
    requires { coordinator.old.nodes ≡ MOST_NODES }
{
    let mut right = true;
    for number in 0..GROUPS {
        right &= tell_twice(coordinator, number)?;
    }
    Ok(right)
}

/// What is known in the end: all is settled, and both nodes know of the last group, and none of one more.
fn knows_all(coordinator: &Coordinator) -> bool {
    let last = group_of(GROUPS - 1, 0).id;
    coordinator.settled()
        && coordinator.log().len() == 2 * GROUPS as usize
        && coordinator.asked(last) == Some(NodeSet(1 << 127 | 1))
        && coordinator.asked(group_of(GROUPS, 0).id).is_none()
}

/// 50,000 groups, each told of by the first node and answered by the last.
fn many_groups(alloc: Global) -> Result<bool, Memory> {
    let mut coordinator = Coordinator::make(alloc, MOST_NODES)?;
    let right = tell_all(&mut coordinator)?;
    Ok(right && knows_all(&coordinator))
}

#[test]
fn coordinators(rt: HostRuntime) {
    row(&rt, "many groups", many_groups(rt.alloc()));
}
