//! From which pass on the lives of nodes are sure, and whether those of a trace are.

ghost use Rattle.std.specs.Prelude.{◌≡◌, IfOk};
ghost use Rattle.std.specs.List.{list_all};
ghost use Rattle.hs_base.specs.NodeSets.{nodes_of};
ghost use Rattle.hs_hub.specs.Births.{no_births, with_birth, is_sure, are_nodes_sure, is_group_sure, are_sure};

use hs_base::{Memory, NodeId, NodeSet, TraceId};
use hs_groups::{FollowedGroup, Groups, LifeHeard};
use hs_verdict::claims;
use std::alloc::Global;

/// Before a life of a node was heard.
pub(crate) fn no_births(alloc: Global, nodes: u16, is_fresh: bool) -> Result<Vec<u64>, Memory>
    ensures { IfOk result (λ births. births.items ≡ no_births nodes is_fresh) }
{
    let first = if is_fresh { 0 } else { u64::MAX };
    Ok(vec![in alloc; first; nodes as usize]?)
}

/// Notes from which pass on a life is sure, if it is newer than all that were heard of its node.
pub(crate) fn note_birth(births: &mut [u64], heard: LifeHeard, node: NodeId, birth: u64)
    ensures { births.new ≡ with_birth heard node birth births.old }
{
    match heard {
        LifeHeard::Newer => set_birth(births, node, birth),
        LifeHeard::Known | LifeHeard::Refused => {}
    }
}

/// Notes from which pass on the latest life of a node is sure.
fn set_birth(births: &mut [u64], node: NodeId, birth: u64)
    ensures { births.new ≡ with_birth LifeHeard.Newer node birth births.old }
{
    if (node.0 as usize) < births.len() {
        births[node.0 as usize] = birth;
    }
}

/// Whether the latest life of a node was sure in this pass.
fn is_sure(births: &[u64], since: u64, node: NodeId) -> bool
    ensures { result ≡ is_sure births.now since node.0 }
{
    match births.get(node.0 as usize) {
        Some(birth) => *birth <= since,
        None => false,
    }
}

/// Whether the latest life of each of these nodes was.
fn are_nodes_sure(births: &[u64], since: u64, nodes: NodeSet) -> bool
    ensures { result ≡ are_nodes_sure births.now since nodes }
{
    let mut rest = nodes;
    while let Some(node) = rest.take_first() {
        if !is_sure(births, since, node) {
            return false;
        }
    }
    true
}

/// Whether a group does not claim the trace, or each node that it reached was sure.
fn is_group_sure(births: &[u64], since: u64, trace: TraceId, followed: &FollowedGroup) -> bool
    ensures { result ≡ is_group_sure births.now since trace followed.now }
{
    !claims(followed, trace) || are_nodes_sure(births, since, followed.asked)
}

/// Whether that is so of each of these groups.
fn among_sure(births: &[u64], since: u64, trace: TraceId, some: &[FollowedGroup]) -> bool
    ensures { result ≡ are_sure births.now since trace some.now }
{
    some.iter()
        .all(|followed| is_group_sure(births, since, trace, followed))
}

/// Whether the latest life of each node that a group which claims a trace reached was sure in this pass.
#[tactic(auto, using(crate::proofs::Slices::all_of_both))]
pub(crate) fn are_sure(births: &[u64], since: u64, trace: TraceId, groups: &Groups) -> bool
    ensures { result ≡ are_sure births.now since trace groups.now.groups }
{
    let (older, newer) = groups.as_slices();
    among_sure(births, since, trace, older) && among_sure(births, since, trace, newer)
}
