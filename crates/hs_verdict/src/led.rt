//! Whether it is known where a trace went on.

ghost use Rattle.std.specs.Prelude.{◌≡◌, fold};
ghost use Rattle.std.specs.List.{list_all};
ghost use Rattle.hs_base.specs.NodeSets.{nodes_of, no_nodes};
ghost use Rattle.hs_verdict.specs.Verdict.{with_reached, reached, leads_within, are_followed, is_node_known, leads_to_known, are_known};

use crate::asked::claims;
use hs_base::{NodeId, NodeSet, TraceId};
use hs_groups::{FollowedGroup, Groups};
use hs_standings::{Latest, Life, Standings};

/// These nodes, and those that these groups reached which claim a trace.
fn with_reached(groups: &[FollowedGroup], trace: TraceId, nodes: NodeSet) -> NodeSet
    ensures { result ≡ fold (with_reached trace) nodes groups.now }
{
    let mut nodes = nodes;
    for followed in groups.iter() {
        if claims(followed, trace) {
            nodes = nodes.union(followed.asked);
        }
    }
    nodes
}

/// The nodes that groups reached which claim a trace.
fn reached(groups: &Groups, trace: TraceId) -> NodeSet
    ensures { result ≡ reached groups.now trace }
{
    let (older, newer) = groups.as_slices();
    with_reached(newer, trace, with_reached(older, trace, NodeSet::none()))
}

/// Whether each node to which a life says that crumbs of the trace led is among these.
fn leads_within(nodes: NodeSet, latest: &Latest, life: Life) -> bool
    ensures { result ≡ leads_within nodes (life, latest.now) }
{
    latest.standing.crumbs.union(nodes).0 == nodes.0
}

/// Whether groups that claim a trace reached each node to which lives say that crumbs of it led.
pub(crate) fn are_followed(groups: &Groups, standings: &Standings, trace: TraceId) -> bool
    ensures { result ≡ are_followed groups.now standings.now trace }
{
    let Some(lives) = standings.lives(trace) else {
        return true;
    };
    let nodes = reached(groups, trace);
    for (life, latest) in lives.iter() {
        if !leads_within(nodes, latest, *life) {
            return false;
        }
    }
    true
}

/// Whether the latest life of a node is closed to a trace, and has notes of it if it ever had any.
fn is_node_known(groups: &Groups, standings: &Standings, trace: TraceId, node: NodeId) -> bool
    ensures { result ≡ is_node_known groups.now standings.now trace node }
{
    let life = Life {
        node: node.0,
        epoch: groups.latest(node),
    };
    match standings.latest(trace, life) {
        Some(latest) => latest.knows_all(),
        None => false,
    }
}

/// Whether that holds of each node to which a life says that crumbs of the trace led.
fn leads_to_known(groups: &Groups, standings: &Standings, trace: TraceId, nodes: NodeSet) -> bool
    ensures { result ≡ list_all (λ node. is_node_known groups.now standings.now trace (record { 0 = node })) (nodes_of nodes) }
{
    let mut rest = nodes;
    while let Some(node) = rest.take_first() {
        if !is_node_known(groups, standings, trace, node) {
            return false;
        }
    }
    true
}

/// Whether it holds of each node to which lives say that crumbs of a trace led.
pub(crate) fn are_known(groups: &Groups, standings: &Standings, trace: TraceId) -> bool
    ensures { result ≡ are_known groups.now standings.now trace }
{
    let Some(lives) = standings.lives(trace) else {
        return true;
    };
    for (_, latest) in lives.iter() {
        if !leads_to_known(groups, standings, trace, latest.standing.crumbs) {
            return false;
        }
    }
    true
}
