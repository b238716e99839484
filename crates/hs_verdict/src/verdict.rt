//! Whether nothing more is to come of a trace, and whether it is whole.

ghost use Rattle.std.specs.Prelude.{◌≡◌};
ghost use Rattle.std.specs.List.{list_all, list_any};
ghost use Rattle.hs_base.specs.NodeSets.{nodes_of};
ghost use Rattle.hs_verdict.specs.Verdict.{claims, is_node_closed, are_nodes_closed, is_answered, claimed_among, has_all, is_page_whole, is_whole};

use crate::asked::claims;
use crate::led::{are_followed, are_known};
use crate::pages::{HeldPages, are_full};
use crate::words::are_asked;
use hs_base::{NodeId, NodeSet, TraceId};
use hs_groups::{FollowedGroup, Groups};
use hs_standings::{Life, Standings};
use hs_traces::PageKey;

/// Whether the latest life of a node is closed to a trace.
fn is_node_closed(groups: &Groups, standings: &Standings, trace: TraceId, node: NodeId) -> bool
    ensures { result ≡ is_node_closed groups.now standings.now trace node }
{
    let life = Life {
        node: node.0,
        epoch: groups.latest(node),
    };
    match standings.latest(trace, life) {
        Some(latest) => latest.is_closed(),
        None => false,
    }
}

/// Whether the latest life of each of these nodes is closed to a trace.
fn are_nodes_closed(groups: &Groups, standings: &Standings, trace: TraceId, nodes: NodeSet) -> bool
    ensures { result ≡ are_nodes_closed groups.now standings.now trace nodes }
{
    let mut rest = nodes;
    while let Some(node) = rest.take_first() {
        if !is_node_closed(groups, standings, trace, node) {
            return false;
        }
    }
    true
}

/// Whether a group does not claim the trace, or each node that it reached answered and is closed to it.
fn is_answered(
    groups: &Groups,
    standings: &Standings,
    trace: TraceId,
    followed: &FollowedGroup,
) -> bool
    ensures { result ≡ is_answered groups.now standings.now trace followed.now }
{
    !claims(followed, trace)
        || followed.waiting.is_empty() && are_nodes_closed(groups, standings, trace, followed.asked)
}

/// Whether nothing more is to come of a trace, as far as the nodes say: a group that is followed claims it, in each such group each node
/// that it reached answered, and its latest life is closed to the trace, and such groups reached each node to which crumbs of it led.
pub fn has_all(groups: &Groups, standings: &Standings, trace: TraceId) -> bool
    ensures { result ≡ has_all groups.now standings.now trace }
{
    let (older, newer) = groups.as_slices();
    let Some(one) = claimed_among(groups, standings, trace, older) else {
        return false;
    };
    let Some(other) = claimed_among(groups, standings, trace, newer) else {
        return false;
    };
    (one || other) && are_followed(groups, standings, trace)
}

/// Whether one of these groups claims the trace. `None` where one does that is not answered.
fn claimed_among(
    groups: &Groups,
    standings: &Standings,
    trace: TraceId,
    some: &[FollowedGroup],
) -> Option<bool>
    ensures { result ≡ claimed_among groups.now standings.now trace some.now }
{
    let mut claimed = false;
    for followed in some.iter() {
        if claims(followed, trace) {
            if !is_answered(groups, standings, trace, followed) {
                return None;
            }
            claimed = true;
        }
    }
    Some(claimed)
}

/// Whether the life that wrote a page says that its part of the trace is whole.
fn is_page_whole(standings: &Standings, trace: TraceId, page: PageKey) -> bool
    ensures { result ≡ is_page_whole standings.now trace page }
{
    let life = Life {
        node: page.node,
        epoch: page.epoch,
    };
    match standings.latest(trace, life) {
        Some(latest) => latest.says_whole(),
        None => false,
    }
}

/// Whether the life of each of these pages says so.
fn are_pages_whole(standings: &Standings, trace: TraceId, pages: &[PageKey]) -> bool
    ensures { result ≡ list_all (is_page_whole standings.now trace) pages.now }
{
    pages
        .iter()
        .all(|page| is_page_whole(standings, trace, *page))
}

/// Whether a trace with these pages is whole: there is one, nothing more is to come of it, each life that spoke of it is closed to it and of
/// a node that was asked, no node to which crumbs of it led may have forgotten it, these are all pages that lives say they handed out, and
/// each life that wrote one says that its part is whole.
pub fn is_whole(groups: &Groups, standings: &Standings, trace: TraceId, pages: &[PageKey]) -> bool
    ensures { result ≡ is_whole groups.now standings.now trace pages.now }
{
    !pages.is_empty()
        && has_all(groups, standings, trace)
        && standings.are_closed(trace)
        && are_asked(groups, standings, trace)
        && are_known(groups, standings, trace)
        && are_full(standings, trace, &HeldPages::Out(pages))
        && are_pages_whole(standings, trace, pages)
}
