//! What a hub says of a node, and of one of its lives.

ghost use Rattle.std.specs.Prelude.{◌≡◌, Some, option_copied};
ghost use Rattle.std.specs.List.{list_any};
ghost use Rattle.hs_standings.specs.Standing.{latest_of};
ghost use Rattle.hs_verdict.specs.Verdict.{asks, still_asks, are_asked, node_word, word_of, life_at};

use crate::asked::claims;
use hs_base::limits::MOST_NODES;
use hs_base::{NodeId, TraceId};
use hs_groups::{FollowedGroup, Groups};
use hs_standings::{Latest, Life, Standings};
use hs_wire::{Losses, Wholeness};

/// What a hub says of a node and a trace.
#[derive(Clone, Copy, Debug, PartialEq, Eq)]
pub enum NodeWord {
    /// No group that claims the trace reached it.
    NotAsked,
    /// It was asked, or told of the trace by itself, and has answered each ask.
    Answered,
    /// It was asked, and has not answered.
    Silent,
}

/// What a hub says of a life of a node and a trace.
#[derive(Clone, Copy, Debug, PartialEq, Eq)]
pub enum LifeWord {
    /// All that it wrote since this horizon came.
    WholeSince(u64),
    /// Something was lost, so much by cause.
    Lost(Losses),
    /// It heard nothing of the trace since this horizon.
    UnheardSince(u64),
    /// It cannot say.
    Unknown,
    /// So many segments are open.
    Open(u32),
    /// It said nothing.
    Silent,
}

/// Whether a group claims the trace and reached the node.
fn asks(followed: &FollowedGroup, trace: TraceId, node: NodeId) -> bool
    ensures { result ≡ asks trace node followed.now }
{
    node.0 < MOST_NODES && followed.asked.contains(node) && claims(followed, trace)
}

/// Whether a group claims the trace and waits for the node's answer.
fn still_asks(followed: &FollowedGroup, trace: TraceId, node: NodeId) -> bool
    ensures { result ≡ still_asks trace node followed.now }
{
    node.0 < MOST_NODES && followed.waiting.contains(node) && claims(followed, trace)
}

/// Whether one of these groups waits for the node's answer.
fn any_waits(groups: &[FollowedGroup], trace: TraceId, node: NodeId) -> bool
    ensures { result ≡ list_any (still_asks trace node) groups.now }
{
    groups
        .iter()
        .any(|followed| still_asks(followed, trace, node))
}

/// Whether one of all groups does.
#[tactic(auto, using(crate::proofs::Slices::any_of_both))]
fn is_silent(groups: &Groups, trace: TraceId, node: NodeId) -> bool
    ensures { result ≡ list_any (still_asks trace node) groups.now.groups }
{
    let (older, newer) = groups.as_slices();
    any_waits(older, trace, node) || any_waits(newer, trace, node)
}

/// Whether one of these groups reached the node.
fn any_asks(groups: &[FollowedGroup], trace: TraceId, node: NodeId) -> bool
    ensures { result ≡ list_any (asks trace node) groups.now }
{
    groups.iter().any(|followed| asks(followed, trace, node))
}

/// Whether one of all groups did.
#[tactic(auto, using(crate::proofs::Slices::any_of_both))]
fn is_asked(groups: &Groups, trace: TraceId, node: NodeId) -> bool
    ensures { result ≡ list_any (asks trace node) groups.now.groups }
{
    let (older, newer) = groups.as_slices();
    any_asks(older, trace, node) || any_asks(newer, trace, node)
}

/// Whether one of the groups that claim a trace has reached the node of each life that spoke of it.
pub(crate) fn are_asked(groups: &Groups, standings: &Standings, trace: TraceId) -> bool
    ensures { result ≡ are_asked groups.now standings.now trace }
{
    let Some(lives) = standings.lives(trace) else {
        return true;
    };
    for (life, _) in lives.iter() {
        if !is_asked(groups, trace, NodeId(life.node)) {
            return false;
        }
    }
    true
}

/// Whether a node was asked for a trace, and answered.
pub fn node_word(groups: &Groups, trace: TraceId, node: NodeId) -> NodeWord
    ensures { result ≡ node_word groups.now trace node }
{
    if is_silent(groups, trace, node) {
        NodeWord::Silent
    } else if is_asked(groups, trace, node) {
        NodeWord::Answered
    } else {
        NodeWord::NotAsked
    }
}

/// What a standing says. One with open segments says that they are open, whatever else it says.
fn word_of(latest: &Latest) -> LifeWord
    ensures { result ≡ word_of (Some latest.now) }
{
    if latest.standing.open_segments > 0 {
        return LifeWord::Open(latest.standing.open_segments);
    }
    match latest.standing.wholeness {
        Wholeness::WholeSince => LifeWord::WholeSince(latest.standing.horizon),
        Wholeness::Lost => LifeWord::Lost(latest.standing.losses),
        Wholeness::UnheardSince => LifeWord::UnheardSince(latest.standing.horizon),
        Wholeness::Unknown => LifeWord::Unknown,
        Wholeness::Open => LifeWord::Open(0),
    }
}

/// What a life said last of a trace.
pub fn life_word(standings: &Standings, trace: TraceId, life: Life) -> LifeWord
    ensures { result ≡ word_of (latest_of standings.now trace life) }
{
    match standings.latest(trace, life) {
        Some(latest) => word_of(latest),
        None => LifeWord::Silent,
    }
}

/// Of the lives that spoke of a trace, the one at this place in the order in which they spoke first.
pub fn life_at(standings: &Standings, trace: TraceId, place: usize) -> Option<Life>
    ensures { result ≡ life_at standings.now trace place }
{
    let lives = standings.lives(trace)?;
    match lives.get_index(place) {
        Some((life, _)) => Some(*life),
        None => None,
    }
}
