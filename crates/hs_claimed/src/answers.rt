//! What the calls take and answer.

use hs_base::{Group, GroupId, NodeSet, TraceId};
use hs_wire::Standing;

/// A trace that a group claims, with the standing that was said of it last, if one was.
#[derive(Clone, Copy, Debug, PartialEq, Eq)]
pub struct StatedClaim {
    pub group: GroupId,
    pub trace: TraceId,
    pub said: Option<Standing>,
}

/// A group that claims traces: how many, the greatest number of a message that speaks of it, if one does, and the nodes that such messages
/// named to the hub.
#[derive(Clone, Copy, Debug, PartialEq, Eq)]
pub struct Claimant {
    pub group: Group,
    pub traces: u32,
    pub last: Option<u64>,
    pub told: NodeSet,
}

/// What became of a group that claims traces.
#[derive(Clone, Copy, Debug, PartialEq, Eq)]
pub enum ClaimOutcome {
    /// Each of its traces is claimed from now on.
    Claimed,
    /// It claims some already.
    Known,
    /// There are more traces than free places.
    Full,
}
