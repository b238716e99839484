//! What clients, agents and the coordinator tell each other, and the fates of records.

use crate::ids::{GroupId, NodeId, Rank, TraceId, TriggerId};
use crate::laterals::Laterals;
use crate::node_set::NodeSet;

/// An admitted trigger. Its lead and laterals are what it claims.
#[derive(Clone, Copy, Debug, PartialEq, Eq)]
pub struct Group {
    pub id: GroupId,
    pub trigger: TriggerId,
    pub lead: TraceId,
}

/// A hint that a trace went on to a node.
#[derive(Clone, Copy, PartialEq, Eq)]
pub struct Crumb {
    pub trace: TraceId,
    pub node: NodeId,
}

/// A trigger as a client sends it. The moment is in microseconds.
#[derive(Clone, Copy, PartialEq, Eq)]
pub struct Trigger {
    pub moment: u64,
    pub trigger: TriggerId,
    pub lead: TraceId,
    pub laterals: Laterals,
}

/// What the coordinator asks an agent: to claim the group's lead and laterals.
#[derive(Clone, Copy, PartialEq, Eq)]
pub struct Ask {
    pub group: Group,
    pub laterals: Laterals,
}

/// Why an agent tells the coordinator of a group.
#[derive(Clone, Copy, Debug, PartialEq, Eq)]
pub enum Why {
    /// It admitted the group's trigger.
    Fired,
    /// It was asked.
    Answer,
    /// A crumb to a further node came for a trace that was claimed already.
    Late,
}

/// What an agent tells the coordinator: a group and the nodes to which crumbs of its traces lead.
#[derive(Clone, Copy)]
pub struct Told {
    pub group: Group,
    pub laterals: Laterals,
    pub crumbs: NodeSet,
    pub why: Why,
}

/// What became of a record (`docs/RULES.md`, "Fates").
#[derive(Clone, Copy, Debug, PartialEq, Eq)]
pub enum Fate {
    /// Its client found the pool empty at the draw with this stamp.
    Null {
        stamp: u64,
    },
    /// It still stands in its node's index.
    Live,
    /// It was reported for a group of this trigger and lead.
    Reported {
        trigger: TriggerId,
        lead: TraceId,
    },
    /// It was evicted where so many chunks and traces were indexed.
    Evicted {
        chunks: u32,
        traces: u32,
    },
    /// Its group, of this trigger, lead and rank, was abandoned.
    Abandoned {
        trigger: TriggerId,
        lead: TraceId,
        rank: Rank,
    },
}
