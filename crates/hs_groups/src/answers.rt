//! What the calls take and answer.

use thiserror::Error;

/// How much is followed.
#[derive(Clone, Copy, Debug, PartialEq, Eq)]
pub struct GroupLimits {
    /// Nodes are below this.
    pub nodes: u16,
    /// The most groups.
    pub groups: u32,
    /// How often the nodes of a group that do not answer are asked again.
    pub tries: u32,
}

/// Why nothing was made.
#[derive(Clone, Copy, Debug, PartialEq, Eq, Error)]
pub enum MakeFault {
    /// There are more than 128 nodes, or no group may be followed.
    #[error("a limit is out of range")]
    Limits,
    /// There was no memory for it.
    #[error("out of memory")]
    Memory,
}

/// What is known of a life of a node.
#[derive(Clone, Copy, Debug, PartialEq, Eq)]
pub enum LifeHeard {
    /// It is the latest, or an earlier one.
    Known,
    /// It is later than all that were heard, so that the node is asked again for what it has not answered.
    Newer,
    /// There is no such node.
    Refused,
}

/// What became of a message of a group.
#[derive(Clone, Copy, Debug, PartialEq, Eq)]
pub enum ToldOutcome {
    /// It was taken, and its life was heard so.
    Taken(LifeHeard),
    /// It names a node that is not there.
    Refused,
    /// It begins a group, as many are followed as may be, and the oldest is not settled.
    Full,
}
