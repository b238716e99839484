//! What a journal is, as it lies in memory.

use hs_base::{List, NodeId};

/// A client's draw from its node's pool, with its stamp: its place among the events of that pool.
#[derive(Clone, Copy, PartialEq, Eq)]
pub enum Draw {
    /// This buffer was got, from 0 to 1023.
    Got { buffer: u32, stamp: u64 },
    /// The pool was empty.
    Empty { stamp: u64 },
}

/// A step of an agent. A client is named by its number at the agent's node.
#[derive(Clone, Copy, PartialEq, Eq)]
pub enum Step {
    /// It took the client's next chunk.
    Chunk { client: u16 },
    /// It took the client's next crumb.
    Crumb { client: u16 },
    /// It took the client's next trigger.
    Trigger { client: u16 },
    /// It took the coordinator's next ask.
    Ask,
    /// It made a fair turn over its trigger ids.
    Turn,
    /// It gave the first buffer of its hand back to the pool, with this stamp.
    Given { stamp: u64 },
    /// It offered that buffer and missed, with this stamp.
    Missed { stamp: u64 },
    /// It offered that buffer, and the pool's entry was still in use.
    Unread,
}

/// What happened in a run, as far as the order of events is not fixed by the workload.
#[derive(Drop)]
pub struct Journal {
    /// The number of nodes, 1 to 16.
    pub nodes: u16,
    /// The number of clients of each node, 1 to 16.
    pub clients: u16,
    /// The draws of each client, in the order of node and number.
    pub draws: List<List<Draw>>,
    /// The steps of each node's agent.
    pub logs: List<List<Step>>,
    /// The nodes whose messages the coordinator took, in that order.
    pub told: List<NodeId>,
}
