//! What the clients of a node are made with.

use hs_base::Memory;
use thiserror::Error;

/// The least calls of a core. Half of them are enough for a page of the greatest size.
pub const MIN_CALLS: u32 = 8192;

/// The greatest backlog of a link.
pub const MAX_BACKLOG: u32 = 65_536;

/// What the clients of a node are made with. All memory of their lives is taken by these.
#[derive(Clone, Copy)]
pub struct ClientLimits {
    /// The number of their node, from 0.
    pub node: u16,
    /// Clients, from 1 to 256: one for each thread.
    pub clients: u16,
    /// Buffers of the node's pool, from 1 to 65,536.
    pub buffers: u32,
    /// The size of a page in bytes, from 64 to 32,768. A buffer has 8 bytes more.
    pub size: u32,
    /// How many chunks, crumbs and triggers of a client may wait for the agent, from 1 to 65,536: each link has a ring of so many
    /// entries, and an outbox of so many places. A point of more pieces is refused.
    pub backlog: u32,
    /// How many notes of a client's segments may wait for the agent, from 1 to 65,536: the ring of their link and its outbox have
    /// so many places each.
    pub notes: u32,
    /// How many calls a client's core counts before it is renewed, 8,192 at least. Fewer than half are left where a begin renews it. A
    /// trace may take half of them.
    pub calls: u32,
}

/// Why clients were not made.
#[derive(Clone, Copy, Debug, PartialEq, Eq, Error)]
pub enum MakeFault {
    #[error("out of memory")]
    Memory,
    /// There is no node, there are more than 128, or the clients' node is none of them.
    #[error("the node is none of 1 to 128 nodes")]
    Node,
    /// There is no client, or there are more than 256.
    #[error("a node has 1 to 256 clients")]
    Clients,
    /// There is no buffer, or there are more than 65,536.
    #[error("a pool has 1 to 65536 buffers")]
    Buffers,
    /// The size is below 64 or above 32,768.
    #[error("a page has 64 to 32768 bytes")]
    Size,
    /// A backlog, that of the notes or of the others, is 0 or above 65,536.
    #[error("a backlog is 1 to 65536")]
    Backlog,
    /// The calls are below 8,192.
    #[error("a core counts 8192 calls at least")]
    Calls,
    /// An autotrigger is not within its limits, or fires an id that is not declared.
    #[error("an autotrigger is not within its limits, or its id is not declared")]
    Autos,
}

impl From<Memory> for MakeFault {
    fn from(_error: Memory) -> MakeFault {
        MakeFault::Memory
    }
}
