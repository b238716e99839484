//! The settings of a service, as values.

use hs_base::{AutoRule, List, TriggerRule};

/// What a service is run with. A node and a hub are made by the same settings (`docs/FORMATS.md`, "Settings of a service").
#[derive(Drop)]
pub struct ServiceSettings {
    /// Nodes, from 1 to 128.
    pub nodes: u16,
    /// Clients of each node, from 1 to 256.
    pub clients: u16,
    /// Buffers of each node's pool, from 1 to 65,536.
    pub buffers: u32,
    /// The size of a page in bytes, from 64 to 32,768. A buffer has 8 bytes more.
    pub size: u32,
    /// How many chunks an agent indexes before it evicts, from 0 to 65,536.
    pub threshold: u32,
    /// How many traces an agent indexes before it evicts, from 1 to 65,536.
    pub traces: u32,
    /// How many chunks an agent pins before it abandons a group, from 0 to 65,536.
    pub pins: u32,
    /// Places of each outbox of a client, from 1 to 65,536.
    pub backlog: u32,
    /// Claims that a node keeps before it forgets settled groups, from 1 to 65,536.
    pub claims: u32,
    /// Traces of which a node remembers what belongs to them, from 1 to 65,536.
    pub remember: u32,
    /// Settled groups that a hub keeps, from 1 to 65,536.
    pub groups: u32,
    /// Traces that a hub holds, from 1 to 65,536.
    pub hold: u32,
    /// Bytes of records that a hub holds, from 65,536 to 1,099,511,627,776.
    pub bytes: u64,
    /// The trigger ids, rising.
    pub triggers: List<TriggerRule>,
    /// The autotriggers, by their numbers from 0.
    pub autos: List<AutoRule>,
}
