//! The settings of a workload.

use crate::ids::TriggerId;
use crate::list::List;

/// A trigger id with its rules. The rate is in tokens a second, the burst in tokens.
#[derive(Clone, Copy)]
pub struct TriggerRule {
    pub id: TriggerId,
    pub weight: u32,
    pub burst: u32,
    pub rate: u32,
}

/// A trigger that fires by itself. A window is in samples, a share in hundredths of a percent
/// (`docs/RULES.md`, "Autotriggers").
#[derive(Clone, Copy)]
pub enum AutoRule {
    Exception {
        trigger: TriggerId,
    },
    Percentile {
        trigger: TriggerId,
        window: u32,
        share: u32,
    },
    Category {
        trigger: TriggerId,
        window: u32,
        share: u32,
    },
    Queue {
        trigger: TriggerId,
        window: u32,
        share: u32,
        laterals: u32,
    },
}

/// What a workload is run with (`docs/RULES.md`, "Limits").
#[derive(Drop)]
pub struct Settings {
    /// Nodes, from 1 to 16.
    pub nodes: u16,
    /// Clients of each node, from 1 to 16.
    pub clients: u16,
    /// Buffers of each node's pool, from 1 to 1,024.
    pub buffers: u32,
    /// The size of a page in bytes, from 64 to 32,768. A buffer has 8 bytes more.
    pub size: u32,
    /// How many chunks an agent indexes before it evicts, from 0 to 1,024.
    pub threshold: u32,
    /// How many traces an agent indexes before it evicts, from 1 to 65,536.
    pub traces: u32,
    /// How many chunks an agent pins before it abandons a group, from 0 to 1,024.
    pub pins: u32,
    /// The operations of a client in a round, from 1 to 64.
    pub stride: u32,
    /// The trigger ids, rising.
    pub triggers: List<TriggerRule>,
    /// The autotriggers, by their numbers from 0.
    pub autos: List<AutoRule>,
}
