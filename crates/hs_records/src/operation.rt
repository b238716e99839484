//! What a workload is, as it lies in memory.

use hs_base::{Bytes, List, NodeId, Settings, TraceId, Trigger};

/// An operation of a client. Moments are in microseconds.
#[derive(Drop)]
pub enum Op {
    /// Opens a trace.
    Begin { trace: TraceId },
    /// A record of the open trace, with at most 65,535 bytes.
    Point { moment: u64, payload: Bytes },
    /// The open trace goes on at this node.
    Crumb { node: NodeId },
    /// Closes the open trace.
    End,
    /// A trigger of the client's own. It stands in memory of its own, since it is ten times as wide as any
    /// other operation.
    Trigger { trigger: Box<Trigger> },
    /// A sample for the autotrigger of this number.
    Sample { moment: u64, auto: u32, value: u64 },
}

/// A workload: its version, 1 or 2, its settings, and the operations of each client in the order of
/// node and number.
#[derive(Drop)]
pub struct Workload {
    pub version: u8,
    pub settings: Settings,
    pub clients: List<List<Op>>,
}
