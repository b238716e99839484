//! What clients and agents noted, and what it comes to.

use hs_base::{List, NodeId, TraceId};
use hs_collect::Collector;
use hs_ledger::Ledger;
use hs_records::{AgentBook, ClientBook, Journal};

/// What was noted in a run.
#[derive(Drop)]
pub struct Books {
    /// The version of the workload, 1 or 2.
    pub version: u8,
    /// The number of nodes, 1 to 16.
    pub nodes: u16,
    /// The number of clients of each node, 1 to 16.
    pub each: u16,
    /// The books of the clients, in the order of node and number.
    pub clients: List<ClientBook>,
    /// The books of the agents, in the order of node.
    pub agents: List<AgentBook>,
    /// The nodes whose messages the coordinator took, in that order.
    pub told: List<NodeId>,
}

/// What a workload and a journal come to.
#[derive(Drop)]
pub struct Outcome {
    /// The version of the workload, which says how wide traces are written: 1 or 2.
    pub version: u8,
    pub journal: Journal,
    pub ledger: Ledger,
    /// Each trace that some node claimed, rising.
    pub claimed: List<TraceId>,
    /// What the reported pages hold of each trace.
    pub collector: Collector,
}
