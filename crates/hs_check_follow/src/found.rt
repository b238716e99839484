//! What following a journal found, as far as the clauses that are asked after it look at it.

use hs_base::{List, NodeSet};

/// What a client sends at the draws of the journal: the operations, from 0, that start its pages and that send its
/// items, one for each page and each item in their order.
#[derive(Drop)]
pub struct FoundClient {
    pub started: List<usize>,
    pub chunks: List<usize>,
    pub crumbs: List<usize>,
    pub triggers: List<usize>,
}

/// The page of a chunk, by its client's number at the node and its own there.
#[derive(Clone, Copy)]
pub struct FoundPage {
    pub client: u16,
    pub page: u32,
}

/// What was found at a node.
#[derive(Drop)]
pub struct FoundNode {
    /// Its clients, by number.
    pub clients: List<FoundClient>,
    /// The page of each chunk whose buffer was given back, in the order of gives.
    pub gives: List<FoundPage>,
    /// How many buffers were in the hand behind each pass.
    pub hands: List<usize>,
    /// How many messages the agent had said behind each pass.
    pub said: List<usize>,
    /// How many messages it said in all.
    pub told: usize,
    /// How many chunks were pinned at the end.
    pub pinned: usize,
}

/// What was found at all nodes, by number, and at the coordinator.
#[derive(Drop)]
pub struct Found {
    pub nodes: List<FoundNode>,
    /// The nodes to which each message that the coordinator took led to an ask, in the order in which it took them.
    pub asked: List<NodeSet>,
}
