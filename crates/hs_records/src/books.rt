//! What clients and agents note while they run.

use crate::journal::{Draw, Step};
use hs_base::{Bytes, ClientId, Fate, Group, List, NodeId, TraceId};

/// A page of a client: its trace, the number of its first record and its count of pieces.
#[derive(Clone, Copy, PartialEq, Eq)]
pub struct PageNote {
    pub trace: TraceId,
    pub first: u32,
    pub count: u32,
}

/// What a client noted: the draw of each page and the page.
#[derive(Drop)]
pub struct ClientBook {
    pub client: ClientId,
    pub draws: List<Draw>,
    pub pages: List<PageNote>,
}

/// What became of a client's page at its node's agent.
#[derive(Clone, Copy)]
pub struct Standing {
    pub client: ClientId,
    pub page: u32,
    pub fate: Fate,
}

/// A trace that a node claimed, and the group for which it did.
#[derive(Clone, Copy)]
pub struct Claim {
    pub trace: TraceId,
    pub group: Group,
}

/// What an agent noted: its steps, the standings of the pages in the order in which they came, its
/// claims in the order in which it made them, and the bytes of the pages that it reported, in that
/// order.
#[derive(Drop)]
pub struct AgentBook {
    pub node: NodeId,
    pub log: List<Step>,
    pub standings: List<Standing>,
    pub claims: List<Claim>,
    pub sent: List<Bytes>,
}
