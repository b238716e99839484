//! Names of traces, nodes, clients, records, triggers and groups.

use std::alloc::{AllocError, AllocFailed};
use thiserror::Error;

/// Want of memory.
#[derive(Clone, Copy, Debug, Error)]
#[error("out of memory")]
pub struct Memory;

impl From<AllocError> for Memory {
    fn from(_error: AllocError) -> Memory {
        Memory
    }
}

impl<T: Drop> From<AllocFailed<T>> for Memory {
    fn from(_error: AllocFailed<T>) -> Memory {
        Memory
    }
}

/// A read or a write that failed. The object that failed counts it (`docs/RULES.md`, "The outside").
#[derive(Clone, Copy, Debug, PartialEq, Eq, Error)]
#[error("a read or a write failed")]
pub struct Failed;

/// A trace, by its id of 128 bits. A text of version 1 names only ids below 2^64.
#[derive(Clone, Copy, Debug, PartialEq, Eq, PartialOrd, Ord, Hash)]
pub struct TraceId(pub u128);

/// A node, from 0.
#[derive(Clone, Copy, Debug, PartialEq, Eq)]
pub struct NodeId(pub u16);

/// A kind of trigger, from 1 to 64.
#[derive(Clone, Copy, Debug, PartialEq, Eq, PartialOrd, Ord, Hash)]
pub struct TriggerId(pub u8);

/// A client of a node: one thread that writes records there.
#[derive(Clone, Copy, Debug, PartialEq, Eq, PartialOrd, Ord, Hash)]
pub struct ClientId {
    pub node: u16,
    pub number: u16,
}

/// A record, by its client and its number among the client's records, from 0.
#[derive(Clone, Copy, Debug, PartialEq, Eq, Hash)]
pub struct RecordId {
    pub client: ClientId,
    pub number: u32,
}

/// A trace's rank. Ranks are ordered by word, and equal words by trace.
#[derive(Clone, Copy, Debug, PartialEq, Eq)]
pub struct Rank {
    pub word: u64,
    pub trace: u128,
}

/// A group: the node that admitted its trigger, and the trigger's number among those that this node
/// admitted, from 0.
#[derive(Clone, Copy, Debug, PartialEq, Eq, Hash)]
pub struct GroupId {
    pub node: u16,
    pub number: u32,
}
