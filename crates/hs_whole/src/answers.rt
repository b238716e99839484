//! What the calls take and answer.

use hs_base::NodeSet;
use thiserror::Error;

/// The most clients of a node.
pub const MOST_CLIENTS: u16 = 256;

/// The most traces that are looked at for one that may be forgotten.
pub const MOST_LOOKS: u32 = 64;

/// How much is kept.
#[derive(Clone, Copy, Debug, PartialEq, Eq)]
pub struct NoteLimits {
    /// Clients are below this.
    pub clients: u16,
    /// The most traces.
    pub traces: u32,
}

/// Why nothing was made.
#[derive(Clone, Copy, Debug, PartialEq, Eq, Error)]
pub enum MakeFault {
    /// There are more than 256 clients, or no trace may be kept.
    #[error("a limit is out of range")]
    Limits,
    /// There was no memory for it.
    #[error("out of memory")]
    Memory,
}

/// What became of a note.
#[derive(Clone, Copy, Debug, PartialEq, Eq)]
pub enum NoteOutcome {
    /// It is kept.
    Kept,
    /// It is of a client that is not there.
    Refused,
    /// As many traces are kept as may be, and of each that was looked at a segment is open or pages are to come. The note counts as
    /// missed.
    Full,
}

/// What a client says of a segment at its end: the pages that it sent, what it refused or wrote to no buffer, by cause, and the nodes to which
/// its crumbs led.
#[derive(Clone, Copy, Debug, PartialEq, Eq)]
pub struct SegmentReport {
    /// Pages that were sent.
    pub pages: u32,
    /// Pages that were written to no buffer, since the pool was empty.
    pub null_pages: u32,
    /// Points refused since the outbox was full.
    pub full_points: u32,
    /// Points refused since no buffer was to be had.
    pub dry_points: u32,
    /// Points refused since they were too long.
    pub long_points: u32,
    /// Points refused since numbers ended.
    pub spent_points: u32,
    /// Crumbs that could not be sent.
    pub refused_crumbs: u32,
    /// The nodes to which its crumbs led that could be sent.
    pub crumbs: NodeSet,
}

/// What an agent lost of a trace.
#[derive(Clone, Copy, Debug, PartialEq, Eq)]
pub enum Loss {
    /// Pages that the index let go.
    EvictedPages,
    /// Pages that went when the group was abandoned.
    AbandonedPages,
    /// Crumbs that went when the index let the trace go.
    EvictedCrumbs,
    /// Crumbs that went when the group was forgotten.
    ForgottenCrumbs,
}
