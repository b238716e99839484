//! What the calls take and answer.

use hs_base::TraceId;

/// A message: its node, the epoch of the life that sent it, and its number there.
#[derive(Clone, Copy, Debug, PartialEq, Eq)]
pub struct MessageId {
    pub node: u16,
    pub epoch: u64,
    pub number: u64,
}

/// A message that waits until a trace is saved, with the pass in which it came.
#[derive(Clone, Copy, Debug, PartialEq, Eq)]
pub struct Waiting {
    pub trace: TraceId,
    pub message: MessageId,
    pub since: u64,
}

/// What became of a message that is to wait.
#[derive(Clone, Copy, Debug, PartialEq, Eq)]
pub enum ReceiptOutcome {
    /// It is kept, and waits.
    Noted,
    /// As many are kept as may be.
    Full,
    /// It was to wait with the trace that is out, and none is out.
    NothingOut,
}

/// How many messages are kept.
#[derive(Clone, Copy, Debug, PartialEq, Eq)]
pub struct ReceiptCounts {
    /// Those that wait for a trace, once for each.
    pub waiting: usize,
    /// Those that the trace that is out was served by.
    pub served: usize,
    /// Those that may be acknowledged.
    pub done: usize,
}
