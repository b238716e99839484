//! What the calls take and answer.

use thiserror::Error;

/// How much a hub holds, and how long it waits.
#[derive(Clone, Copy, Debug, PartialEq, Eq)]
pub struct HubLimits {
    /// Nodes are below this.
    pub nodes: u16,
    /// The most groups that are followed.
    pub groups: u32,
    /// The most traces that wait to be given out.
    pub hold: u32,
    /// The most bytes of all pages.
    pub bytes: u64,
    /// The most standings.
    pub standings: u32,
    /// The most messages that wait for their acknowledgement, once for each trace that they serve.
    pub messages: u32,
    /// After how many passes a node that does not answer is asked again.
    pub wait: u64,
    /// How often it is asked again.
    pub tries: u32,
    /// After how many passes a trace is given out though more may come of it.
    pub age: u64,
}

/// Why nothing was made.
#[derive(Clone, Copy, Debug, PartialEq, Eq, Error)]
pub enum MakeFault {
    /// A limit is out of its range.
    #[error("a limit is out of range")]
    Limits,
    /// There was no memory for it.
    #[error("out of memory")]
    Memory,
}

/// What became of a message.
#[derive(Clone, Copy, Debug, PartialEq, Eq)]
pub enum Delivered {
    /// It waits until what it serves is saved, and is named then.
    Held,
    /// It may be acknowledged at once: nothing depends on it.
    Done,
    /// It may be acknowledged at once: it is none that a hub takes.
    Refused,
    /// It is too much for now, and is to be delivered again.
    Full,
}

/// Why a trace is given out.
#[derive(Clone, Copy, Debug, PartialEq, Eq)]
pub enum OutReason {
    /// All pages came that lives say they handed out, and nothing more is to come of it.
    Complete,
    /// Its first message that waits came as many passes ago as the age says. More may come of it.
    Aged,
    /// A limit is reached, and its first message waits longest. More may come of it.
    CutShort,
}

/// How much a hub holds, and how many passes it made.
#[derive(Clone, Copy, Debug, PartialEq, Eq)]
pub struct HubCounts {
    /// Passes so far.
    pub passes: u64,
    /// Groups that are followed.
    pub groups: usize,
    /// Traces of which pages wait to be given out.
    pub traces: usize,
    /// Bytes of all pages.
    pub bytes: u64,
    /// Standings.
    pub standings: u32,
    /// Messages that wait for a trace that is not out, once for each.
    pub messages: usize,
}
