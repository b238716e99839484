//! What the calls answer.

ghost use Rattle.std.specs.Prelude.{◌≡◌};

use hs_agent::Left;
use hs_base::{Crumb, TraceId, Trigger};
use hs_mail::Unposted;
use hs_ring::Lease;
use hs_words::Held;

/// Why no more was taken.
#[derive(Clone, Copy, Debug, PartialEq, Eq)]
pub enum Stop {
    /// Nothing more has come.
    Empty,
    /// As many were taken as one pass takes.
    Most,
    /// Memory was wanting for the next one. It waits at the front.
    Memory,
    /// There is no place for the message that the next one may make.
    Words,
    /// There is no place for each trace that the next one may claim.
    Claims,
}

/// How many were taken, and why no more.
#[derive(Clone, Copy, Debug, PartialEq, Eq)]
pub struct Took {
    pub count: u32,
    pub stop: Stop,
}

impl Took {
    /// An answer that nothing was taken, for this reason.
    pub(crate) fn none(stop: Stop) -> Took
        ensures { result ≡ record { count = 0; stop = stop } }
    {
        Took { count: 0, stop }
    }
}

/// How many triggers were taken, and why no more. `limited` of them admitted no group: the bucket of their id had no token, no number was
/// left, or what they may claim had no place.
#[derive(Clone, Copy, Debug, PartialEq, Eq)]
pub struct TookTriggers {
    pub took: Took,
    pub limited: u32,
}

impl TookTriggers {
    /// An answer that no trigger was taken, for this reason.
    pub(crate) fn none(stop: Stop) -> TookTriggers
        ensures { result ≡ record { took = record { count = 0; stop = stop }; limited = 0 } }
    {
        TookTriggers {
            took: Took::none(stop),
            limited: 0,
        }
    }

    /// So many left, and the agent did not see them.
    pub(crate) fn dropped(count: u32, stop: Stop) -> TookTriggers
        ensures { result ≡ record { took = record { count = count; stop = stop }; limited = count } }
    {
        TookTriggers {
            took: Took { count, stop },
            limited: count,
        }
    }
}

/// What became of a turn.
#[derive(Clone, Copy, Debug, PartialEq, Eq)]
pub enum Turned {
    /// The agent made its turn.
    Done,
    /// There is no place for each page that it may report.
    Full,
    /// Memory was wanting, and the agent is spent.
    Spent,
}

/// A chunk that is first in the hand, at its first offer: the trace of its page, the client that wrote it, the numbers of the core and of
/// the page, and why it left. Where it was reported, its page was posted, or this says why it cannot be.
#[derive(Clone, Copy, Debug, PartialEq, Eq)]
pub struct PartedChunk {
    pub trace: TraceId,
    pub client: u16,
    pub core: u64,
    pub page: u32,
    pub left: Left,
    pub unposted: Option<Unposted>,
}

/// What became of the first of the hand.
#[derive(Clone, Copy, Debug, PartialEq, Eq)]
pub enum Handed {
    /// The hand is empty.
    Empty,
    /// Its page has no place in the mail now, or no number is left for it. Nothing changed.
    Waits(Unposted),
    /// It was offered to the pool, which took its buffer or did not. At the first offer there is what was said of it.
    Offered {
        parted: Option<PartedChunk>,
        is_given: bool,
    },
    /// Memory was wanting, and the agent is spent.
    Spent,
}

/// What became of a standing.
#[derive(Clone, Copy, Debug, PartialEq, Eq)]
pub enum Stated {
    /// It was said.
    Said,
    /// It says no more of the claim that is looked at than was said of it last, or is of another one.
    Known,
    /// It cannot be said now.
    Waits(Unposted),
}

/// What is said of the first of the hand.
#[derive(Clone, Copy)]
pub(crate) enum Say {
    /// The hand is empty.
    Nothing,
    /// It was said at an earlier offer.
    Again,
    /// It cannot be said now.
    Waits(Unposted),
    Parted(PartedChunk),
}

/// What became of the next item.
#[derive(Clone, Copy)]
pub(crate) enum Next {
    Taken,
    Stopped(Stop),
}

/// What became of the next trigger.
#[derive(Clone, Copy)]
pub(crate) enum Fired {
    /// It was taken, and tells of its group if it admitted one.
    Taken { tells: bool },
    Stopped(Stop),
}

/// What came, and found no memory.
#[derive(Drop)]
pub(crate) enum Back {
    Chunk { client: u16, held: Held<Lease> },
    Crumb { client: u16, crumb: Crumb },
    Trigger { client: u16, trigger: Trigger },
}
