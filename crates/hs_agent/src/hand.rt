//! Chunks that leave the index or the pins, with why they do, until their buffers are given back.

ghost use Rattle.std.specs.Prelude.{◌≡◌, Some};
ghost use Rattle.hs_agent.specs.Leaving.{fate_by};

use crate::placed::ArrivalPlace;
use hs_base::{ClientId, Fate, Group, rank_of};
use hs_words::{Chunk, Held, Token};

/// Why a chunk is neither indexed nor pinned any more. It was reported or abandoned with its group, or evicted where so many
/// chunks of so many traces were indexed.
#[derive(Clone, Copy, Debug, PartialEq, Eq)]
pub enum Left {
    Reported(Group),
    Evicted { chunks: u32, traces: u32 },
    Abandoned(Group),
}

/// What is noted of a chunk that was taken: its client, its page, and why it left, if it did.
#[derive(Clone, Copy)]
pub struct ChunkNote {
    pub client: ClientId,
    pub page: u32,
    pub left: Option<Left>,
}

/// The chunk at this place leaves.
#[derive(Clone, Copy)]
pub struct Leave {
    pub place: ArrivalPlace,
    pub left: Left,
}

/// A chunk whose buffer is to be given back, with the chunk's place.
#[derive(Drop)]
pub struct Parting<L: Token> {
    pub held: Held<L>,
    pub place: ArrivalPlace,
    pub left: Left,
}

/// A chunk that a turn sent, with its place and the group that pinned it.
#[derive(Drop)]
pub struct SentChunk<L: Token> {
    pub held: Held<L>,
    pub place: ArrivalPlace,
    pub group: Group,
}

/// The place of the chunk that was offered to the pool and not answered yet, and why the chunk left.
#[derive(Clone, Copy)]
pub struct Out {
    pub place: ArrivalPlace,
    pub left: Left,
}

/// The first chunk of an agent's hand, with the lease with which it came last.
#[derive(Drop)]
pub struct First<'a, L: Token> {
    pub chunk: &'a Chunk,
    pub lease: &'a L,
    /// Why it left the index or the pins.
    pub left: Left,
    /// Whether it was offered to the pool before, and came back.
    pub again: bool,
}

impl Left {
    /// The fate of the pieces of a chunk that left so.
    pub fn fate(&self) -> Fate
        ensures { result ≡ fate_by (Some self.now) }
    {
        match *self {
            Left::Reported(group) => Fate::Reported {
                trigger: group.trigger,
                lead: group.lead,
            },
            Left::Evicted { chunks, traces } => Fate::Evicted { chunks, traces },
            Left::Abandoned(group) => Fate::Abandoned {
                trigger: group.trigger,
                lead: group.lead,
                rank: rank_of(group.lead),
            },
        }
    }
}
