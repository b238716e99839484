//! Chunks that come to an agent, where all memory is asked for first.

ghost use Rattle.std.specs.Prelude.{◌≡◌, ◌+◌, ◌<◌, ◌≤◌, ◌^◌, ◌++◌, true, length, map, OnOk, OnErr, OnSome, IfErr, IfSome, IsSome};
ghost use Rattle.std.specs.VecDeque.{deque_len, deque_capacity};
ghost use Rattle.hs_words.specs.Buffers.{buffer_of};
ghost use Rattle.hs_index.specs.Index.{count_chunks, leaving_of};
ghost use Rattle.hs_pins.specs.Remembered.{Remembered, claim_for, pin_of};
ghost use Rattle.hs_pins.specs.PinsLayout.{Remembers, KnowsThat};
ghost use Rattle.hs_agent.specs.declared.placed.Tagged.{Tagged};
ghost use Rattle.hs_agent.specs.Placing.{placed_at};
ghost use Rattle.hs_agent.specs.Keeping.{Point, Holds, HoldsThat};
ghost use Rattle.hs_agent.specs.Parting.{going_of};
ghost use Rattle.hs_agent.specs.LettingGo.{evicted_going, abandoned_going};
ghost use Rattle.hs_agent.specs.Arriving.{noted, indexed};
ghost use Rattle.hs_agent.specs.Trying.{lefts_noted, ComesToPins};
ghost use Rattle.hs_agent.specs.Points.{chunk_taken};

use super::{Holdings, apart, with_place};
use crate::chunk_notes::ChunkNotes;
use crate::hand::{ChunkNote, Leave, Left, Parting};
use crate::placed::{ArrivalPlace, Tagged};
use hs_base::List;
use hs_index::Gone;
use hs_pins::Dropped;
use hs_words::{Header, Held, Token};
use std::collections::VecDeque;

impl<L: Token> Holdings<L> {
    /// Takes a chunk whose page was started. For want of memory it comes back, and nothing changes.
    pub fn try_chunk(&mut self, held: Held<L>) -> Result<(), Held<L>>
        requires started { IsSome held.chunk.page }
        requires known { HoldsThat self.old (λ point. Unit {0}) }
        ensures ok { (point : Point L) → Holds self.old point → held.chunk.size ≡ point.settings.size → OnOk result (Holds self.new (chunk_taken (buffer_of held) point)) }
        ensures same { OnErr result (self.new ≡ self.old) }
        ensures back { IfErr result (λ back. buffer_of back ≡ buffer_of held) }
    {
        let Some(header) = held.chunk.header() else {
            unreachable!()
        };
        let _used = held.chunk.used();
        match self.pins.owner(header.trace) {
            Some(_) => self.pin(header, held),
            None => self.index_chunk(header, held),
        }
    }

    /// How many chunks are indexed or pinned.
    fn waiting(&self) -> u64
        ensures { (memory : Remembered (Tagged L)) → Remembers self.now.pins memory → result ≡ count_chunks self.now.index.touched + length memory.pinned }
    {
        u64::from(self.index.chunks()) + u64::from(self.pins.chunks())
    }

    /// Indexes a chunk of a trace that nobody claimed, whose page has this header, and lets go what is too much then. For
    /// want of memory it comes back, and nothing changes. Fewer than 2^32 chunks wait at a time, and fewer than 2^64 come.
    fn index_chunk(&mut self, header: Header, held: Held<L>) -> Result<(), Held<L>>
        requires { IsSome held.chunk.page }
        ensures ok { OnOk result (self.new ≡ indexed (placed_at (length self.old.standings) (buffer_of held)) (noted header self.old)) }
        ensures fits { OnOk result (length self.old.standings + 1 < 2 ^ 64) }
        ensures few { (memory : Remembered (Tagged L)) → Remembers self.old.pins memory
            → OnOk result (count_chunks self.old.index.touched + length memory.pinned + 1 < 2 ^ 32) }
        ensures same { OnErr result (self.new ≡ self.old) }
        ensures back { IfErr result (λ back. buffer_of back ≡ buffer_of held) }
    {
        let waiting = self.waiting();
        let room = (self.index.chunks() as usize).saturating_add(2);
        let Some(place) = next_place(&mut self.standings, &mut self.hand, waiting, room) else {
            return Err(held);
        };
        match self.index.arrive(with_place(place, held)) {
            Err(back) => Err(apart(back).0),
            Ok(gone) => {
                self.standings.push(ChunkNote {
                    client: header.client,
                    page: header.page,
                    left: None,
                });
                evict_into(&mut self.standings, &mut self.hand, gone);
                Ok(())
            }
        }
    }

    /// Pins a chunk of a claimed trace, whose page has this header, and lets go what has to go then: this chunk, where the
    /// claiming group was abandoned, or those of the groups that give way. For want of memory it comes back, and nothing
    /// changes. Fewer than 2^32 chunks wait at a time, and fewer than 2^64 come.
    fn pin(&mut self, header: Header, held: Held<L>) -> Result<(), Held<L>>
        requires { KnowsThat self.old.pins (λ memory. IsSome (claim_for memory.claims (buffer_of held))) }
        ensures ok { (memory : Remembered (Tagged L)) → Remembers self.old.pins memory
            → OnOk result (ComesToPins memory (placed_at (length self.old.standings) (buffer_of held)) (noted header self.old) self.new) }
        ensures fits { OnOk result (length self.old.standings + 1 < 2 ^ 64) }
        ensures few { (memory : Remembered (Tagged L)) → Remembers self.old.pins memory
            → OnOk result (count_chunks self.old.index.touched + length memory.pinned + 1 < 2 ^ 32) }
        ensures same { OnErr result (self.new ≡ self.old) }
        ensures back { IfErr result (λ back. buffer_of back ≡ buffer_of held) }
    {
        let room = (self.pins.chunks() as usize).saturating_add(2);
        let Ok(()) = self.sent.reserve(room) else {
            return Err(held);
        };
        let waiting = self.waiting();
        let Some(place) = next_place(&mut self.standings, &mut self.hand, waiting, room) else {
            return Err(held);
        };
        match self.pins.receive(with_place(place, held)) {
            Err(back) => Err(apart(back).0),
            Ok(gone) => {
                self.standings.push(ChunkNote {
                    client: header.client,
                    page: header.page,
                    left: None,
                });
                drop_into(&mut self.standings, &mut self.hand, gone);
                Ok(())
            }
        }
    }
}

/// Notes that the index evicted these, and puts them last into the hand, which has room for them.
pub(super) fn evict_into<L: Token>(
    standings: &mut ChunkNotes,
    hand: &mut VecDeque<Parting<L>>,
    gone: List<Gone<Tagged<L>>>,
)
    requires { deque_len hand.old + length gone.items ≤ deque_capacity hand.old }
    ensures lefts { standings.new.items ≡ lefts_noted standings.old.items (map evicted_going (map leaving_of gone.items)) }
    ensures keeps { standings.new.keeps ≡ standings.old.keeps }
    ensures hand { map going_of hand.new.items ≡ map going_of hand.old.items ++ map evicted_going (map leaving_of gone.items) }
    ensures len { deque_len hand.new ≡ deque_len hand.old + length gone.items }
    ensures capacity { deque_capacity hand.new ≡ deque_capacity hand.old }
{
    for leaving in gone.into_vec() {
        let Gone {
            held,
            chunks,
            traces,
        } = leaving;
        let (held, place) = apart(held);
        let left = Left::Evicted { chunks, traces };
        standings.leave(Leave { place, left });
        hand.push_back_reserved(Parting { held, place, left });
    }
}

/// Notes that these were abandoned with their groups, and puts them last into the hand, which has room for them.
pub(super) fn drop_into<L: Token>(
    standings: &mut ChunkNotes,
    hand: &mut VecDeque<Parting<L>>,
    gone: List<Dropped<Tagged<L>>>,
)
    requires { deque_len hand.old + length gone.items ≤ deque_capacity hand.old }
    ensures lefts { standings.new.items ≡ lefts_noted standings.old.items (map abandoned_going (map pin_of gone.items)) }
    ensures keeps { standings.new.keeps ≡ standings.old.keeps }
    ensures hand { map going_of hand.new.items ≡ map going_of hand.old.items ++ map abandoned_going (map pin_of gone.items) }
    ensures len { deque_len hand.new ≡ deque_len hand.old + length gone.items }
    ensures capacity { deque_capacity hand.new ≡ deque_capacity hand.old }
{
    for dropped in gone.into_vec() {
        let Dropped { held, group } = dropped;
        let (held, place) = apart(held);
        let left = Left::Abandoned(group);
        standings.leave(Leave { place, left });
        hand.push_back_reserved(Parting { held, place, left });
    }
}

/// The place of the next chunk, where so many wait, with room to note the chunk, and in the hand for so many to go. `None`
/// where memory is wanting, where too many wait to count one more, or where there are no places any more.
fn next_place<L: Token>(
    standings: &mut ChunkNotes,
    hand: &mut VecDeque<Parting<L>>,
    waiting: u64,
    going: usize,
) -> Option<ArrivalPlace>
    ensures standings { standings.new.items ≡ standings.old.items }
    ensures keeps { standings.new.keeps ≡ standings.old.keeps }
    ensures hand { hand.new.items ≡ hand.old.items }
    ensures len { deque_len hand.new ≡ deque_len hand.old }
    ensures kept { deque_capacity hand.old ≤ deque_capacity hand.new }
    ensures place { IfSome result (λ place. place.0 ≡ length standings.old.items) }
    ensures fits { OnSome result (length standings.old.items + 1 < 2 ^ 64) }
    ensures few { OnSome result (waiting + 1 < 2 ^ 32) }
    ensures going { OnSome result (deque_len hand.new + going ≤ deque_capacity hand.new) }
    ensures standing { OnSome result (standings.new.keeps ≡ true → length standings.new.items < standings.new.room) }
{
    let count = standings.len();
    if count == u64::MAX || waiting >= u64::from(u32::MAX) {
        return None;
    }
    if standings.reserve().is_err() || hand.reserve(going).is_err() {
        return None;
    }
    Some(ArrivalPlace(count))
}
