//! The end that gives.
ghost use Rattle.std.specs.Prelude.{◌≡◌, ℕ, ◌+◌, ◌*◌, ◌%◌, ◌^◌, ◌<◌, ◌≤◌, [], length};
ghost use Rattle.hs_words.specs.Chunks.{clear_chunk};
ghost use Rattle.hs_words.specs.Ends.{answers_in};
ghost use Rattle.hs_words.specs.declared.token.TheConstants.{MAX_PUBLISHED};
ghost use Rattle.hs_ring.specs.Views.{drawer_seat_of, giver_seat_of, buffer_held, note_of, having_heard};
ghost use Rattle.hs_ring.specs.Parts.{Gives, Meets};
ghost use Rattle.hs_ring.specs.Seats.{IsSeatAt, IsIdle, IsFree, IsGiverSeat, IsSameSeat, IsNext, IsLaying, Publishes, published_after, misses_after, giving_of, drawing_of, name_of};

use crate::board::{Board, Entries, Place};
use crate::counts::{Counts, entry_of};
use crate::drawer::Drawer;
use crate::lease::Lease;
use crate::plays::{ReadNote, WriteNote};
use crate::steps::{lay, make_lease, publish, retake, take_lease};
use hs_words::{Chunk, Given, Held};
use std::marker::Model;
use std::sync::Arc;

/// The end of a ring that gives. It can move to another thread.
///
/// Contracts see it as its pool, how many chunks that has and their size, how many drawers it has, its floor, and its
/// turns, of which the last stands first.
#[derive(Drop)]
pub struct Giver {
    pub(crate) board: Arc<Board>,
    pub(crate) place: Place,
    pub(crate) buffers: u32,
    pub(crate) published: u64,
    pub(crate) misses: u64,
}

impl Model for Giver {
    ghost use Rattle.std.specs.Arc.{arc_value};
    ghost use Rattle.hs_ring.specs.Parts.{Giving};

    ghost Value = { Giving };

    ghost use Rattle.std.specs.Prelude.{◌≡◌};
    ghost use Rattle.hs_ring.specs.Views.{giver_seat_of};
    ghost use Rattle.hs_ring.specs.Seats.{giving_of, IsGiverSeat};

    ghost view = { λ s. giving_of s.place.table_id s.buffers (giver_seat_of s.place.me.0) };

    ghost invariant = { λ s. IsGiverSeat (arc_value s.board).shared.table_id s.place s.buffers s.published × (s.misses ≡ (giver_seat_of s.place.me.0).misses) };
}

/// Publishes the number of a chunk that was laid, or takes the chunk out again where the number was drawn before, with a lease of
/// this mark.
fn publish_or_retake(
    entries: &Entries,
    place: &mut Place,
    buffers: u32,
    entry: usize,
    chunk: Chunk,
    mark: u64,
) -> Given<Lease>
    requires at { IsSeatAt entries.now.table_id place.old }
    requires laid { IsLaying place.old entry }
    requires chunk { chunk ≡ clear_chunk (giver_seat_of place.old.me.0).size (buffer_held place.old.me.0) }
    requires next { (number : ℕ) × IsNext entries.now.table_id.slots number (giver_seat_of place.old.me.0) × (entry ≡ number % entries.now.table_id.slots) }
    requires halves { 2 * buffers ≡ entries.now.table_id.slots }
    ensures same { IsSameSeat place.old place.new }
    ensures published { Publishes mark place.old chunk result place.new }
    ensures few { (number : ℕ) → IsNext entries.now.table_id.slots number (giver_seat_of place.old.me.0) → number < MAX_PUBLISHED }
    ensures misses { (giver_seat_of place.old.me.0).misses < MAX_PUBLISHED }
{
    let counts = Counts::of(publish(entries, place, entry, chunk));
    let stamp = counts.stamp(buffers);
    if counts.drawn <= counts.published {
        return Given::Given { stamp };
    }
    let chunk = retake(entries, place, entry);
    let lease = Lease {
        place: make_lease(entries, place),
        mark,
    };
    Given::Missed {
        held: Held { chunk, lease },
        stamp,
    }
}

/// Gives a chunk under the number that comes next.
fn give_to(
    entries: &Entries,
    place: &mut Place,
    buffers: u32,
    number: u64,
    held: Held<Lease>,
) -> Given<Lease>
    requires seat { IsGiverSeat entries.now.table_id place.old buffers number }
    requires pool { held.lease.pool ≡ name_of entries.now.table_id }
    requires size { held.chunk.size ≡ (giver_seat_of place.old.me.0).size }
    ensures same { IsSameSeat place.old place.new }
    ensures seat { IsGiverSeat entries.now.table_id place.new buffers (published_after number result) }
    ensures misses { (giver_seat_of place.new.me.0).misses ≡ misses_after (giver_seat_of place.old.me.0).misses result }
    ensures given { Gives (giving_of place.old.table_id buffers (giver_seat_of place.old.me.0)) held result (giving_of place.new.table_id buffers (giver_seat_of place.new.me.0)) }
{
    let Held { mut chunk, lease } = held;
    let Lease { place: lease, mark } = lease;
    take_lease(entries, place, lease);
    let entry = entry_of(number, buffers);
    if !lay(entries, place, entry, number) {
        let lease = Lease {
            place: make_lease(entries, place),
            mark,
        };
        return Given::Unread {
            held: Held { chunk, lease },
        };
    }
    chunk.clear();
    publish_or_retake(entries, place, buffers, entry, chunk, mark)
}

/// Each of two ends hears of what the other knows.
fn meet_at(entries: &Entries, giver: &mut Place, drawer: &mut Place)
    requires giver { IsSeatAt entries.now.table_id giver.old × IsFree giver.old }
    requires drawer { IsSeatAt entries.now.table_id drawer.old × IsIdle drawer.old }
    ensures giver { IsSameSeat giver.old giver.new × (giver.new.me ≡ (having_heard giver.old.me.0 (note_of drawer.old.me.0), [])) }
    ensures drawer { IsSameSeat drawer.old drawer.new × (drawer.new.me ≡ (having_heard drawer.old.me.0 (note_of giver.old.me.0), [])) }
{
    let from_giver = entries.split_seat::<WriteNote>(giver);
    let from_drawer = entries.split_seat::<WriteNote>(drawer);
    entries.join_seat::<ReadNote>(giver, from_drawer);
    entries.join_seat::<ReadNote>(drawer, from_giver);
}

impl Giver {
    /// Gives a chunk back, cleared.
    ///
    /// `Unread` comes where the entry still holds a number that was drawn and not collected; then the chunk comes back as
    /// it was, with its lease, and there is no event. `Missed` comes where the number that would be published was drawn
    /// before; then the chunk comes back clear, with its lease. It neither waits nor takes memory.
    pub fn give(&mut self, held: Held<Lease>) -> Given<Lease>
        requires pool { held.lease.pool ≡ self.old.pool }
        requires size { held.chunk.size ≡ self.old.size }
        ensures given { Gives self.old held result self.new }
        // Answers with a stamp never come to more than these.
        ensures few { length (answers_in self.new.turns) ≤ MAX_PUBLISHED }
    {
        let board = &self.board;
        let given = give_to(
            &board.shared,
            &mut self.place,
            self.buffers,
            self.published,
            held,
        );
        match &given {
            Given::Given { .. } => self.published += 1,
            Given::Missed { .. } => {
                self.published += 1;
                self.misses += 1;
            }
            Given::Unread { .. } => {}
        }
        given
    }

    /// Brings a drawer of the same pool and the giver together: from here on both answer higher stamps than any that either
    /// has had, and the giver knows of the draws that this drawer made.
    pub fn meet(&mut self, drawer: &mut Drawer)
        requires { drawer.old.pool ≡ self.old.pool }
        ensures { Meets self.old drawer.old self.new drawer.new }
    {
        let board = &self.board;
        meet_at(&board.shared, &mut self.place, &mut drawer.place);
    }
}
