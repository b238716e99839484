//! The end that gives.
ghost use Rattle.std.specs.Prelude.{◌≡◌, []};
ghost use Rattle.hs_ring.specs.Parts.{Gives, Meets};
ghost use Rattle.hs_ring.specs.Seats.{name_of, IsSameSeat};
ghost use Rattle.hs_locked.specs.Views.{drawer_seat_of, giver_seat_of, note_of, having_heard};
ghost use Rattle.hs_locked.specs.Seats.{IsSeatAt, IsIdle, IsFree, IsGiverSeat, IsGiven, giving_of};

use crate::board::{Place, Words};
use crate::drawer::LockedDrawer;
use crate::lease::{LockedLease, take_lease};
use crate::lock::TicketLock;
use crate::plays::{ReadNote, WriteNote};
use hs_words::{Given, Held};
use std::marker::Model;
use std::sync::{Arc, Wait};

/// The end of a locked pool that gives. It can move to another thread.
///
/// Contracts see it as they see a ring's: its pool, how many chunks that has and their size, how many drawers it has, its
/// floor, and its turns, of which the last stands first.
#[derive(Drop)]
pub struct LockedGiver {
    pub(crate) lock: Arc<TicketLock>,
    pub(crate) place: Place,
}

impl Model for LockedGiver {
    ghost use Rattle.std.specs.Arc.{arc_value};
    ghost use Rattle.hs_ring.specs.Parts.{Giving};

    ghost Value = { Giving };

    ghost use Rattle.hs_locked.specs.Views.{giver_seat_of};
    ghost use Rattle.hs_locked.specs.Seats.{giving_of, IsGiverSeat};

    ghost view = { λ s. giving_of s.place.table_id (giver_seat_of s.place.me.0) };

    ghost invariant = { λ s. IsGiverSeat (arc_value s.lock).board.shared.table_id s.place };
}

/// Gives a chunk in a turn of its own. Its lease is spent.
fn give_in_turn<R: Wait>(
    rt: &R,
    lock: &TicketLock,
    place: &mut Place,
    held: Held<LockedLease>,
) -> Given<LockedLease>
    requires seat { IsGiverSeat lock.now.board.shared.table_id place.old }
    requires pool { held.lease.pool ≡ name_of lock.now.board.shared.table_id }
    requires size { held.chunk.size ≡ (giver_seat_of place.old.me.0).size }
    ensures same { IsSameSeat place.old place.new }
    ensures seat { IsGiverSeat lock.now.board.shared.table_id place.new }
    ensures given { Gives (giving_of place.old.table_id (giver_seat_of place.old.me.0)) held result (giving_of place.new.table_id (giver_seat_of place.new.me.0)) }
    ensures always { IsGiven result }
{
    let Held { chunk, lease } = held;
    let LockedLease { place: lease } = lease;
    take_lease(&lock.board.shared, place, lease);
    lock.enter(rt, place);
    let store = place.slot_mut(&lock.board.shared, 0);
    let stamp = store.give(chunk);
    lock.leave(place);
    Given::Given { stamp }
}

/// Each of two ends hears of what the other knows.
fn meet_at(words: &Words, giver: &mut Place, drawer: &mut Place)
    requires giver { IsSeatAt words.now.table_id giver.old × IsFree giver.old }
    requires drawer { IsSeatAt words.now.table_id drawer.old × IsIdle drawer.old }
    ensures giver { IsSameSeat giver.old giver.new × (giver.new.me ≡ (having_heard giver.old.me.0 (note_of drawer.old.me.0), [])) }
    ensures drawer { IsSameSeat drawer.old drawer.new × (drawer.new.me ≡ (having_heard drawer.old.me.0 (note_of giver.old.me.0), [])) }
{
    let from_giver = words.split_seat::<WriteNote>(giver);
    let from_drawer = words.split_seat::<WriteNote>(drawer);
    words.join_seat::<ReadNote>(giver, from_drawer);
    words.join_seat::<ReadNote>(drawer, from_giver);
}

impl LockedGiver {
    /// Waits for a turn, and gives a chunk back. The pool always takes it: it is cleared, and its lease is spent. The draw
    /// behind that lease has a lower stamp, and the floor is no higher. It takes no memory.
    pub fn give<R: Wait>(&mut self, rt: &R, held: Held<LockedLease>) -> Given<LockedLease>
        requires pool { held.lease.pool ≡ self.old.pool }
        requires size { held.chunk.size ≡ self.old.size }
        ensures given { Gives self.old held result self.new }
        ensures always { IsGiven result }
    {
        let lock = &self.lock;
        give_in_turn(rt, lock, &mut self.place, held)
    }

    /// Brings a drawer of the same pool and the giver together: whatever either has been answered so far, both are answered
    /// higher stamps from now on. It does not wait.
    pub fn meet(&mut self, drawer: &mut LockedDrawer)
        requires { drawer.old.pool ≡ self.old.pool }
        ensures { Meets self.old drawer.old self.new drawer.new }
    {
        let lock = &self.lock;
        meet_at(&lock.board.shared, &mut self.place, &mut drawer.place);
    }
}
