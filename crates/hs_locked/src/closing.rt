//! How a locked pool is closed.
ghost use Rattle.std.specs.Prelude.{◌≡◌, [], length};
ghost use Rattle.std.specs.List.{AllByRecursion};
ghost use Rattle.hs_words.specs.Ends.{IsTogether, Counts};
ghost use Rattle.hs_ring.specs.Parts.{AreInOrder, AreAllEnds, Closes, answers_of_all};
ghost use Rattle.hs_ring.specs.Seats.{name_of, IsSameSeat};
ghost use Rattle.hs_locked.specs.Views.{giver_seat_of};
ghost use Rattle.hs_locked.specs.Seats.{IsSeatAt, IsFree};
ghost use Rattle.hs_locked.specs.Making.{closed_giver_seat};

use crate::board::{Place, TURNS, Words};
use crate::drawer::LockedDrawer;
use crate::giver::LockedGiver;
use crate::lease::LockedLease;
use crate::plays::{CloseDrawer, TakeLast};
use hs_base::List;
use hs_words::{Held, Tally};

/// Takes the drawers in, the last first.
fn close_drawers(words: &Words, place: &mut Place, mut drawers: List<LockedDrawer>)
    requires at { IsSeatAt words.now.table_id place.old }
    requires free { IsFree place.old }
    requires order { AreInOrder (name_of words.now.table_id) 0 drawers.items }
    requires all { length drawers.items ≡ (giver_seat_of place.old.me.0).made }
    requires none_closed { (giver_seat_of place.old.me.0).closed ≡ [] }
    ensures seat { IsSameSeat place.old place.new }
    ensures free { IsFree place.new }
    ensures closed { giver_seat_of place.new.me.0 ≡ closed_giver_seat (giver_seat_of place.old.me.0) (answers_of_all drawers.items) }
{
    while let Some(drawer) = drawers.pop() {
        let LockedDrawer {
            lock: _,
            place: seat,
            left: _,
        } = drawer;
        words.join_seat::<CloseDrawer>(place, seat);
    }
}

/// The tally of a pool whose drawers were taken in.
fn take_tally(words: &Words, mut place: Place) -> Tally
    requires at { IsSeatAt words.now.table_id place }
    requires free { IsFree place }
    requires all { (giver_seat_of place.me.0).made ≡ length (giver_seat_of place.me.0).closed }
    ensures together { (log : _) × IsTogether (giver_seat_of place.me.0).buffers (giver_seat_of place.me.0).turns (giver_seat_of place.me.0).closed log × Counts log result }
    ensures misses { result.misses ≡ 0 }
{
    words.load::<TakeLast>(&mut place, TURNS);
    place.slot_mut(words, 0).tally
}

/// Closes a pool, for which all its ends come together, the drawers as they stood in what `make` answered. The rest is what
/// of its chunks is still out, leases and all. Answers how many answers of each kind the ends had, of which none is a miss.
/// It neither waits nor takes memory.
pub fn close(
    giver: LockedGiver,
    drawers: List<LockedDrawer>,
    rest: List<Held<LockedLease>>,
) -> Tally
    requires ends { AreAllEnds giver drawers.items }
    requires rest { AllByRecursion (λ held. held.lease.pool ≡ giver.pool) rest.items }
    ensures together { Closes giver drawers.items result }
    ensures misses { result.misses ≡ 0 }
{
    let _ = rest;
    let LockedGiver { lock, mut place } = giver;
    let words = &lock.board.shared;
    close_drawers(words, &mut place, drawers);
    take_tally(words, place)
}
