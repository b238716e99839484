//! How a ring is closed.
ghost use Rattle.std.specs.Prelude.{◌≡◌, ℕ, suc, ◌+◌, ◌*◌, ◌-◌, ◌^◌, ◌≤◌, ◌<◌, [], length};
ghost use Rattle.std.specs.List.{AllByRecursion};
ghost use Rattle.hs_ring.specs.Views.{giver_seat_of};
ghost use Rattle.hs_ring.specs.Parts.{AreInOrder, AreAllEnds, Closes, ClosesInTurn, GivesInTurn, answers_of_all};
ghost use Rattle.hs_ring.specs.Seats.{IsSeatAt, IsFree, IsSameSeat, name_of};
ghost use Rattle.hs_words.specs.Ends.{IsTogether, Counts as Counted, events_of};
ghost use Rattle.hs_ring.specs.Making.{closed_giver_seat};

use crate::board::{Entries, Place};
use crate::counts::Counts;
use crate::drawer::Drawer;
use crate::giver::Giver;
use crate::lease::Lease;
use crate::plays::{CloseDrawer, Look};
use hs_base::List;
use hs_words::{Held, Tally};

/// Takes the drawers in, the last first.
fn close_drawers(entries: &Entries, place: &mut Place, mut drawers: List<Drawer>)
    requires at { IsSeatAt entries.now.table_id place.old }
    requires free { IsFree place.old }
    requires order { AreInOrder (name_of entries.now.table_id) 0 drawers.items }
    requires all { length drawers.items ≡ (giver_seat_of place.old.me.0).made }
    requires none_closed { (giver_seat_of place.old.me.0).closed ≡ [] }
    ensures seat { IsSameSeat place.old place.new }
    ensures free { IsFree place.new }
    ensures closed { giver_seat_of place.new.me.0 ≡ closed_giver_seat (giver_seat_of place.old.me.0) (answers_of_all drawers.items) }
{
    while let Some(drawer) = drawers.pop() {
        let Drawer {
            board: _,
            place: seat,
            most: _,
            left: _,
            buffers: _,
        } = drawer;
        entries.join_seat::<CloseDrawer>(place, seat);
    }
}

/// What the counts at the end say, with the misses.
fn tally_of(counts: Counts, buffers: u32, misses: u64) -> Tally
    requires empties { misses + (counts.drawn - counts.published) ≤ counts.drawn }
    requires gives { buffers + misses ≤ counts.published }
    ensures gots { result.gots + result.empties ≡ counts.drawn }
    ensures empties { result.empties ≡ misses + (counts.drawn - counts.published) }
    ensures gives { result.gives + buffers + misses ≡ counts.published }
    ensures misses { result.misses ≡ misses }
{
    let void = counts.drawn.saturating_sub(counts.published);
    let empties = misses + void;
    Tally {
        gots: counts.drawn - empties,
        empties,
        gives: counts.published - u64::from(buffers) - misses,
        misses,
    }
}

/// The tally of a ring whose drawers were taken in.
fn count(entries: &Entries, place: &mut Place, buffers: u32, misses: u64) -> Tally
    requires at { IsSeatAt entries.now.table_id place.old }
    requires free { IsFree place.old }
    requires halves { 2 * buffers ≡ entries.now.table_id.slots }
    requires misses { misses ≡ (giver_seat_of place.old.me.0).misses }
    requires all { (giver_seat_of place.old.me.0).made ≡ length (giver_seat_of place.old.me.0).closed }
    ensures { (log : _) × IsTogether buffers (giver_seat_of place.old.me.0).turns (giver_seat_of place.old.me.0).closed log × Counted log result × GivesInTurn (events_of log) }
{
    let counts = Counts::of(entries.load::<Look>(place, 0));
    tally_of(counts, buffers, misses)
}

/// Takes all ends in, and counts what they answered.
fn close_ends(giver: Giver, drawers: List<Drawer>) -> Tally
    requires { AreAllEnds giver drawers.items }
    ensures { ClosesInTurn giver drawers.items result }
{
    let Giver {
        board,
        mut place,
        buffers,
        published: _,
        misses,
    } = giver;
    let entries = &board.shared;
    close_drawers(entries, &mut place, drawers);
    count(entries, &mut place, buffers, misses)
}

/// Closes a pool. It wants the giver, all drawers as `make` numbered them, and whatever leased chunks the caller still has. Answers how many answers of each kind all ends gave. It neither
/// waits nor takes memory.
pub fn close(giver: Giver, drawers: List<Drawer>, rest: List<Held<Lease>>) -> Tally
    requires ends { AreAllEnds giver drawers.items }
    requires rest { AllByRecursion (λ held. held.lease.pool ≡ giver.pool) rest.items }
    ensures history { Closes giver drawers.items result }
    ensures turns { ClosesInTurn giver drawers.items result }
{
    let _ = rest;
    close_ends(giver, drawers)
}
