//! The end that draws.
ghost use Rattle.std.specs.Prelude.{◌≡◌, ◌-◌, ◌≤◌};
ghost use Rattle.hs_ring.specs.Parts.{Draws};
ghost use Rattle.hs_locked.specs.Views.{drawer_seat_of};
ghost use Rattle.hs_ring.specs.Seats.{IsSameSeat};
ghost use Rattle.hs_locked.specs.Seats.{IsDrawerSeat, drawing_of};

use crate::board::Place;
use crate::lease::{LockedLease, make_lease};
use crate::lock::TicketLock;
use hs_words::{Drawn, Held};
use std::marker::Model;
use std::sync::{Arc, Wait};

/// An end of a locked pool that draws. It can move to another thread.
///
/// Contracts see it as they see a ring's: its pool, how many chunks that has and their size, its own number, its
/// whole allowance and what that has left, its floor, and its answers, of which the last stands first. No call makes an allowance
/// whole again.
#[derive(Drop)]
pub struct LockedDrawer {
    pub(crate) lock: Arc<TicketLock>,
    pub(crate) place: Place,
    pub(crate) left: u32,
}

impl Model for LockedDrawer {
    ghost use Rattle.std.specs.Arc.{arc_value};
    ghost use Rattle.hs_ring.specs.Parts.{Drawing};

    ghost Value = { Drawing };

    ghost use Rattle.hs_locked.specs.Views.{drawer_seat_of};
    ghost use Rattle.hs_locked.specs.Seats.{drawing_of, IsDrawerSeat};

    ghost view = { λ s. drawing_of s.place.table_id (drawer_seat_of s.place.me.0) };

    ghost invariant = { λ s. IsDrawerSeat (arc_value s.lock).board.shared.table_id s.place s.left };
}

/// Draws in a turn of its own, and makes a lease of what it got.
fn draw_in_turn<R: Wait>(
    rt: &R,
    lock: &TicketLock,
    place: &mut Place,
    left: u32,
) -> Drawn<LockedLease>
    requires seat { IsDrawerSeat lock.now.board.shared.table_id place.old left }
    requires left { 1 ≤ left }
    ensures same { IsSameSeat place.old place.new }
    ensures seat { IsDrawerSeat lock.now.board.shared.table_id place.new (left - 1) }
    ensures drawn { Draws (drawing_of place.old.table_id (drawer_seat_of place.old.me.0)) result (drawing_of place.new.table_id (drawer_seat_of place.new.me.0)) }
{
    lock.enter(rt, place);
    let store = place.slot_mut(&lock.board.shared, 0);
    let drawn = store.draw();
    lock.leave(place);
    match drawn {
        Drawn::Got { held, stamp } => {
            let Held { chunk, lease: () } = held;
            let lease = LockedLease {
                place: make_lease(&lock.board.shared, place),
            };
            Drawn::Got {
                held: Held { chunk, lease },
                stamp,
            }
        }
        Drawn::Empty { stamp } => Drawn::Empty { stamp },
    }
}

impl LockedDrawer {
    /// The draws that the allowance still has. It does not wait.
    pub fn left(&self) -> u32
        ensures { result ≡ self.now.left }
    {
        self.left
    }

    /// Waits for a turn, and draws the chunk that waits longest, clear and with a lease of its own, or answers that none
    /// waits. The stamp is the draw's place in the history of the pool, and not below the floor. It takes no memory.
    pub fn draw<R: Wait>(&mut self, rt: &R) -> Drawn<LockedLease>
        requires { 1 ≤ self.old.left }
        ensures { Draws self.old result self.new }
    {
        let lock = &self.lock;
        let drawn = draw_in_turn(rt, lock, &mut self.place, self.left);
        self.left -= 1;
        drawn
    }
}
