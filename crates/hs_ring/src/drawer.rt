//! The end that draws.
ghost use Rattle.std.specs.Prelude.{◌≡◌, ◌+◌, ◌-◌, ◌*◌, ◌<◌, ◌≤◌, MatchBool};
ghost use Rattle.hs_ring.specs.Views.{drawer_seat_of};
ghost use Rattle.hs_ring.specs.Parts.{Draws, DrawsAs, Refills};
ghost use Rattle.hs_ring.specs.Seats.{IsDrawerSeat, IsSameSeat, drawing_of};

use crate::board::{Board, Entries, Place};
use crate::counts::{Counts, entry_of};
use crate::lease::Lease;
use crate::plays::Refill;
use crate::steps::{collect, draw_number, make_lease};
use hs_base::limits::{MOST_AHEAD, MOST_DRAWS};
use hs_words::{Drawn, Held};
use std::marker::Model;
use std::sync::Arc;

/// An end of a ring that draws. It can move to another thread.
///
/// Contracts see it as its pool, how many chunks that has and their size, its own number, its whole allowance and what that has
/// left, its floor, and its answers, of which the last stands first.
#[derive(Drop)]
pub struct Drawer {
    pub(crate) board: Arc<Board>,
    pub(crate) place: Place,
    pub(crate) most: u32,
    pub(crate) left: u32,
    pub(crate) buffers: u32,
}

impl Model for Drawer {
    ghost use Rattle.std.specs.Arc.{arc_value};
    ghost use Rattle.hs_ring.specs.Parts.{Drawing};

    ghost Value = { Drawing };

    ghost use Rattle.hs_ring.specs.Views.{drawer_seat_of};
    ghost use Rattle.hs_ring.specs.Seats.{drawing_of, IsDrawerSeat};

    ghost view = { λ s. drawing_of s.place.table_id s.buffers (drawer_seat_of s.place.me.0) };

    ghost invariant = { λ s. IsDrawerSeat (arc_value s.board).shared.table_id s.place s.buffers s.most s.left };
}

/// Draws a number, and takes its chunk where there is one, with a lease of this mark.
fn draw_from(
    entries: &Entries,
    place: &mut Place,
    buffers: u32,
    most: u32,
    left: u32,
    mark: u64,
) -> Drawn<Lease>
    requires seat { IsDrawerSeat entries.now.table_id place.old buffers most left }
    requires left { 1 ≤ left }
    ensures same { IsSameSeat place.old place.new }
    ensures seat { IsDrawerSeat entries.now.table_id place.new buffers most (left - 1) }
    ensures drawn { DrawsAs mark (drawing_of place.old.table_id buffers (drawer_seat_of place.old.me.0)) result (drawing_of place.new.table_id buffers (drawer_seat_of place.new.me.0)) }
{
    let counts = Counts::of(draw_number(entries, place));
    let stamp = counts.stamp(buffers);
    if counts.published <= counts.drawn {
        return Drawn::Empty { stamp };
    }
    let chunk = collect(entries, place, entry_of(counts.drawn, buffers));
    let lease = Lease {
        place: make_lease(entries, place),
        mark,
    };
    Drawn::Got {
        held: Held { chunk, lease },
        stamp,
    }
}

/// Looks at the counts, and answers whether no void number stands out and the pool's life has draws for all allowances. Where
/// it does, the seat has its whole allowance from then on.
fn refill_from(entries: &Entries, place: &mut Place, buffers: u32, most: u32, left: u32) -> bool
    requires { IsDrawerSeat entries.now.table_id place.old buffers most left }
    ensures same { IsSameSeat place.old place.new }
    ensures seat { MatchBool result (IsDrawerSeat entries.now.table_id place.new buffers most most) (IsDrawerSeat entries.now.table_id place.new buffers most left) }
    ensures refilled { Refills (drawing_of place.old.table_id buffers (drawer_seat_of place.old.me.0)) result (drawing_of place.new.table_id buffers (drawer_seat_of place.new.me.0)) }
{
    let counts = Counts::of(entries.load::<Refill>(place, 0));
    counts.drawn <= counts.published && counts.drawn + u64::from(MOST_AHEAD) <= MOST_DRAWS
}

impl Drawer {
    /// The draws that the allowance still has.
    pub fn left(&self) -> u32
        ensures { result ≡ self.now.left }
    {
        self.left
    }

    /// The draws of the whole allowance.
    pub fn most(&self) -> u32
        ensures { result ≡ self.now.most }
    {
        self.most
    }

    /// Looks at the counts of the pool, and makes the allowance whole again where no void number stands out and the pool's life
    /// has draws for the allowances of all drawers. Otherwise nothing changes. It answers which of both, is no event of the
    /// pool, and neither waits nor takes memory.
    pub fn refill(&mut self) -> bool
        ensures { Refills self.old result self.new }
    {
        let board = &self.board;
        let is_whole = refill_from(
            &board.shared,
            &mut self.place,
            self.buffers,
            self.most,
            self.left,
        );
        if is_whole {
            self.left = self.most;
        }
        is_whole
    }

    /// Draws the chunk that waits longest, clear and with a lease of its own, or answers that none waits. The stamp is
    /// the draw's place in the history of the pool, and not below the floor. It neither waits nor takes memory.
    pub fn draw(&mut self) -> Drawn<Lease>
        requires { 1 ≤ self.old.left }
        ensures { Draws self.old result self.new }
    {
        self.draw_marked(0)
    }

    /// Draws the chunk that waits longest, clear, with a lease that bears this mark, or answers that none waits. Apart from the
    /// mark it is as `draw`, whose leases have mark 0: the stamp is the draw's place in the history of the pool, and it neither
    /// waits nor takes memory.
    pub fn draw_marked(&mut self, mark: u64) -> Drawn<Lease>
        requires { 1 ≤ self.old.left }
        ensures { DrawsAs mark self.old result self.new }
    {
        let board = &self.board;
        let drawn = draw_from(
            &board.shared,
            &mut self.place,
            self.buffers,
            self.most,
            self.left,
            mark,
        );
        self.left -= 1;
        drawn
    }
}
