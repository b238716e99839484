//! The ticket lock: each caller draws a number and waits until it is called, so the turns come in the order of the tickets.
ghost use Rattle.std.specs.Prelude.{◌≡◌, ℕ, [], ◌∷◌};
ghost use Rattle.hs_locked.specs.Views.{queued, inside, standing, ticket_of, event_of, having_left, size_of};
ghost use Rattle.hs_locked.specs.Stored.{GoesOn};
ghost use Rattle.hs_locked.specs.Steps.{Finds};
ghost use Rattle.hs_ring.specs.Seats.{IsSameSeat};
ghost use Rattle.hs_locked.specs.Seats.{IsSeatAt, MayTurn, StandsAway, StandsQueued, StandsInside, stand_of};

use crate::board::{Board, Place, TICKETS, TURNS};
use crate::plays::{LeaveTurn, LookAtTurn, TakeTicket};
use crate::store::Store;
use std::sync::Wait;
use std::thread;

/// A store that one end has at a time.
#[derive(Drop)]
pub struct TicketLock {
    pub board: Board,
}

impl TicketLock {
    /// Takes a ticket.
    fn take_ticket(&self, place: &mut Place) -> u64
        requires at { IsSeatAt self.now.board.shared.table_id place.old }
        requires can { MayTurn place.old.me.0 × StandsAway (stand_of place.old.me.0) }
        ensures same { IsSameSeat place.old place.new }
        ensures did { place.new.me ≡ (standing place.old.me.0 (queued result), place.old.me.1) }
    {
        self.board.shared.fetch_add::<TakeTicket>(place, TICKETS, 1)
    }

    /// Waits for the turn of the ticket.
    fn wait_for<R: Wait>(&self, rt: &R, place: &mut Place, ticket: u64)
        requires at { IsSeatAt self.now.board.shared.table_id place.old }
        requires can { MayTurn place.old.me.0 × StandsQueued (stand_of place.old.me.0) × (place.old.me.1 ≡ []) }
        requires ticket { ticket ≡ ticket_of place.old.me.0 }
        ensures same { IsSameSeat place.old place.new }
        ensures found { (store : _) × (place.new.me ≡ (standing place.old.me.0 (inside store), (0, store) ∷ [])) × Finds place.old.me.0 store }
    {
        for _ in rt.forever() {
            if self.board.shared.load::<LookAtTurn>(place, TURNS) == ticket {
                return;
            }
            thread::yield_now();
        }
        unreachable!()
    }

    /// Takes a ticket, and waits for its turn. Then the caller has the store.
    pub fn enter<R: Wait>(&self, rt: &R, place: &mut Place)
        requires at { IsSeatAt self.now.board.shared.table_id place.old }
        requires can { MayTurn place.old.me.0 × StandsAway (stand_of place.old.me.0) × (place.old.me.1 ≡ []) }
        ensures same { IsSameSeat place.old place.new }
        ensures found { (store : _) × (place.new.me ≡ (standing place.old.me.0 (inside store), (0, store) ∷ [])) × Finds place.old.me.0 store }
    {
        let ticket = self.take_ticket(place);
        self.wait_for(rt, place, ticket);
    }

    /// Gives the store back after one event, and ends the turn.
    pub fn leave(&self, place: &mut Place)
        requires at { IsSeatAt self.now.board.shared.table_id place.old }
        requires can { MayTurn place.old.me.0 }
        requires one_event { (old new : Store) × StandsInside old (stand_of place.old.me.0) × (place.old.me.1 ≡ (0, new) ∷ []) × GoesOn (size_of place.old.me.0) old (event_of place.old.me.0) new }
        ensures same { IsSameSeat place.old place.new }
        ensures did { place.new.me ≡ (having_left place.old.me.0, []) }
    {
        self.board.shared.fetch_add::<LeaveTurn>(place, TURNS, 1);
    }
}
