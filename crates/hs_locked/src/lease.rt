//! The lease of a chunk.
ghost use Rattle.std.specs.Prelude.{◌≡◌, []};
ghost use Rattle.hs_locked.specs.Views.{lease_of, without_lease, with_lease};
ghost use Rattle.hs_ring.specs.Seats.{IsSameSeat};
ghost use Rattle.hs_locked.specs.Seats.{IsSeatAt, CanLease, IsLease, IsFree, StandsAway, stand_of};

use crate::board::{Place, Words};
use crate::plays::{MakeLease, TakeLease};
use hs_words::Token;
use std::marker::Model;

/// The right to write one chunk of a locked pool. A draw makes it, and a give or the closing of the pool spends it.
///
/// Contracts see it as its pool, the number of the chunk, and the stamp of the draw that made it.
#[derive(Drop)]
pub struct LockedLease {
    pub(crate) place: Place,
}

impl Model for LockedLease {
    ghost use Rattle.hs_ring.specs.Parts.{Leased};

    ghost Value = { Leased };

    ghost use Rattle.hs_locked.specs.Seats.{lease_at, IsLeaseSeat};

    ghost view = { λ s. lease_at s.place };

    ghost invariant = { λ s. IsLeaseSeat s.place };
}

impl Token for LockedLease {
    ghost use Rattle.std.specs.Prelude.{◌==◌, Some};

    ghost fits = { λ lease number. lease.buffer == number };

    ghost pool = { λ lease. Some lease.pool };
}

/// Makes a lease of the buffer that the seat has.
pub fn make_lease(words: &Words, place: &mut Place) -> Place
    requires seat { IsSeatAt words.now.table_id place.old }
    requires can { CanLease place.old.me.0 × StandsAway (stand_of place.old.me.0) }
    ensures seat { IsSameSeat place.old place.new }
    ensures did { place.new.me ≡ (without_lease place.old.me.0, place.old.me.1) }
    ensures lease { (result.table_id ≡ place.old.table_id) × (result.me ≡ (lease_of place.old.me.0, [])) }
{
    words.split_seat::<MakeLease>(place)
}

/// The giver takes a lease back.
pub fn take_lease(words: &Words, place: &mut Place, lease: Place)
    requires seat { IsSeatAt words.now.table_id place.old }
    requires can { IsFree place.old }
    requires lease { IsSeatAt words.now.table_id lease × IsLease lease.me.0 × (lease.me.1 ≡ []) }
    ensures seat { IsSameSeat place.old place.new }
    ensures did { place.new.me ≡ (with_lease place.old.me.0 lease.me.0, place.old.me.1) }
{
    words.join_seat::<TakeLease>(place, lease);
}
