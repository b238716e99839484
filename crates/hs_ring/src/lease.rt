//! The lease of a chunk.
ghost use Rattle.std.specs.Prelude.{◌≡◌, []};

use crate::board::Place;
use hs_words::Token;
use std::marker::Model;

/// The right to write one chunk of a ring. A draw makes it, and a give or the closing of the pool spends it.
///
/// Contracts see it as its pool, the number of the chunk, the stamp of the draw that made it, and its mark: a number that it was
/// drawn with, or 0. The pool does not read the mark.
#[derive(Drop)]
pub struct Lease {
    pub(crate) place: Place,
    pub(crate) mark: u64,
}

impl Model for Lease {
    ghost use Rattle.std.specs.Prelude.{◌≡◌, []};
    ghost use Rattle.hs_ring.specs.Parts.{Leased};

    ghost Value = { Leased };

    ghost use Rattle.hs_ring.specs.Seats.{lease_at, IsLeaseSeat};

    ghost view = { λ s. lease_at s.mark s.place };

    ghost invariant = { λ s. IsLeaseSeat s.place };
}

impl Lease {
    /// The number that it was drawn with, or 0.
    pub fn mark(&self) -> u64
        ensures { result ≡ self.now.mark }
    {
        self.mark
    }
}

impl Token for Lease {
    ghost use Rattle.std.specs.Prelude.{◌==◌, Some};

    ghost fits = { λ lease number. lease.buffer == number };

    ghost pool = { λ lease. Some lease.pool };
}
