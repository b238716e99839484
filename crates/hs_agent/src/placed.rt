//! Leases with the places of their chunks.

ghost use Rattle.std.specs.Prelude.{ℕ, Bool, Option};
ghost use Rattle.hs_words.specs.Pools.{PoolName};

use hs_words::Token;

/// A chunk's place in the order of arrival.
#[derive(Clone, Copy)]
pub struct ArrivalPlace(pub u64);

/// The lease with which a chunk came last, and the chunk's place in the order of arrival. In the index and among the pins the
/// chunk has both, so chunks with equal pages are told apart there.
#[derive(Drop)]
pub struct Tagged<L: Token> {
    pub lease: L,
    pub place: ArrivalPlace,
}

impl<L: Token> Token for Tagged<L> {
    ghost fits = { λ tagged number. L.fits tagged.lease number };

    ghost pool = { λ tagged. L.pool tagged.lease };
}
