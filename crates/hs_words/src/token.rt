//! The right to write a chunk, and what a pool answers when chunks leave it and come back.

ghost use Rattle.std.specs.Prelude.{ℕ, Bool, true, Option, None, IsTrue};
ghost use Rattle.hs_words.specs.Pools.{PoolName};

use crate::chunk::Chunk;

/// The most numbers that a giver publishes. Each answer with a stamp publishes one, and so does each buffer that a pool begins with.
pub const MAX_PUBLISHED: u64 = 1_099_511_693_311;

/// The right to write one chunk, which whoever has the token has. It can only be handed on, so it has no calls.
pub trait Token: Drop {
    // Whether this is the right to write the chunk of this number.
    ghost fits: { Self → ℕ → Bool };

    // The pool that gave the right, by its name; some rights are nobody's gift.
    ghost pool: { Self → Option PoolName };
}

/// A right to any chunk, for whoever needs no pool: a test, or a run with one owner.
impl Token for () {
    ghost fits = { λ _ n. true };

    ghost pool = { λ _. None };
}

/// A chunk in the hands of someone who may write it.
#[derive(Drop)]
pub struct Held<L: Token> {
    pub chunk: Chunk,
    pub lease: L,
    pub ghost fits: { IsTrue (L.fits lease chunk.number) },
}

/// What became of a draw. The stamp says when: the pool's events are numbered from 0 as they happen.
#[derive(Drop)]
pub enum Drawn<L: Token> {
    Got { held: Held<L>, stamp: u64 },
    Empty { stamp: u64 },
}

/// What became of a give. A chunk that the pool did not take comes back with its lease.
#[derive(Drop)]
pub enum Given<L: Token> {
    Given { stamp: u64 },
    Missed { held: Held<L>, stamp: u64 },
    Unread { held: Held<L> },
}

/// The answers that all ends of a pool gave, counted by kind.
#[derive(Clone, Copy, Debug, PartialEq, Eq)]
pub struct Tally {
    pub gots: u64,
    pub empties: u64,
    pub gives: u64,
    pub misses: u64,
}
