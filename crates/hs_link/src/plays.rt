//! What each step on the table tells its caller. These types are for the proofs alone.
ghost use Rattle.hs_link.specs.Ring.{looked_to_put, did_put, looked_to_take, did_take, passed, settled, first_sender, first_receiver, told_put, told_taken, heard, met};
ghost use Rattle.hs_link.specs.declared.board.View.TheVariants.{Nobody};

use crate::board::{Fact, View};
use atomic_table::{Join, Play, Split};

/// The sender looks at the next entry, and takes its slot where the entry is free.
pub struct LookToPut;

impl<T, F> Play<Option<T>, View<T, F>> for LookToPut {
    ghost then = { looked_to_put };
}

/// The sender gives the slot back, with an item.
pub struct Put;

impl<T, F> Play<Option<T>, View<T, F>> for Put {
    ghost then = { did_put };
}

/// The receiver looks at the next entry, and takes its slot where the entry is full.
pub struct LookToTake;

impl<T, F: Fact<T>> Play<Option<T>, View<T, F>> for LookToTake {
    ghost then = { looked_to_take F.holds };
}

/// The receiver gives the slot back, empty.
pub struct Take;

impl<T, F> Play<Option<T>, View<T, F>> for Take {
    ghost then = { did_take };
}

/// The sender has met the receiver, and goes on with what it had heard before.
pub struct Pass;

impl<T, F> Play<Option<T>, View<T, F>> for Pass {
    ghost then = { passed };
}

/// The sender has met the receiver, and has heard of all that was received.
pub struct Settle;

impl<T, F> Play<Option<T>, View<T, F>> for Settle {
    ghost then = { settled };
}

/// The two ends are made of the whole.
pub struct MakeEnds;

impl<T, F> Split<View<T, F>> for MakeEnds {
    ghost left = { first_sender };

    ghost right = { first_receiver };
}

/// The sender writes a note of what it put.
pub struct NotePut;

impl<T, F> Split<View<T, F>> for NotePut {
    ghost left = { λ v. v };

    ghost right = { told_put };
}

/// The receiver writes a note of what it received.
pub struct NoteTaken;

impl<T, F> Split<View<T, F>> for NoteTaken {
    ghost left = { λ v. v };

    ghost right = { told_taken };
}

/// The receiver reads a note of what was put.
pub struct Hear;

impl<T, F> Join<View<T, F>> for Hear {
    ghost both = { heard };

    ghost spent = { Nobody };
}

/// The sender reads a note of what was received.
pub struct Meet;

impl<T, F> Join<View<T, F>> for Meet {
    ghost both = { met };

    ghost spent = { Nobody };
}
