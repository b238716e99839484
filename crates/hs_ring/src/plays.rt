//! What each step on the table tells its caller. These types are for the proofs alone.
ghost use Rattle.hs_ring.specs.Views.{nobody, same, note_of, lease_of, without_lease, with_lease, having_heard, with_drawer, new_drawer, having_closed};
ghost use Rattle.hs_ring.specs.Steps.{did_draw, did_collect, did_lay, did_publish, did_retake, did_refill, did_look};

use crate::board::View;
use atomic_table::{Join, Play, Split};
use hs_words::Chunk;

/// A drawer draws a number.
pub struct DrawNumber;

impl Play<Option<Chunk>, View> for DrawNumber {
    ghost then = { did_draw };
}

/// A drawer frees the entry of its number.
pub struct Collect;

impl Play<Option<Chunk>, View> for Collect {
    ghost then = { did_collect };
}

/// The giver lays its number, or finds the entry in use.
pub struct Lay;

impl Play<Option<Chunk>, View> for Lay {
    ghost then = { did_lay };
}

/// The giver publishes a number.
pub struct Publish;

impl Play<Option<Chunk>, View> for Publish {
    ghost then = { did_publish };
}

/// The giver takes a number back that was void.
pub struct Retake;

impl Play<Option<Chunk>, View> for Retake {
    ghost then = { did_retake };
}

/// A drawer looks at the counts, and its allowance is whole again or stays.
pub struct Refill;

impl Play<Option<Chunk>, View> for Refill {
    ghost then = { did_refill };
}

/// The giver looks at the counts when all drawers were closed.
pub struct Look;

impl Play<Option<Chunk>, View> for Look {
    ghost then = { did_look };
}

/// An end makes a lease of the buffer that it has.
pub struct MakeLease;

impl Split<View> for MakeLease {
    ghost left = { without_lease };

    ghost right = { lease_of };
}

/// The giver takes a lease back.
pub struct TakeLease;

impl Join<View> for TakeLease {
    ghost both = { with_lease };

    ghost spent = { nobody };
}

/// An end writes a note of what it knows.
pub struct WriteNote;

impl Split<View> for WriteNote {
    ghost left = { same };

    ghost right = { note_of };
}

/// An end reads a note of another.
pub struct ReadNote;

impl Join<View> for ReadNote {
    ghost both = { having_heard };

    ghost spent = { nobody };
}

/// A drawer is made, with the next allowance.
pub struct MakeDrawer;

impl Split<View> for MakeDrawer {
    ghost left = { with_drawer };

    ghost right = { new_drawer };
}

/// A drawer is closed.
pub struct CloseDrawer;

impl Join<View> for CloseDrawer {
    ghost both = { having_closed };

    ghost spent = { nobody };
}
