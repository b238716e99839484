//! What each step on the table tells its caller. These types are for the proofs alone.
ghost use Rattle.hs_locked.specs.Views.{nobody, same, note_of, lease_of, without_lease, with_lease, having_heard, with_drawer, new_drawer, having_closed};
ghost use Rattle.hs_locked.specs.Steps.{did_take_ticket, did_look, did_leave, did_close};

use crate::board::View;
use crate::store::Store;
use atomic_table::{Join, Play, Split};

/// An end takes the next ticket.
pub struct TakeTicket;

impl Play<Store, View> for TakeTicket {
    ghost then = { did_take_ticket };
}

/// An end looks whether its turn has come, and then takes the store.
pub struct LookAtTurn;

impl Play<Store, View> for LookAtTurn {
    ghost then = { did_look };
}

/// An end puts the store back, and its turn is over.
pub struct LeaveTurn;

impl Play<Store, View> for LeaveTurn {
    ghost then = { did_leave };
}

/// The giver takes the store when all drawers were closed.
pub struct TakeLast;

impl Play<Store, View> for TakeLast {
    ghost then = { did_close };
}

/// A drawer makes a lease of the buffer that it got.
pub struct MakeLease;

impl Split<View> for MakeLease {
    ghost left = { without_lease };

    ghost right = { lease_of };
}

/// The giver takes a lease back.
pub struct TakeLease;

impl Join<View> for TakeLease {
    ghost both = { with_lease };

    ghost spent = { nobody };
}

/// An end writes a note of what it knows.
pub struct WriteNote;

impl Split<View> for WriteNote {
    ghost left = { same };

    ghost right = { note_of };
}

/// An end reads a note of another.
pub struct ReadNote;

impl Join<View> for ReadNote {
    ghost both = { having_heard };

    ghost spent = { nobody };
}

/// A drawer is made, with the next allowance.
pub struct MakeDrawer;

impl Split<View> for MakeDrawer {
    ghost left = { with_drawer };

    ghost right = { new_drawer };
}

/// A drawer is closed.
pub struct CloseDrawer;

impl Join<View> for CloseDrawer {
    ghost both = { having_closed };

    ghost spent = { nobody };
}
