//! The table that the two ends share, and what each seat at it knows.
//!
//! Word 16 e is 1 while entry e holds an item that was put and not taken, else 0. Slot e holds that item. The words of
//! two entries lie 128 bytes apart, so that the two ends seldom want one cache line.
ghost use Rattle.std.specs.Prelude.{List};

use atomic_table::{Seat, Shared, Table, TableRule};
use std::alloc::Global;
use std::collections::LinkedList;

/// How far the words of two entries lie apart.
pub const STRIDE: usize = 16;

/// A property of every item that one link carries.
pub trait Fact<T> {
    /// The condition, on the link's key and an item.
    ghost holds: { Self → T → Type 0 };
}

/// What a seat knows, with the key of the link. Only contracts have values of it.
pub enum View<T, F> {
    Nobody,
    /// Both ends at once, before they are made.
    Whole(F),
    /// The sender: what it put, and how many it heard were taken.
    Sending(F, LinkedList<T>, u64),
    /// The sender while it puts an item: what it put, how many it heard were taken, and the slot of the next entry in hand.
    Laying(F, LinkedList<T>, u64),
    /// The sender beside a receiver: the receiver's key, and what it received.
    Meeting(F, LinkedList<T>, u64, F, LinkedList<T>),
    /// The receiver: what it received, and what it was told was put.
    Receiving(F, LinkedList<T>, LinkedList<T>),
    /// The receiver while it takes an item: what it received, what it was told was put, and the next item in hand.
    Taking(F, LinkedList<T>, LinkedList<T>, T),
    /// A note: what was put.
    TellsPut(F, LinkedList<T>),
    /// A note: what was received.
    TellsTaken(F, LinkedList<T>),
}

/// The rule of the table.
pub struct Law;

impl<T, F: Fact<T>> TableRule<Option<T>, View<T, F>, F> for Law {
    ghost use Rattle.hs_link.specs.Ring.{LinkRule};
    ghost use Rattle.hs_link.specs.declared.board.View.TheVariants.{Whole};

    ghost holds = { λ key. LinkRule F.holds key };

    ghost first = { λ key. Whole key };
}

pub type Board<T, F> = Table<Option<T>, View<T, F>, F, Law, Global>;

pub type Entries<T, F> = Shared<Option<T>, View<T, F>, F, Law>;

pub type Place<T, F> = Seat<Option<T>, View<T, F>>;
