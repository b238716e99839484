//! A link between two threads: one sender, one receiver, and no call that waits or loses an item.
//!
//! Between the ends lies a ring of a fixed number of entries. What the ring cannot take yet the sender keeps in its
//! outbox, in order, and puts before anything newer. An item is moved from hand to hand and never copied.
#![tactic(auto)]

mod board;
mod ends;
mod entry_cursor;
mod laws;
mod plays;
mod receiver;
mod rest;
mod sender;
mod steps;

pub use board::Fact;
pub use ends::link;
pub use laws::put_items_are_taken_or_lie_in_the_ring;
pub use receiver::Receiver;
pub use rest::{Rest, close_both};
pub use sender::{Sender, Sent, Tried};
