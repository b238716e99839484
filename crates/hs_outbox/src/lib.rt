//! The messages of a node that wait until the broker acknowledges them, in memory that is taken when the outbox is made.
#![tactic(auto)]

mod laws;
mod message_slot;
mod outbox;

pub use laws::each_message_waits_until_it_is_acknowledged;
pub use outbox::{Outbox, Put};
