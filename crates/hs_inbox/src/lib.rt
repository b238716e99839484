//! What the hub asks of a node, until the node's agent takes it, in memory that is taken when the inbox is made.
#![tactic(auto)]

mod inbox;

pub use inbox::{AskDelivered, Inbox};
