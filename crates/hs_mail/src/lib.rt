//! What a node says to the hub: its pages and its words, each until the broker acknowledges it, under one count of numbers.
#![tactic(auto)]

mod laws;
mod mail;

pub use laws::messages_go_out_in_order;
pub use mail::{Mail, Room, Unposted};
