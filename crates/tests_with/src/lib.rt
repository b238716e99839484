//! What tests and benches share: pages of a client that come one after another, rules of trigger ids and pins, made so that the calls
//! which ask something of them can be made; a node's agent that is ready for its next call; five threads on one ring; and a client of the client library with the
//! port of its node, and what goes between the two.
#![tactic(auto)]

mod ends;
mod locks;
mod moves;
mod pages;
mod pins;
mod rings;
mod rules;
mod site;
mod spent;

pub use ends::{CLIENT, ID, Making, PairEnding, client_and_port, close_all};
pub use locks::locked_of;
pub use moves::{
    flush, give_back, meet, next_chunk, next_crumb, next_trigger, nothing_comes, renew,
};
pub use pages::{add_page, fill_page, no_pages};
pub use pins::{
    CLAIMED, arrives, claims, claims_pages, fresh_pins, group_of, lets_go, page_of, pages_of, went,
};
pub use rings::{ring_of, work_ring};
pub use rules::greatest_rules;
pub use site::{Limits, Site};
pub use spent::{Seen, Spent, bare, now, rest, since};
