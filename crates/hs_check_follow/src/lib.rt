//! What a check of a journal is made of (`docs/RULES.md`, "The lawful journal"). The clauses are decided, each by one pass over what it
//! speaks of. For those that look at more than the text, the journal is followed on the real agents and the real coordinator, as far as
//! that is possible, and what these clauses look at is noted meanwhile. What clients send stands before it: a client at draws that are
//! given sends each item with its operation, and has its book.
#![tactic(auto)]

mod agent;
mod answers;
mod bare;
mod client;
mod clients;
mod coordinator;
mod counting;
mod filling;
mod found;
mod gathering;
mod happened;
mod history;
mod keeping;
mod making;
mod node;
mod offers;
mod ordered;
mod pages;
mod parting;
mod passes;
mod replay;
mod rising;
mod rounds;
mod run;
mod script;
mod second_play;
mod shape;
mod sources;
mod stamps;

pub use agent::FollowedAgent;
pub use answers::has_answers;
pub use bare::is_bare;
pub use client::{FollowedClient, send};
pub use coordinator::FollowedCoordinator;
pub use counting::{draws_of, log_of};
pub use filling::Filling;
pub use found::{Found, FoundClient, FoundNode, FoundPage};
pub use happened::{NotedEvent, StampedEvent, drawn_of, events_of};
pub use history::has_history;
pub use making::follow;
pub use node::FollowedNode;
pub use offers::{has_offers, is_last, is_unread};
pub use parting::FollowedParts;
pub use passes::has_passes;
pub use rising::{stamp_of, step_stamp};
pub use rounds::{count_rounds, has_rounds};
pub use run::FollowedRun;
pub use shape::has_shape;
pub use stamps::has_stamps;
