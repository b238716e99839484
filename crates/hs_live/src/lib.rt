//! What a service links: a client whose calls neither wait nor take memory, and the port of its node's agent, which has
//! the other ends (`docs/RULES.md`, "Between client and agent").
#![tactic(auto)]

mod called;
mod client;
mod key;
mod laws;
mod links;
mod port;
mod writer;

pub use called::{Called, ClientLeft, Closed, Parted};
pub use client::Client;
pub use key::ClientKey;
pub use laws::{all_was_sent, ends_go_on, sent_chunks_are_told_apart, what_was_done_was_sent};
pub use port::{AgentPort, PortParts};
