//! Who acts in a run in threads (`docs/RULES.md`, "Schedules" and "The run"). A client does in each round the next operations of its
//! list with the client library, and puts what it sent into the rings of its links, as far as there is room. Of the agents and the
//! coordinator it stands here what each does in a round, and what waits between rounds.
#![tactic(auto)]

mod agent;
mod amounts;
mod apart;
mod client_actor;
mod closed;
mod coordinator;
mod ends;
mod inbox;
mod laws;
mod making;
mod node;
mod performing;
mod port;
mod rests;
mod steps;
mod working;

pub use agent::AgentActor;
pub use amounts::calls_of;
pub use apart::{PartedClients, take_apart};
pub use client_actor::ClientActor;
pub use closed::ClosedAgent;
pub use coordinator::CoordinatorActor;
pub use laws::{callers_have_sent, callers_sent_all};
pub use making::ConnectedClient;
pub use node::{NewNode, begin_node};
