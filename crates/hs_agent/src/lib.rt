//! The agent of a node: it takes what its clients and the coordinator send, keeps or evicts, pins or abandons, reports by
//! fair turns, and hands buffers back (`docs/RULES.md`, "The agent"). It is exactly the model of `hs_law_agent`.
#![tactic(auto)]

mod agent;
mod chunk_notes;
mod claim_notes;
mod hand;
mod holdings;
mod input;
mod laws;
mod page_notes;
mod placed;

pub use agent::Agent;
pub use hand::{First, Left};
pub use input::{Finished, Input};
pub use laws::{any_calls_meet_the_model, few_are_admitted};
