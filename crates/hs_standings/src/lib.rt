//! How whole the nodes of a service say that their parts of claimed traces are: the latest word of each life of a node
//! (`docs/RULES.md`, "The hub").
#![tactic(auto)]

mod answers;
mod book;
mod standings;

pub use answers::{Latest, Life, StandingOutcome};
pub use standings::Standings;
