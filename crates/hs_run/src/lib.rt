//! The run of a workload: each client, each agent and the coordinator at once, in rounds that are joined. Then comes the end, on one
//! thread: the links are closed, passes are made until nothing waits and nothing is pinned, and the books are gathered. Under watch it
//! is counted meanwhile how far the run has come (`docs/RULES.md`, "The run").
//!
//! The story of a run is plain data: where all stands between two rounds, what a round does, and how a moment came about by rounds from
//! the beginning. The moments, one behind another, make a story, and so a lawful journal. The laws of `story_laws` hold of it.
#![tactic(auto)]

mod client;
mod closing;
mod finishing;
pub mod laws;
mod log;
mod making;
mod meeting;
mod node;
mod node_actors;
mod pools;
mod rounds;
mod running;
mod shutting;
pub mod story_laws;
mod tallying;
mod watched_rounds;
mod watching;

pub use client::ClientCount;
pub use log::LogCount;
pub use running::run;
pub use watching::{Watched, run_watched};
