//! The replay of a workload on one thread, by the lockstep schedule: nodes with their pools, clients and agents, what waits between these
//! and the coordinator, and the rounds of them all (`docs/RULES.md`, "Schedules"). A node follows the machine of `hs_law_run`.
#![tactic(auto)]

mod all;
mod books;
mod coordinator;
mod finishing;
mod left;
mod making;
mod node;
mod queue;
mod replaying;
mod schedule;
mod start;
mod telling;

pub use all::{has_left, is_bare, pass, play_all};
pub use coordinator::coordinate;
pub use hs_outcome::Outcome;
pub use node::ReplayNode;
pub use replaying::{into_outcome, replay};
pub use schedule::{close, rounds};
pub use start::{make_coordinator, make_nodes};
