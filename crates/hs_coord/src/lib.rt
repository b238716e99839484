//! The coordinator: it follows the breadcrumbs of each group from node to node, and asks each node
//! that they lead to once (`docs/RULES.md`, "The coordinator").
#![tactic(auto)]

mod asks;
mod coordinator;
mod followed;
mod laws;

pub use asks::Asks;
pub use coordinator::Coordinator;
pub use laws::{answers_follow_asks, asked_set_is_least};
