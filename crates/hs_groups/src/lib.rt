//! Which nodes a hub has asked for which group, over lives of nodes that end and begin anew (`docs/RULES.md`, "The hub").
#![tactic(auto)]

mod answers;
mod followed_group;
mod groups;

pub use answers::{GroupLimits, LifeHeard, MakeFault, ToldOutcome};
pub use followed_group::FollowedGroup;
pub use groups::Groups;
