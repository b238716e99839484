//! The traces that groups claim at a node, until the groups are forgotten (`docs/RULES.md`, "What a node says of its claims").
#![tactic(auto)]

mod answers;
mod claims;
mod laws;
mod news;

pub use answers::{ClaimOutcome, Claimant, StatedClaim};
pub use claims::ClaimedTraces;
pub use laws::{
    a_horizon_alone_is_no_news, each_claim_is_looked_at, what_was_said_last_is_the_latest_news,
    what_was_told_was_named,
};
pub use news::is_news;
