//! What triggers claim at a node: which triggers are admitted, which traces they claim, and the
//! chunks that are pinned for them (`docs/RULES.md`, "The bucket" and "Pins").
#![tactic(auto)]

mod abandon;
mod bucket;
mod claim;
mod claims;
mod laws;
mod pile;
mod pinned;
mod pins;
mod priority;
mod queues;

pub use bucket::{Attempt, Bucket};
pub use claim::{Admitted, Dropped, Taken2};
pub use laws::{any_calls_look_back, claims_stay};
pub use pins::{Claiming, Pins};
pub use priority::is_group;
