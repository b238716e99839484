//! The pages of claimed traces, kept until they are saved elsewhere (`docs/RULES.md`, "The hub").
#![tactic(auto)]

mod answers;
mod key;
mod laws;
mod part;
mod reading;
mod shelf;
mod traces;

pub use answers::{Added, LEAST_BYTES, MakeFault, Offered, TraceCounts, TraceLimits};
pub use key::{CoreId, PageKey, is_from, is_own, key_of};
pub use laws::pages_decide_the_part;
pub use reading::read_header;
pub use traces::Traces;
