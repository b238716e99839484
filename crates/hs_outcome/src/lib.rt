//! What a run came to: an outcome, from the books of its clients and agents (`docs/RULES.md`, "The ledger" and "Reports").
//! Its text stands in `hs_report`.
#![tactic(auto)]

mod claims;
mod gathering;
mod laws;
mod outcome;
mod pages;

pub use gathering::gather;
pub use outcome::{Books, Outcome};
