//! How many parts of a trace a hub gave out and saw saved, of the traces that were saved last (`docs/RULES.md`, "The hub").
#![tactic(auto)]

mod saved;

pub use saved::Saved;
