//! An agent's index of the traces that nobody claimed: their chunks and crumbs, and which of them go when
//! there are too many (`docs/RULES.md`, "The index").
#![tactic(auto)]

mod answers;
mod entry;
mod index;
mod laws;
mod recent;

pub use answers::{Gone, TakenTrace};
pub use index::TraceIndex;
pub use laws::{any_calls_look_back, longest_end_stays};
