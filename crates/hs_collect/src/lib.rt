//! The records of each trace, from its pages (`docs/RULES.md`, "The collector").
#![tactic(auto)]

mod collector;
mod laws;
mod records;

pub use collector::Collector;
pub use laws::{
    pages_collect_one, pages_in_turn_can_be_added, reordered_pages_collect_the_same,
    runs_decide_the_records,
};
pub use records::{TraceRecord, TraceRecords};
