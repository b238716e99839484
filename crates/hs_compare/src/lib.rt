//! What other samplers would have kept of a workload, beside what Hindsight keeps, and the text that says so. The laws of `laws` say how
//! the samplers' records lie within one another (`docs/RULES.md`, "Other samplers").
#![tactic(auto)]

mod by_rank;
mod client;
mod coming;
mod comparing;
mod comparison;
mod happening;
pub mod laws;
pub mod limits;
mod lines;
mod marks;
mod names;
mod places;
mod points;
mod record_queue;
mod records;
mod ring;
mod ring_tail;
mod script;
mod scripts;
mod text;
mod walk;

pub use by_rank::head;
pub use comparing::compare;
pub use comparison::Comparison;
pub use lines::Line;
pub use ring::TracedRecord;
pub use ring_tail::RingTail;
pub use text::write_comparison;
