//! How whole a node's part of each trace is, as far as the node knows (`docs/RULES.md`, "How whole a node's part is").
#![tactic(auto)]

mod answers;
mod kept;
mod laws;
mod notes;
mod page;
mod track;

pub use answers::{
    Loss, MOST_CLIENTS, MOST_LOOKS, MakeFault, NoteLimits, NoteOutcome, SegmentReport,
};
pub use kept::Kept;
pub use laws::{each_segment_of_a_whole_trace_is_out, whole_is_said_of_what_was_handed_out};
pub use notes::SegmentNotes;
pub use page::PageName;
pub use track::Track;
