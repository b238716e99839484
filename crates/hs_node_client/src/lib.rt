//! What a thread of a service holds: a client of which each call may be made at any time, takes no memory and never waits
//! (`docs/RULES.md`, "Between client and agent"). Its numbers do not end, it counts what it refuses, and it notes where each segment of a
//! trace begins and ends.
#![tactic(auto)]

mod acts;
mod answers;
mod checking;
mod client;
mod counts;
mod laws;
mod limits;
mod making;
mod notebook;
mod paged;
mod places;
mod segment;

pub use answers::{CallAnswer, PointAnswer};
pub use client::NodeClient;
pub use counts::ClientCounts;
pub use laws::{notes_are_numbered, segments_name_their_pages};
pub use limits::{ClientLimits, MAX_BACKLOG, MIN_CALLS, MakeFault};
pub use making::{Made, make_clients};
pub use segment::{SegmentCounts, SegmentKey, SegmentNote, SegmentState};
