//! What a client notes of its segments. A segment is what it records between the begin and the end of a trace.

use hs_base::{ClientId, NodeSet, TraceId};
use hs_link::Fact;

/// What was recorded and what was refused in a segment, by cause. A count stays at the greatest number of its type once it is
/// there.
#[derive(Clone, Copy, Debug, PartialEq, Eq)]
pub struct SegmentCounts {
    /// Points that were done.
    pub points: u32,
    /// Pages that were sent, since the pool had a buffer for each.
    pub pages: u32,
    /// Pages that were written to no buffer, since the pool was empty.
    pub null_pages: u32,
    /// Points refused since the outbox had too few places.
    pub full_points: u32,
    /// Points refused since they were too long.
    pub long_points: u32,
    /// Points refused since numbers ended.
    pub spent_points: u32,
    /// Crumbs refused since the outbox had no place.
    pub refused_crumbs: u32,
    /// The nodes to which its crumbs led, of those that were done.
    pub crumbs: NodeSet,
}

/// Whether a segment begins or ends, or what became of a crumb outside of one.
#[derive(Clone, Copy, Debug, PartialEq, Eq)]
pub enum SegmentState {
    Opened,
    Closed(SegmentCounts),
    /// A crumb of a trace that need not be open was refused, since the outbox had no place.
    Refused,
    /// Crumbs of a trace that need not be open led to these nodes.
    Led(NodeSet),
}

/// A note of a client: a segment of a trace begins, or ends, or a crumb of the trace was left or refused outside of one. The numbers of a
/// client's notes rise by one for each note, sent or not. So a gap tells how many were dropped.
#[derive(Clone, Copy, Debug, PartialEq, Eq)]
pub struct SegmentNote {
    pub number: u64,
    pub trace: TraceId,
    /// The core of the client that writes the segment's pages, by its number. The first core has the number 0, and each renewal brings the
    /// next one. The lease of a page's buffer has the number of its core as its mark.
    pub core: u64,
    /// Where the segment begins, the number of the first page that it may have. Where it ends, the number behind its last page. Numbers of
    /// pages are those of their headers. In a note of a crumb, the number behind the core's last page.
    pub page: u32,
    pub state: SegmentState,
}

/// The key of a client's link of notes. Only contracts see it.
#[derive(Clone, Copy)]
pub struct SegmentKey(pub ClientId);

/// A link of notes takes any note: nothing is claimed of it.
impl Fact<SegmentNote> for SegmentKey {
    ghost holds = { λ key segment. Unit {0} };
}
