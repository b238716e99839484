//! What a client counts.

ghost use Rattle.std.specs.Prelude.{◌≡◌, ◌<◌, ◌+◌, ◌^◌};
ghost use Rattle.hs_base.specs.declared.limits.TheConstants.{MOST_NODES};
ghost use Rattle.hs_node_client.specs.Counting.{more, more_in_segment, segment_counts, all_counts, no_counts, opened, closed, renewed, with_point, with_crumb, with_refused_crumb, with_refused_late, with_refused_trigger, with_dropped};

use crate::answers::CallAnswer;
use crate::segment::SegmentCounts;
use hs_base::{NodeId, NodeSet};

/// What a client did since it was made and what it refused, by cause. A count stays at the greatest number of its type once it
/// is there.
#[derive(Clone, Copy, Debug, PartialEq, Eq)]
pub struct ClientCounts {
    /// Points that were done.
    pub points: u64,
    /// Pages that were written to no buffer, since the pool was empty.
    pub null_pages: u64,
    /// Points refused since no trace was open.
    pub stray_points: u64,
    /// Points refused since the outbox had too few places.
    pub full_points: u64,
    /// Points refused since they were too long.
    pub long_points: u64,
    /// Points refused since numbers ended.
    pub spent_points: u64,
    /// Crumbs refused since the outbox had no place.
    pub refused_crumbs: u64,
    /// Triggers refused since the outbox had no place, those of samples among them.
    pub refused_triggers: u64,
    /// Notes of segments dropped since their outbox had no place.
    pub dropped_notes: u64,
}

/// The counts of the segment that is open, or was open last, and those of all before. The points and null pages of `past` are
/// those of closed segments and of cores before the last renewal.
#[derive(Clone, Copy)]
pub(crate) struct RunningCounts {
    pub(crate) here: SegmentCounts,
    pub(crate) past: ClientCounts,
    /// How many null pages the core had when the segment was opened.
    pub(crate) nulls: u32,
    /// How many pages the core had then: the number of the segment's first page.
    pub(crate) page: u32,
}

/// A count with some more, as far as its type goes.
fn more(count: u64, by: u64) -> u64
    ensures { result ≡ more count by }
{
    count.saturating_add(by)
}

/// A count of a segment with one more, as far as its type goes.
fn more_in_segment(count: u32) -> u32
    ensures { result ≡ more_in_segment count }
{
    count.saturating_add(1)
}

const NONE_HERE: SegmentCounts = SegmentCounts {
    points: 0,
    pages: 0,
    null_pages: 0,
    full_points: 0,
    long_points: 0,
    spent_points: 0,
    refused_crumbs: 0,
    crumbs: NodeSet(0),
};

const NONE_PAST: ClientCounts = ClientCounts {
    points: 0,
    null_pages: 0,
    stray_points: 0,
    full_points: 0,
    long_points: 0,
    spent_points: 0,
    refused_crumbs: 0,
    refused_triggers: 0,
    dropped_notes: 0,
};

impl RunningCounts {
    /// The counts of a client that has done nothing: all are 0.
    pub(crate) fn none() -> RunningCounts
        ensures { result ≡ no_counts }
    {
        RunningCounts {
            here: NONE_HERE,
            past: NONE_PAST,
            nulls: 0,
            page: 0,
        }
    }

    /// A segment is opened, where the core has so many null pages, and so many pages in all.
    pub(crate) fn open(&mut self, nulls: u32, pages: u32)
        ensures { self.new ≡ opened nulls pages self.old }
    {
        self.here = NONE_HERE;
        self.nulls = nulls;
        self.page = pages;
    }

    /// The segment is closed, where the core has so many null pages, and so many pages in all. Its counts are the answer.
    pub(crate) fn close(&mut self, nulls: u32, pages: u32) -> SegmentCounts
        ensures counts { result ≡ segment_counts nulls pages self.old }
        ensures closed { self.new ≡ closed self.old }
    {
        let null_pages = nulls.saturating_sub(self.nulls);
        let counts = SegmentCounts {
            pages: pages.saturating_sub(self.page).saturating_sub(null_pages),
            null_pages,
            ..self.here
        };
        self.past.points = more(self.past.points, u64::from(self.here.points));
        self.here = NONE_HERE;
        counts
    }

    /// The core is renewed, where it has so many null pages.
    pub(crate) fn renew(&mut self, nulls: u32)
        ensures { self.new ≡ renewed nulls self.old }
    {
        self.past.null_pages = more(self.past.null_pages, u64::from(nulls));
        self.nulls = 0;
    }

    /// A point that needed a page was answered so.
    pub(crate) fn point(&mut self, called: CallAnswer)
        requires { self.old.here.points + 1 < 2 ^ 32 }
        ensures { self.new ≡ with_point called self.old }
    {
        match called {
            CallAnswer::Done => self.here.points += 1,
            CallAnswer::NoTrace => self.past.stray_points = more(self.past.stray_points, 1),
            CallAnswer::Full => {
                self.here.full_points = more_in_segment(self.here.full_points);
                self.past.full_points = more(self.past.full_points, 1);
            }
            CallAnswer::TooWide => {
                self.here.long_points = more_in_segment(self.here.long_points);
                self.past.long_points = more(self.past.long_points, 1);
            }
            CallAnswer::Spent => {
                self.here.spent_points = more_in_segment(self.here.spent_points);
                self.past.spent_points = more(self.past.spent_points, 1);
            }
            CallAnswer::AlreadyOpen | CallAnswer::Unknown => {}
        }
    }

    /// A crumb of the open trace led to this node.
    pub(crate) fn leave_crumb(&mut self, node: NodeId)
        requires { node.0 < MOST_NODES }
        ensures { self.new ≡ with_crumb node self.old }
    {
        self.here.crumbs = self.here.crumbs.with(node);
    }

    /// A crumb of the open trace was refused for want of a place.
    #[cold]
    pub(crate) fn refuse_crumb(&mut self)
        ensures { self.new ≡ with_refused_crumb self.old }
    {
        self.here.refused_crumbs = more_in_segment(self.here.refused_crumbs);
        self.past.refused_crumbs = more(self.past.refused_crumbs, 1);
    }

    /// A crumb of a trace that need not be open was refused for want of a place.
    #[cold]
    pub(crate) fn refuse_late(&mut self)
        ensures { self.new ≡ with_refused_late self.old }
    {
        self.past.refused_crumbs = more(self.past.refused_crumbs, 1);
    }

    /// A trigger was refused for want of a place.
    #[cold]
    pub(crate) fn refuse_trigger(&mut self)
        ensures { self.new ≡ with_refused_trigger self.old }
    {
        self.past.refused_triggers = more(self.past.refused_triggers, 1);
    }

    /// A note was dropped.
    #[cold]
    pub(crate) fn drop_note(&mut self)
        ensures { self.new ≡ with_dropped self.old }
    {
        self.past.dropped_notes = more(self.past.dropped_notes, 1);
    }

    /// All counts, where the core has so many null pages.
    pub(crate) fn all(&self, nulls: u32) -> ClientCounts
        ensures { result ≡ all_counts nulls self.now }
    {
        ClientCounts {
            points: more(self.past.points, u64::from(self.here.points)),
            null_pages: more(self.past.null_pages, u64::from(nulls)),
            ..self.past
        }
    }
}
