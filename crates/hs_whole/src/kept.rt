//! One trace, as far as the node knows it.

ghost use Rattle.std.specs.Prelude.{◌≡◌};
ghost use Rattle.hs_whole.specs.Kept.{no_losses, fresh, reports_loss, with_report, with_loss, misses, begins, ends, loses, goes_out, refuses, leads, wholeness, is_settled, counted};

use crate::answers::{Loss, SegmentReport};
use hs_base::NodeSet;
use hs_wire::{Losses, Wholeness};

/// A trace: how many segments had been heard when its latest one was, pages sent in segments whose end was the next note, pages
/// handed out, whether a segment of it began, whether a note of it may have been missed, whether something of it was lost, what was lost by cause,
/// and the nodes to which crumbs of it led. A count stays at the greatest number of its type once it is there.
#[derive(Clone, Copy, Debug, PartialEq, Eq)]
pub struct Kept {
    pub latest: u64,
    pub sent: u64,
    pub handed_out: u64,
    pub is_heard: bool,
    pub is_missed: bool,
    pub is_lost: bool,
    pub losses: Losses,
    pub crumbs: NodeSet,
}

/// Losses of 0 in each cause.
pub(crate) fn no_losses() -> Losses
    ensures { result ≡ no_losses }
{
    Losses {
        null_pages: 0,
        full_points: 0,
        dry_points: 0,
        long_points: 0,
        refused_crumbs: 0,
        evicted_crumbs: 0,
        forgotten_crumbs: 0,
        evicted_pages: 0,
        abandoned_pages: 0,
    }
}

/// Whether a segment reports a loss.
fn reports_loss(report: &SegmentReport) -> bool
    ensures { result ≡ reports_loss report.now }
{
    report.null_pages != 0
        || report.full_points != 0
        || report.dry_points != 0
        || report.long_points != 0
        || report.spent_points != 0
        || report.refused_crumbs != 0
}

/// How many pages count that a segment reports: none where a note of it may have been missed.
fn counted(report: &SegmentReport, is_missed: bool) -> u64
    ensures { result ≡ counted report.now is_missed }
{
    if is_missed {
        0
    } else {
        u64::from(report.pages)
    }
}

/// The losses with those that a segment reports. Points refused since numbers ended have no count among them.
fn with_report(losses: Losses, report: &SegmentReport) -> Losses
    ensures { result ≡ with_report losses report.now }
{
    Losses {
        null_pages: losses
            .null_pages
            .saturating_add(u64::from(report.null_pages)),
        full_points: losses
            .full_points
            .saturating_add(u64::from(report.full_points)),
        dry_points: losses
            .dry_points
            .saturating_add(u64::from(report.dry_points)),
        long_points: losses
            .long_points
            .saturating_add(u64::from(report.long_points)),
        refused_crumbs: losses
            .refused_crumbs
            .saturating_add(u64::from(report.refused_crumbs)),
        ..losses
    }
}

/// The losses with so many more.
fn with_loss(losses: Losses, loss: Loss, count: u64) -> Losses
    ensures { result ≡ with_loss losses loss count }
{
    match loss {
        Loss::EvictedPages => Losses {
            evicted_pages: losses.evicted_pages.saturating_add(count),
            ..losses
        },
        Loss::AbandonedPages => Losses {
            abandoned_pages: losses.abandoned_pages.saturating_add(count),
            ..losses
        },
        Loss::EvictedCrumbs => Losses {
            evicted_crumbs: losses.evicted_crumbs.saturating_add(count),
            ..losses
        },
        Loss::ForgottenCrumbs => Losses {
            forgotten_crumbs: losses.forgotten_crumbs.saturating_add(count),
            ..losses
        },
    }
}

impl Kept {
    /// A trace of which nothing is known, where so many segments had been heard and a note of it may have been missed or not.
    pub(crate) fn fresh(latest: u64, is_missed: bool) -> Kept
        ensures { result ≡ fresh latest is_missed }
    {
        Kept {
            latest,
            sent: 0,
            handed_out: 0,
            is_heard: false,
            is_missed,
            is_lost: false,
            losses: no_losses(),
            crumbs: NodeSet::none(),
        }
    }

    /// A note of it may have been missed.
    pub(crate) fn miss(&mut self)
        ensures { self.new ≡ misses self.old }
    {
        self.is_missed = true;
    }

    /// A segment begins: the last of so many that were heard.
    pub(crate) fn begin(&mut self, heard: u64)
        ensures { self.new ≡ begins heard self.old }
    {
        self.latest = heard;
        self.is_heard = true;
    }

    /// A segment ends, and a note of it may have been missed or not.
    pub(crate) fn end(&mut self, report: &SegmentReport, is_missed: bool)
        ensures { self.new ≡ ends report.now is_missed self.old }
    {
        self.sent = self.sent.saturating_add(counted(report, is_missed));
        self.is_missed = self.is_missed || is_missed;
        self.is_lost = self.is_lost || reports_loss(report);
        self.losses = with_report(self.losses, report);
        self.crumbs = self.crumbs.union(report.crumbs);
    }

    /// Notes that so many pages or crumbs of the trace were lost, for this cause.
    pub(crate) fn lose(&mut self, loss: Loss, count: u64)
        ensures { self.new ≡ loses loss count self.old }
    {
        self.is_lost = self.is_lost || count != 0;
        self.losses = with_loss(self.losses, loss, count);
    }

    /// A page of it is handed out. Where it was not heard of, a note of the trace may have been missed.
    pub(crate) fn hand_out(&mut self, is_heard: bool)
        ensures { self.new ≡ goes_out is_heard self.old }
    {
        self.handed_out = self.handed_out.saturating_add(1);
        self.is_missed = self.is_missed || !is_heard;
    }

    /// A crumb of it was refused.
    pub(crate) fn refuse(&mut self)
        ensures { self.new ≡ refuses self.old }
    {
        self.is_lost = true;
        self.losses.refused_crumbs = self.losses.refused_crumbs.saturating_add(1);
    }

    /// Crumbs of it led to these nodes.
    pub(crate) fn lead(&mut self, nodes: NodeSet)
        ensures { self.new ≡ leads nodes self.old }
    {
        self.crumbs = self.crumbs.union(nodes);
    }

    /// Whether as many pages left as its segments sent: they were handed out, evicted or abandoned. A full count says nothing.
    pub(crate) fn is_settled(&self) -> bool
        ensures { result ≡ is_settled self.now }
    {
        let gone = self
            .handed_out
            .saturating_add(self.losses.evicted_pages)
            .saturating_add(self.losses.abandoned_pages);
        self.sent < u64::MAX && self.sent <= gone
    }

    /// How whole it is, where so many segments of it are open.
    pub(crate) fn wholeness(&self, segments: usize) -> Wholeness
        ensures { result ≡ wholeness segments self.now }
    {
        if segments > 0 {
            return Wholeness::Open;
        }
        if self.is_lost {
            return Wholeness::Lost;
        }
        if self.is_missed || self.sent != self.handed_out {
            return Wholeness::Unknown;
        }
        if !self.is_heard {
            return Wholeness::UnheardSince;
        }
        Wholeness::WholeSince
    }
}
