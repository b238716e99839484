//! One client, as its notes tell.

ghost use Rattle.std.specs.Prelude.{◌≡◌, None, Some, ◌+◌, ◌<◌};
ghost use Rattle.hs_whole.specs.Tracks.{no_notes, is_open, begins_next, can_end, ends_next, refuses_next, known_from, begun, ended, passed, is_heard_of, handed};
ghost use Rattle.hs_whole.specs.Pages.{later_page};

use crate::page::PageName;
use hs_base::TraceId;

/// A client: the number that its next note has, the trace of its open segment, and its pages that are heard of: from the first one since
/// its last note that was missed, if one was named since, to the end of its last segment, or to the begin of the open one. Of the
/// open one the last page that was handed out, if one was.
#[derive(Clone, Copy, Debug, PartialEq, Eq)]
pub struct Track {
    pub next: u128,
    pub current: Option<TraceId>,
    pub from: Option<PageName>,
    pub end: PageName,
    pub reached: Option<PageName>,
}

/// The later of two pages, where there is a first one.
fn later_page(before: Option<PageName>, page: PageName) -> PageName
    ensures { result ≡ later_page before page }
{
    match before {
        Some(one) if !one.is_before(page) => one,
        _ => page,
    }
}

impl Track {
    /// A client of which no note was heard. Its notes, its cores and their pages are numbered from 0.
    pub(crate) fn new() -> Track
        ensures { result ≡ no_notes }
    {
        Track {
            next: 0,
            current: None,
            from: Some(PageName::first()),
            end: PageName::first(),
            reached: None,
        }
    }

    /// Whether a segment of the trace is open.
    pub(crate) fn is_open(&self, trace: TraceId) -> bool
        ensures { result ≡ is_open trace self.now }
    {
        match self.current {
            Some(current) => current == trace,
            None => false,
        }
    }

    /// Whether the next note is that a segment begins, by this number: none is open.
    pub(crate) fn begins_next(&self, number: u64) -> bool
        ensures { result ≡ begins_next self.now number }
    {
        u128::from(number) == self.next && self.current.is_none()
    }

    /// Whether the open segment can end before this page: it is neither before its begin nor before a page that was handed out of it.
    fn can_end(&self, end: PageName) -> bool
        ensures { result ≡ can_end self.now end }
    {
        if end.is_before(self.end) {
            return false;
        }
        match self.reached {
            Some(reached) => reached.is_before(end),
            None => true,
        }
    }

    /// Whether the next note is that a segment of the trace ends before this page, by this number: it is open.
    pub(crate) fn ends_next(&self, number: u64, trace: TraceId, end: PageName) -> bool
        ensures { result ≡ ends_next self.now number trace end }
    {
        u128::from(number) == self.next && self.is_open(trace) && self.can_end(end)
    }

    /// Whether the next note is that a crumb was refused, by this number.
    pub(crate) fn refuses_next(&self, number: u64) -> bool
        ensures { result ≡ refuses_next self.now number }
    {
        u128::from(number) == self.next
    }

    /// The first page since the last note that was missed, behind a note that names this page.
    fn known_from(&self, is_next: bool, page: PageName) -> PageName
        ensures { result ≡ known_from self.now is_next page }
    {
        match self.from {
            Some(from) if is_next => from,
            _ => page,
        }
    }

    /// The client behind a note of this number, by which a segment of the trace begins with this page.
    pub(crate) fn begun(&self, number: u64, trace: TraceId, first: PageName) -> Track
        ensures { result ≡ begun self.now number trace first }
    {
        Track {
            next: u128::from(number) + 1,
            current: Some(trace),
            from: Some(self.known_from(self.begins_next(number), first)),
            end: first,
            reached: None,
        }
    }

    /// The client behind a note of this number, by which a segment of the trace ends before this page.
    pub(crate) fn ended(&self, number: u64, trace: TraceId, end: PageName) -> Track
        ensures { result ≡ ended self.now number trace end }
    {
        Track {
            next: u128::from(number) + 1,
            current: None,
            from: Some(self.known_from(self.ends_next(number, trace, end), end)),
            end,
            reached: None,
        }
    }

    /// The client behind a note of this number, that a crumb was refused.
    pub(crate) fn passed(&self, number: u64) -> Track
        ensures { result ≡ passed self.now number }
    {
        let next = u128::from(number) + 1;
        if self.refuses_next(number) {
            return Track { next, ..*self };
        }
        Track {
            next,
            current: None,
            from: None,
            end: self.end,
            reached: None,
        }
    }

    /// Whether a page of the trace is heard of.
    pub(crate) fn is_heard_of(&self, trace: TraceId, page: PageName) -> bool
        ensures { result ≡ is_heard_of trace page self.now }
    {
        match self.from {
            Some(from) => {
                !page.is_before(from) && (page.is_before(self.end) || self.is_open(trace))
            }
            None => false,
        }
    }

    /// The client once this page of the trace is handed out.
    pub(crate) fn handed(&self, trace: TraceId, page: PageName) -> Track
        ensures { result ≡ handed trace page self.now }
    {
        if !self.is_heard_of(trace, page) || page.is_before(self.end) {
            return *self;
        }
        Track {
            reached: Some(later_page(self.reached, page)),
            ..*self
        }
    }
}
