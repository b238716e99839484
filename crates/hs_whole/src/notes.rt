//! All that a node heard of its segments.

ghost use Rattle.std.specs.Prelude.{◌≡◌, not, ◌<◌, ◌≤◌, ◌↔◌, length, Ok, Err, Some, None, IfOk, OnOk, OnErr, option_copied, count_by};
ghost use Rattle.std.specs.NonZero.{non_zero_usize_get};
ghost use Rattle.hs_whole.specs.Kept.{ends, goes_out};
ghost use Rattle.hs_whole.specs.Tracks.{is_open, begins_next, ends_next, refuses_next};
ghost use Rattle.hs_whole.specs.Notes.{PlainNotes, AreOut, no_notes_in, kept_of, changed, tracked, missed, missed_open, doubted, moved_horizon, with_new, remembered, checked, begun_in, ended_in, refused_in, led_in, is_over, has_place, turned, looked, searched, finds_place, answer_of, opened, closed, refused, led, after_opened, after_closed, after_refused, after_led, after_lost, handed_in, after_handed_out, standing_of, crumbs_of};

use crate::answers::{
    Loss, MOST_CLIENTS, MOST_LOOKS, MakeFault, NoteLimits, NoteOutcome, SegmentReport,
};
use crate::kept::{Kept, no_losses};
use crate::page::PageName;
use crate::track::Track;
use hs_base::{GroupId, Memory, NodeSet, TraceId};
use hs_wire::{Standing, Wholeness};
use lru::LruCache;
use std::alloc::Global;
use std::marker::Model;
use std::num::NonZeroUsize;

/// What a node heard of its segments, in bounded memory: of each client its latest note, and the traces that had one latest.
/// Contracts see the clients by number, and the traces, the one with the latest note first.
#[derive(Drop)]
pub struct SegmentNotes {
    limits: NoteLimits,
    /// How many segments were heard.
    heard: u64,
    /// The count of segments since which none was missed and none forgotten.
    horizon: u64,
    tracks: Vec<Track>,
    traces: LruCache<TraceId, Kept>,
}

impl Model for SegmentNotes {
    ghost use Rattle.hs_whole.specs.Notes.{PlainNotes};
    ghost use Rattle.hs_whole.specs.NotesLayout.{notes_in, AreKept};

    ghost Value = { PlainNotes };

    ghost view = { notes_in };

    ghost invariant = { AreKept };
}

impl SegmentNotes {
    /// No notes, within these limits.
    pub fn make(alloc: Global, limits: NoteLimits) -> Result<SegmentNotes, MakeFault>
        ensures made { IfOk result (λ notes. notes ≡ no_notes_in limits) }
        ensures limits { (result ≡ Err MakeFault.Limits) ↔ AreOut limits }
    {
        let Some(most) = NonZeroUsize::new(limits.traces as usize) else {
            return Err(MakeFault::Limits);
        };
        if limits.clients > MOST_CLIENTS {
            return Err(MakeFault::Limits);
        }
        match SegmentNotes::empty(alloc, limits, most) {
            Ok(notes) => Ok(notes),
            Err(_) => Err(MakeFault::Memory),
        }
    }

    /// No notes, within these limits.
    fn empty(alloc: Global, limits: NoteLimits, most: NonZeroUsize) -> Result<SegmentNotes, Memory>
        requires most { non_zero_usize_get most ≡ limits.traces }
        requires clients { limits.clients ≤ MOST_CLIENTS }
        ensures { IfOk result (λ notes. notes ≡ no_notes_in limits) }
    {
        Ok(SegmentNotes {
            limits,
            heard: 0,
            horizon: 0,
            tracks: vec![in alloc; Track::new(); limits.clients as usize]?,
            traces: LruCache::new(alloc, most)?,
        })
    }

    /// The horizon moves to the count of all segments that were heard: a note may have been missed.
    pub fn miss(&mut self)
        ensures { self.new ≡ missed self.old }
    {
        self.horizon = self.heard;
    }

    /// The horizon where one trace more is kept: where as many are kept as may be, the one without a note for longest is
    /// forgotten, with all its segments.
    fn moved_horizon(&self) -> u64
        ensures { result ≡ moved_horizon self.now }
    {
        if self.traces.len() < self.limits.traces as usize {
            return self.horizon;
        }
        match self.traces.peek_lru() {
            Some((_, oldest)) => self.horizon.max(oldest.latest),
            None => self.horizon,
        }
    }

    /// Whether one trace more may be kept: a place is free, or nothing of the last trace is open or to come.
    fn has_place(&self) -> bool
        ensures { result ≡ has_place self.now }
    {
        if self.traces.len() < self.limits.traces as usize {
            return true;
        }
        match self.traces.peek_lru() {
            Some((trace, kept)) => kept.is_settled() && self.open_segments(*trace) == 0,
            None => true,
        }
    }

    /// The last trace is the first from now on.
    fn turn(&mut self)
        ensures { self.new ≡ turned self.old }
    {
        let Some((last, _)) = self.traces.peek_lru() else {
            return;
        };
        let trace = *last;
        self.traces.promote(&trace);
    }

    /// Looks for a trace that may be forgotten, from the last on.
    fn look(&mut self)
        ensures { self.new ≡ looked MOST_LOOKS self.old }
    {
        for _ in 0..MOST_LOOKS {
            if self.has_place() {
                break;
            }
            self.turn();
        }
    }

    /// Looks for a place for a trace, and answers whether it is kept or there is one.
    fn search(&mut self, trace: TraceId) -> bool
        ensures found { result ≡ finds_place self.old trace }
        ensures after { self.new ≡ searched self.old trace }
    {
        if self.traces.contains(&trace) {
            return true;
        }
        self.look();
        self.has_place()
    }

    /// Keeps a trace, as the one with the latest note. Where it is not kept yet, a note of it may have been missed or not.
    fn remember(&mut self, trace: TraceId, is_missed: bool) -> Result<(), Memory>
        ensures kept { OnOk result (self.new ≡ remembered self.old trace is_missed) }
        ensures memory { OnErr result (self.new ≡ self.old) }
    {
        if self.traces.contains(&trace) {
            self.traces.promote(&trace);
            return Ok(());
        }
        self.keep(trace, is_missed)
    }

    /// Keeps one trace more.
    fn keep(&mut self, trace: TraceId, is_missed: bool) -> Result<(), Memory>
        requires new { kept_of self.old trace ≡ None }
        ensures kept { OnOk result (self.new ≡ with_new self.old trace is_missed) }
        ensures memory { OnErr result (self.new ≡ self.old) }
    {
        let horizon = self.moved_horizon();
        match self.traces.put(trace, Kept::fresh(self.heard, is_missed)) {
            Ok(_) => {
                self.horizon = horizon;
                Ok(())
            }
            Err(_) => Err(Memory),
        }
    }

    /// A note of a trace may have been missed.
    fn doubt(&mut self, trace: TraceId)
        ensures { self.new ≡ doubted self.old trace }
    {
        if let Some(kept) = self.traces.peek_mut(&trace) {
            kept.miss();
        }
    }

    /// A note was missed: the horizon moves, and of this open segment, if any, a note may have been missed.
    fn miss_segment(&mut self, current: Option<TraceId>)
        ensures { self.new ≡ missed_open current self.old }
    {
        self.miss();
        match current {
            Some(trace) => self.doubt(trace),
            None => {}
        }
    }

    /// Where a client's note is not its next one, a note was missed.
    fn check(&mut self, client: u16, is_next: bool)
        requires { client < self.old.limits.clients }
        ensures { self.new ≡ checked self.old client is_next }
    {
        if is_next {
            return;
        }
        let current = self.tracks[client as usize].current;
        self.miss_segment(current);
    }

    /// What is known of a client changes.
    fn track(&mut self, client: u16, track: Track)
        requires { client < self.old.limits.clients }
        ensures { self.new ≡ tracked client track self.old }
    {
        self.tracks[client as usize] = track;
    }

    /// What is kept of a trace has the end of a segment.
    fn end_kept(&mut self, trace: TraceId, report: &SegmentReport, is_missed: bool)
        ensures { self.new ≡ changed (ends report.now is_missed) trace self.old }
    {
        let Some(kept) = self.traces.peek_mut(&trace) else {
            return;
        };
        kept.end(report, is_missed);
    }

    /// What is kept of a trace has a page that was handed out.
    fn hand_out_kept(&mut self, trace: TraceId, is_heard: bool)
        ensures { self.new ≡ changed (goes_out is_heard) trace self.old }
    {
        if let Some(kept) = self.traces.peek_mut(&trace) {
            kept.hand_out(is_heard);
        }
    }

    /// A segment of a kept trace begins.
    fn begin(&mut self, client: u16, number: u64, trace: TraceId, first: PageName)
        requires { client < self.old.limits.clients }
        ensures { self.new ≡ begun_in self.old client number trace first }
    {
        self.heard = self.heard.saturating_add(1);
        let track = self.tracks[client as usize];
        self.tracks[client as usize] = track.begun(number, trace, first);
        if let Some(kept) = self.traces.peek_mut(&trace) {
            kept.begin(self.heard);
        }
    }

    /// A segment of a kept trace ends.
    fn end(
        &mut self,
        client: u16,
        number: u64,
        trace: TraceId,
        end: PageName,
        report: &SegmentReport,
        is_next: bool,
    )
        requires { client < self.old.limits.clients }
        ensures { self.new ≡ ended_in self.old client number trace end report.now is_next }
    {
        let track = self.tracks[client as usize].ended(number, trace, end);
        self.track(client, track);
        self.end_kept(trace, report, !is_next);
    }

    /// A crumb of a kept trace was refused.
    fn refuse(&mut self, client: u16, number: u64, trace: TraceId)
        requires { client < self.old.limits.clients }
        ensures { self.new ≡ refused_in self.old client number trace }
    {
        let track = self.tracks[client as usize];
        self.tracks[client as usize] = track.passed(number);
        if let Some(kept) = self.traces.peek_mut(&trace) {
            kept.refuse();
        }
    }

    /// Crumbs of a kept trace led to these nodes.
    fn lead(&mut self, client: u16, number: u64, trace: TraceId, nodes: NodeSet)
        requires { client < self.old.limits.clients }
        ensures { self.new ≡ led_in self.old client number trace nodes }
    {
        let track = self.tracks[client as usize];
        self.tracks[client as usize] = track.passed(number);
        if let Some(kept) = self.traces.peek_mut(&trace) {
            kept.lead(nodes);
        }
    }

    /// Hears that a client that is there begins a segment.
    fn open_segment(
        &mut self,
        client: u16,
        number: u64,
        trace: TraceId,
        first: PageName,
    ) -> Result<(), Memory>
        requires { client < self.old.limits.clients }
        ensures after { OnOk result (self.new ≡ opened self.old client number trace first) }
        ensures memory { OnErr result (self.new ≡ self.old) }
    {
        let is_next = self.tracks[client as usize].begins_next(number);
        self.remember(trace, false)?;
        self.check(client, is_next);
        self.begin(client, number, trace, first);
        Ok(())
    }

    /// Hears that a client that is there ends a segment.
    fn close_segment(
        &mut self,
        client: u16,
        number: u64,
        trace: TraceId,
        end: PageName,
        report: &SegmentReport,
    ) -> Result<(), Memory>
        requires { client < self.old.limits.clients }
        ensures after { OnOk result (self.new ≡ closed self.old client number trace end report.now) }
        ensures memory { OnErr result (self.new ≡ self.old) }
    {
        let is_next = self.tracks[client as usize].ends_next(number, trace, end);
        self.remember(trace, true)?;
        self.check(client, is_next);
        self.end(client, number, trace, end, report, is_next);
        Ok(())
    }

    /// Hears that a client that is there refused a crumb.
    fn refuse_crumb(&mut self, client: u16, number: u64, trace: TraceId) -> Result<(), Memory>
        requires { client < self.old.limits.clients }
        ensures after { OnOk result (self.new ≡ refused self.old client number trace) }
        ensures memory { OnErr result (self.new ≡ self.old) }
    {
        let is_next = self.tracks[client as usize].refuses_next(number);
        self.remember(trace, true)?;
        self.check(client, is_next);
        self.refuse(client, number, trace);
        Ok(())
    }

    /// Hears that crumbs of a client that is there led to these nodes.
    fn lead_on(
        &mut self,
        client: u16,
        number: u64,
        trace: TraceId,
        nodes: NodeSet,
    ) -> Result<(), Memory>
        requires { client < self.old.limits.clients }
        ensures after { OnOk result (self.new ≡ led self.old client number trace nodes) }
        ensures memory { OnErr result (self.new ≡ self.old) }
    {
        let is_next = self.tracks[client as usize].refuses_next(number);
        self.remember(trace, false)?;
        self.check(client, is_next);
        self.lead(client, number, trace, nodes);
        Ok(())
    }

    /// Hears that a client begins a segment of a trace, by a note of this number, and the first page that it may have. After `Refused`,
    /// after `Full`, and after `Memory`, the horizon has moved to the count of all segments that were heard; after the last two traces
    /// may stand in another order. Nothing else changed.
    pub fn opened(
        &mut self,
        client: u16,
        number: u64,
        trace: TraceId,
        first: PageName,
    ) -> Result<NoteOutcome, Memory>
        ensures answer { IfOk result (λ noted. noted ≡ answer_of self.old client trace) }
        ensures after { OnOk result (self.new ≡ after_opened self.old client number trace first) }
        ensures memory { OnErr result (self.new ≡ missed (searched self.old trace)) }
    {
        if client >= self.limits.clients {
            self.miss();
            return Ok(NoteOutcome::Refused);
        }
        if !self.search(trace) {
            self.miss();
            return Ok(NoteOutcome::Full);
        }
        match self.open_segment(client, number, trace, first) {
            Ok(()) => Ok(NoteOutcome::Kept),
            Err(_) => {
                self.miss();
                Err(Memory)
            }
        }
    }

    /// Hears that a client ends a segment of a trace, by a note of this number, the page behind its last, and what it says of it. After `Refused`,
    /// after `Full`, and after `Memory`, the horizon has moved to the count of all segments that were heard; after the last two traces
    /// may stand in another order. Nothing else changed.
    pub fn closed(
        &mut self,
        client: u16,
        number: u64,
        trace: TraceId,
        end: PageName,
        report: &SegmentReport,
    ) -> Result<NoteOutcome, Memory>
        ensures answer { IfOk result (λ noted. noted ≡ answer_of self.old client trace) }
        ensures after { OnOk result (self.new ≡ after_closed self.old client number trace end report.now) }
        ensures memory { OnErr result (self.new ≡ missed (searched self.old trace)) }
    {
        if client >= self.limits.clients {
            self.miss();
            return Ok(NoteOutcome::Refused);
        }
        if !self.search(trace) {
            self.miss();
            return Ok(NoteOutcome::Full);
        }
        match self.close_segment(client, number, trace, end, report) {
            Ok(()) => Ok(NoteOutcome::Kept),
            Err(_) => {
                self.miss();
                Err(Memory)
            }
        }
    }

    /// Hears that a client refused a crumb of a trace that need not be open, by a note of this number. After `Refused`, after `Full`, and
    /// after `Memory`, the horizon has moved to the count of all segments that were heard; after the last two traces may stand in another
    /// order. Nothing else changed.
    pub fn refused(
        &mut self,
        client: u16,
        number: u64,
        trace: TraceId,
    ) -> Result<NoteOutcome, Memory>
        ensures answer { IfOk result (λ noted. noted ≡ answer_of self.old client trace) }
        ensures after { OnOk result (self.new ≡ after_refused self.old client number trace) }
        ensures memory { OnErr result (self.new ≡ missed (searched self.old trace)) }
    {
        if client >= self.limits.clients {
            self.miss();
            return Ok(NoteOutcome::Refused);
        }
        if !self.search(trace) {
            self.miss();
            return Ok(NoteOutcome::Full);
        }
        match self.refuse_crumb(client, number, trace) {
            Ok(()) => Ok(NoteOutcome::Kept),
            Err(_) => {
                self.miss();
                Err(Memory)
            }
        }
    }

    /// Hears that crumbs of a trace that need not be open led to these nodes, by a note of a client with this number. Where the trace is not
    /// kept, it is kept from then on, as one of which no segment was heard. After `Refused`, after `Full`, and after `Memory`, the horizon has
    /// moved to the count of all segments that were heard; after the last two traces may stand in another order. Nothing else changed.
    pub fn led(
        &mut self,
        client: u16,
        number: u64,
        trace: TraceId,
        nodes: NodeSet,
    ) -> Result<NoteOutcome, Memory>
        ensures answer { IfOk result (λ noted. noted ≡ answer_of self.old client trace) }
        ensures after { OnOk result (self.new ≡ after_led self.old client number trace nodes) }
        ensures memory { OnErr result (self.new ≡ missed (searched self.old trace)) }
    {
        if client >= self.limits.clients {
            self.miss();
            return Ok(NoteOutcome::Refused);
        }
        if !self.search(trace) {
            self.miss();
            return Ok(NoteOutcome::Full);
        }
        match self.lead_on(client, number, trace, nodes) {
            Ok(()) => Ok(NoteOutcome::Kept),
            Err(_) => {
                self.miss();
                Err(Memory)
            }
        }
    }

    /// Hears that so much of a trace was lost. Where the trace is not kept nothing changes. Takes no memory.
    pub fn lost(&mut self, trace: TraceId, loss: Loss, count: u64)
        ensures { self.new ≡ after_lost self.old trace loss count }
    {
        if let Some(kept) = self.traces.peek_mut(&trace) {
            kept.lose(loss, count);
        }
    }

    /// A page of a trace is handed out, of a client that is there.
    fn hand_out(&mut self, trace: TraceId, client: u16, page: PageName)
        requires { client < self.old.limits.clients }
        ensures { self.new ≡ handed_in self.old trace client page }
    {
        let track = self.tracks[client as usize];
        self.track(client, track.handed(trace, page));
        self.hand_out_kept(trace, track.is_heard_of(trace, page));
    }

    /// Hears that a page of a trace is handed out, which its client wrote under this name. Where it was not heard of, a note of the trace may
    /// have been missed. A trace that is not kept stays so. Takes no memory.
    pub fn handed_out(&mut self, trace: TraceId, client: u16, page: PageName)
        ensures { self.new ≡ after_handed_out self.old trace client page }
    {
        if client >= self.limits.clients {
            self.hand_out_kept(trace, false);
            return;
        }
        self.hand_out(trace, client, page);
    }

    /// How many segments of a trace are open.
    fn open_segments(&self, trace: TraceId) -> usize
        ensures count { result ≡ count_by (is_open trace) self.now.tracks }
        ensures few { result ≤ MOST_CLIENTS }
    {
        self.tracks
            .iter()
            .filter(|track| track.is_open(trace))
            .count()
    }

    /// How whole the node's part of a trace is that this group claims, as the node says it to the hub (`docs/RULES.md`, "How
    /// whole a node's part is"): whole, lost, open, unheard since the horizon or unknown, with the horizon as a count of
    /// segments, the pages that were handed out, the losses by cause, and the nodes to which crumbs led. A trace that is not kept
    /// has no pages and no losses.
    pub fn standing(&self, trace: TraceId, group: GroupId) -> Standing
        ensures { result ≡ standing_of self.now trace group }
    {
        let segments = self.open_segments(trace);
        let (wholeness, pages, losses) = match self.traces.peek(&trace) {
            Some(kept) => (kept.wholeness(segments), kept.handed_out, kept.losses),
            None => (Wholeness::UnheardSince, 0, no_losses()),
        };
        Standing {
            trace,
            group,
            wholeness,
            open_segments: segments as u32,
            horizon: self.horizon,
            pages,
            crumbs: self.crumbs(trace),
            losses,
        }
    }

    /// The nodes to which crumbs of a trace led, as far as notes of it were heard while it was kept.
    pub fn crumbs(&self, trace: TraceId) -> NodeSet
        ensures { result ≡ crumbs_of self.now trace }
    {
        match self.traces.peek(&trace) {
            Some(kept) => kept.crumbs,
            None => NodeSet::none(),
        }
    }

    /// What is known of a trace, or `None` where it is not kept.
    pub fn kept(&self, trace: TraceId) -> Option<&Kept>
        ensures { option_copied result ≡ kept_of self.now trace }
    {
        self.traces.peek(&trace)
    }

    /// How many segments were heard of, of all traces, since the notes were made.
    pub fn heard(&self) -> u64
        ensures { result ≡ self.now.heard }
    {
        self.heard
    }

    /// How many traces are kept.
    pub fn len(&self) -> usize
        ensures len { result ≡ length self.now.traces }
        ensures within { result ≤ self.now.limits.traces }
    {
        self.traces.len()
    }
}
