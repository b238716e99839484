//! All pages that are held.

ghost use Rattle.std.specs.Prelude.{◌≡◌, ◌≢◌, ◌+◌, ◌<◌, ◌≤◌, ◌↔◌, ◌⊎◌, [], count_by, length, map, true, false, Ok, Err, Some, None, IfOk, IfErr, OnOk, OnErr, IsSome, option_map};
ghost use Rattle.std.specs.Map.{lookup};
ghost use Rattle.std.specs.NonZero.{non_zero_usize_get};
ghost use Rattle.hs_base.specs.Ids.{same_trace};
ghost use Rattle.hs_words.specs.Pages.{Sheet};
ghost use Rattle.hs_words.specs.Reading.{Spells};
ghost use Rattle.hs_traces.specs.Keys.{is_from, is_own, key_of};
ghost use Rattle.hs_traces.specs.Parts.{Pages, bytes_of};
ghost use Rattle.hs_traces.specs.Traces.{PlainTraces, AreSmall, no_traces, has_page, has_page_in, keys_in, is_full, answer_to, answer_for, with_page_of, oldest_of, offered, answer_of_offer, after_saved, is_out, is_waiting, page_behind, page_out, counts_of, held_bytes};

use crate::answers::{Added, LEAST_BYTES, MakeFault, Offered, TraceCounts, TraceLimits};
use crate::key::{CoreId, PageKey, is_own, key_of};
use crate::part::{PageBytes, Part};
use crate::reading::read_header;
use crate::shelf::Shelf;
use hs_base::{List, Memory, TraceId};
use lru::LruCache;
use std::alloc::Global;
use std::marker::Model;
use std::num::NonZeroUsize;

/// The pages of claimed traces, trace by trace: what waits to be given out, and what is given out and not saved. Contracts see
/// the parts that wait, the latest one first, and those that are out, in the order in which they were given out.
#[derive(Drop)]
pub struct Traces {
    alloc: Global,
    limits: TraceLimits,
    /// The bytes of all pages.
    bytes: u64,
    waiting: LruCache<TraceId, Part>,
    out: Shelf,
}

impl Model for Traces {
    ghost use Rattle.hs_traces.specs.Traces.{PlainTraces};
    ghost use Rattle.hs_traces.specs.TracesLayout.{traces_in, IsKept};

    ghost Value = { PlainTraces };

    ghost view = { traces_in };

    ghost invariant = { IsKept };
}

impl Traces {
    /// No pages, within these limits. What has a fixed size is taken here.
    pub fn make(alloc: Global, limits: TraceLimits) -> Result<Traces, MakeFault>
        ensures made { IfOk result (λ traces. traces ≡ no_traces limits) }
        ensures limits { (result ≡ Err MakeFault.Limits) ↔ AreSmall limits }
    {
        let Some(hold) = NonZeroUsize::new(limits.hold as usize) else {
            return Err(MakeFault::Limits);
        };
        if limits.outs == 0 || limits.bytes < LEAST_BYTES {
            return Err(MakeFault::Limits);
        }
        match Traces::empty(alloc, limits, hold) {
            Ok(traces) => Ok(traces),
            Err(_) => Err(MakeFault::Memory),
        }
    }

    /// No pages, within these limits.
    fn empty(alloc: Global, limits: TraceLimits, hold: NonZeroUsize) -> Result<Traces, Memory>
        requires { non_zero_usize_get hold ≡ limits.hold }
        ensures { IfOk result (λ traces. traces ≡ no_traces limits) }
    {
        Ok(Traces {
            alloc,
            limits,
            bytes: 0,
            waiting: LruCache::new(alloc, hold)?,
            out: Shelf::make(alloc, limits.outs as usize)?,
        })
    }

    /// Adds a page, by its bytes. After each answer but `Added`, and after `Memory`, all is as it was.
    pub fn add(&mut self, sender: CoreId, bytes: &[u8]) -> Result<Added, Memory>
        ensures answer { IfOk result (λ added. (sheet : Sheet) → Spells sheet bytes.now
            → added ≡ answer_for self.old sender sheet (length bytes.now)) }
        ensures no_page { IfOk result (λ added. (added ≡ Added.NoPage) ↔ ((sheet : Sheet) → Spells sheet bytes.now → ⊥)) }
        ensures added { IfOk result (λ added. added ≡ Added.Added → (sheet : Sheet) → Spells sheet bytes.now
            → self.new ≡ with_page_of self.old sheet.header.trace (key_of sender sheet.header) bytes.now) }
        ensures same { IfOk result (λ added. added ≢ Added.Added → self.new ≡ self.old) }
        ensures memory { OnErr result (self.new ≡ self.old) }
    {
        let Some(header) = read_header(self.alloc, bytes)? else {
            return Ok(Added::NoPage);
        };
        if !is_own(&sender, &header) {
            return Ok(Added::Foreign);
        }
        self.add_page(header.trace, key_of(&sender, &header), bytes)
    }

    /// Adds a page of a trace, by its key. After each answer but `Added`, and after `Memory`, all is as it was.
    pub fn add_page(&mut self, trace: TraceId, key: PageKey, bytes: &[u8]) -> Result<Added, Memory>
        ensures answer { IfOk result (λ added. added ≡ answer_to self.old trace key (length bytes.now)) }
        ensures added { IfOk result (λ added. added ≡ Added.Added → self.new ≡ with_page_of self.old trace key bytes.now) }
        ensures same { IfOk result (λ added. added ≢ Added.Added → self.new ≡ self.old) }
        ensures memory { OnErr result (self.new ≡ self.old) }
    {
        if self.has(trace, key) {
            return Ok(Added::Repeated);
        }
        if self.is_full(trace, bytes.len()) {
            return Ok(Added::Full);
        }
        let page = PageBytes::copy(self.alloc, bytes)?;
        self.put(trace, key, page)?;
        Ok(Added::Added)
    }

    /// Whether a page of the trace with this key is held.
    fn has(&self, trace: TraceId, key: PageKey) -> bool
        ensures { result ≡ has_page self.now trace key }
    {
        let waits = match self.waiting.peek(&trace) {
            Some(part) => part.has(key),
            None => false,
        };
        if waits {
            return true;
        }
        match self.out.get(trace) {
            Some(part) => part.has(key),
            None => false,
        }
    }

    /// Whether a page of the trace with so many bytes exceeds a limit.
    fn is_full(&self, trace: TraceId, len: usize) -> bool
        ensures { result ≡ is_full self.now trace len }
    {
        if len as u64 > self.limits.bytes - self.bytes {
            return true;
        }
        !self.waiting.contains(&trace) && self.waiting.len() >= self.limits.hold as usize
    }

    /// Puts a page among those of its trace that wait.
    fn put(&mut self, trace: TraceId, key: PageKey, page: PageBytes) -> Result<(), Memory>
        requires new { has_page self.old trace key ≡ false }
        requires room { is_full self.old trace (length page) ≡ false }
        ensures ok { OnOk result (self.new ≡ with_page_of self.old trace key page) }
        ensures err { OnErr result (self.new ≡ self.old) }
    {
        let len = page.as_slice().len() as u64;
        match self.waiting.peek_mut(&trace) {
            Some(part) => {
                part.add(key, page)?;
                self.bytes += len;
                Ok(())
            }
            None => self.put_first(trace, key, page),
        }
    }

    /// Puts a page of a trace of which none waits.
    fn put_first(&mut self, trace: TraceId, key: PageKey, page: PageBytes) -> Result<(), Memory>
        requires new { lookup (same_trace trace) self.old.waiting ≡ None }
        requires room { is_full self.old trace (length page) ≡ false }
        ensures ok { OnOk result (self.new ≡ with_page_of self.old trace key page) }
        ensures err { OnErr result (self.new ≡ self.old) }
    {
        let len = page.as_slice().len() as u64;
        let mut part = Part::new(self.alloc);
        part.add(key, page)?;
        match self.waiting.put(trace, part) {
            Ok(_) => {
                self.bytes += len;
                Ok(())
            }
            Err(_) => Err(Memory),
        }
    }

    /// The trace that waits longest, or `None` where none waits.
    pub fn oldest(&self) -> Option<TraceId>
        ensures { result ≡ oldest_of self.now }
    {
        match self.waiting.peek_lru() {
            Some((trace, _)) => Some(*trace),
            None => None,
        }
    }

    /// Gives out what waits of a trace. It is held until it is saved, and what comes meanwhile waits as a later part. Takes no
    /// memory.
    pub fn offer(&mut self, trace: TraceId) -> Offered
        ensures answer { result ≡ answer_of_offer self.old trace }
        ensures given { result ≡ Offered.Given → self.new ≡ offered self.old trace }
        ensures same { result ≢ Offered.Given → self.new ≡ self.old }
    {
        if self.out.get(trace).is_some() {
            return Offered::Unsaved;
        }
        if self.out.len() >= self.limits.outs as usize {
            return Offered::Busy;
        }
        match self.waiting.pop(&trace) {
            Some(part) => {
                self.out.add(trace, part);
                Offered::Given
            }
            None => Offered::Unknown,
        }
    }

    /// Lets go what is given out of a trace, and answers whether there was something. Takes no memory.
    pub fn saved(&mut self, trace: TraceId) -> bool
        ensures answer { result ≡ is_out self.old trace }
        ensures goes { self.new ≡ after_saved self.old trace }
    {
        match self.out.take(trace) {
            Some(part) => {
                self.bytes -= part.bytes();
                true
            }
            None => false,
        }
    }

    /// The first page behind this key, or the first of all, of what is given out of a trace: its key and its bytes. `None` where
    /// there is none.
    pub fn next_page(&self, trace: TraceId, after: Option<PageKey>) -> Option<(PageKey, &[u8])>
        ensures { option_map (λ next. (next.0, next.1.now)) result ≡ page_behind self.now trace after }
    {
        let part = self.out.get(trace)?;
        part.next(after)
    }

    /// The page with this key of what is given out of a trace.
    pub fn page(&self, trace: TraceId, key: PageKey) -> Option<&[u8]>
        ensures { option_map (λ bytes. bytes.now) result ≡ page_out self.now trace key }
    {
        let part = self.out.get(trace)?;
        part.get(key)
    }

    /// Whether a part of a trace waits to be given out.
    pub fn waits(&self, trace: TraceId) -> bool
        ensures { result ≡ is_waiting self.now trace }
    {
        self.waiting.contains(&trace)
    }

    /// How many pages of what waits of a trace a life of a node wrote.
    pub fn waiting_from(&self, trace: TraceId, node: u16, epoch: u64) -> usize
        ensures { result ≡ count_by (is_from node epoch) (keys_in self.now.waiting trace) }
    {
        match self.waiting.peek(&trace) {
            Some(part) => part.count_from(node, epoch),
            None => 0,
        }
    }

    /// Whether a page with this key is among what is given out of a trace.
    pub fn is_out_page(&self, trace: TraceId, key: PageKey) -> bool
        ensures { result ≡ has_page_in self.now.out trace key }
    {
        match self.out.get(trace) {
            Some(part) => part.has(key),
            None => false,
        }
    }

    /// The keys of what is given out of a trace, in their order.
    pub fn page_keys(&self, trace: TraceId) -> Result<List<PageKey>, Memory>
        ensures { IfOk result (λ keys. keys.items ≡ keys_in self.now.out trace) }
    {
        match self.out.get(trace) {
            Some(part) => part.keys(self.alloc),
            None => Ok(List::new(self.alloc)),
        }
    }

    /// How much is held.
    pub fn counts(&self) -> TraceCounts
        ensures counts { result ≡ counts_of self.now }
        ensures within { held_bytes self.now ≤ self.now.limits.bytes }
    {
        TraceCounts {
            waiting: self.waiting.len(),
            out: self.out.len(),
            bytes: self.bytes,
        }
    }
}
