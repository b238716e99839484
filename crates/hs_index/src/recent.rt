//! The indexed traces in the order of their last touch.

ghost use Rattle.std.specs.Prelude.{◌≡◌, ◌+◌, ◌-◌, ◌<◌, ◌≤◌, ◌^◌, ◌++◌, [], ◌∷◌, length, map, find, IfOk, IfSome, IfNone, IfErr, OnOk, OnErr, None, true};
ghost use Rattle.hs_index.specs.Index.{leaving_of, is_of, is_over, nothing, noted_of, others, touch, with_chunk, with_crumb, chunk_count, count_chunks, chunks_left, kept, evicted};
ghost use Rattle.hs_words.specs.Buffers.{buffer_of};
ghost use Rattle.hs_index.specs.Touched.{indexed};

use crate::answers::Gone;
use crate::entry::IndexedTrace;
use hs_base::limits::MOST_NODES;
use hs_base::{Crumb, List, Memory, NodeSet, TraceId};
use hs_words::{Held, Token};
use lru::LruCache;
use std::alloc::Global;
use std::marker::Model;
use std::num::NonZeroUsize;

/// As many chunks or traces as can be counted.
const MOST: u32 = u32::MAX;

/// The indexed traces, with the number of their chunks.
#[derive(Drop)]
pub struct Recent<L: Token> {
    chunks: u32,
    cache: LruCache<TraceId, IndexedTrace<L>>,
}

impl<L: Token> Model for Recent<L> {
    ghost use Rattle.hs_index.specs.Touched.{Touched};

    ghost Value = { Touched L };

    ghost use Rattle.hs_index.specs.RecentLayout.{touched_in, IsCounted};

    ghost view = { touched_in };

    ghost invariant = { IsCounted };
}

impl<L: Token> Recent<L> {
    /// No traces, with room for one more than `most`. Memory is taken as they come.
    pub fn make(alloc: Global, most: u32) -> Result<Recent<L>, Memory>
        ensures none { IfOk result (λ recent. recent.traces ≡ []) }
        ensures room { IfOk result (λ recent. recent.room ≡ most + 1) }
    {
        let room = NonZeroUsize::MIN.saturating_add(most as usize);
        Ok(Recent {
            chunks: 0,
            cache: LruCache::sparse(alloc, room)?,
        })
    }

    /// Puts a chunk behind the others of its trace, which becomes the latest one. Without memory the chunk comes back.
    pub fn add(&mut self, trace: TraceId, held: Held<L>) -> Result<(), Held<L>>
        requires { length self.old.traces < self.old.room }
        ensures ok { OnOk result (self.new.traces
            ≡ touch trace (with_chunk (noted_of trace self.old.traces) (buffer_of held)) self.old.traces) }
        ensures count { OnOk result (count_chunks self.new.traces ≡ count_chunks self.old.traces + 1) }
        ensures room { self.new.room ≡ self.old.room }
        ensures err { OnErr result (self.new.traces ≡ self.old.traces) }
        ensures back { IfErr result (λ back. buffer_of back ≡ buffer_of held) }
    {
        if self.chunks == MOST || self.cache.len() >= MOST as usize {
            return Err(held);
        }
        match self.cache.peek_mut(&trace) {
            Some(entry) => {
                entry.add(held)?;
                self.cache.promote(&trace);
                self.chunks += 1;
                Ok(())
            }
            None => self.add_new(trace, held),
        }
    }

    /// Adds a trace that is not there, with its first chunk. Without memory the chunk comes back.
    fn add_new(&mut self, trace: TraceId, held: Held<L>) -> Result<(), Held<L>>
        requires new { find (is_of trace) self.old.traces ≡ None }
        requires room { length self.old.traces < self.old.room }
        requires few { length self.old.traces < 2 ^ 32 - 1 }
        requires count { count_chunks self.old.traces + 1 < 2 ^ 32 }
        ensures ok { OnOk result (self.new.traces ≡ self.old.traces ++ indexed (trace, with_chunk nothing (buffer_of held)) ∷ []) }
        ensures room { self.new.room ≡ self.old.room }
        ensures err { OnErr result (self.new.traces ≡ self.old.traces) }
        ensures back { IfErr result (λ back. buffer_of back ≡ buffer_of held) }
    {
        let mut entry = IndexedTrace::new(*self.cache.allocator());
        entry.add(held)?;
        match self.insert(trace, entry) {
            Ok(()) => Ok(()),
            Err(entry) => Err(entry.into_last()),
        }
    }

    /// Adds a crumb to its trace and touches the trace. Takes memory only for a trace that is not there.
    pub fn add_crumb(&mut self, crumb: Crumb) -> Result<(), Memory>
        requires room { length self.old.traces < self.old.room }
        requires node { crumb.node.0 < MOST_NODES }
        ensures ok { OnOk result (self.new.traces
            ≡ touch crumb.trace (with_crumb (noted_of crumb.trace self.old.traces) crumb.node) self.old.traces) }
        ensures count { OnOk result (count_chunks self.new.traces ≡ count_chunks self.old.traces) }
        ensures room { self.new.room ≡ self.old.room }
        ensures err { OnErr result (self.new.traces ≡ self.old.traces) }
        ensures fresh { OnErr result (find (is_of crumb.trace) self.old.traces ≡ None) }
    {
        let full = self.cache.len() >= MOST as usize;
        match self.cache.peek_mut(&crumb.trace) {
            Some(entry) => {
                entry.add_crumb(crumb.node);
                self.cache.promote(&crumb.trace);
                Ok(())
            }
            None => {
                if full {
                    return Err(Memory);
                }
                let mut entry = IndexedTrace::new(*self.cache.allocator());
                entry.add_crumb(crumb.node);
                match self.insert(crumb.trace, entry) {
                    Ok(()) => Ok(()),
                    Err(_) => Err(Memory),
                }
            }
        }
    }

    /// Adds a trace that is not there, as the one touched last.
    fn insert(&mut self, trace: TraceId, entry: IndexedTrace<L>) -> Result<(), IndexedTrace<L>>
        requires new { find (is_of trace) self.old.traces ≡ None }
        requires room { length self.old.traces < self.old.room }
        requires few { length self.old.traces < 2 ^ 32 - 1 }
        requires count { count_chunks self.old.traces + chunk_count entry < 2 ^ 32 }
        ensures ok { OnOk result (self.new.traces ≡ self.old.traces ++ indexed (trace, entry) ∷ []) }
        ensures room { self.new.room ≡ self.old.room }
        ensures err { OnErr result (self.new.traces ≡ self.old.traces) }
        ensures back { IfErr result (λ back. back ≡ entry) }
    {
        let chunks = entry.len() as u32;
        match self.cache.push(trace, entry) {
            Ok(_) => {
                self.chunks += chunks;
                Ok(())
            }
            Err(failed) => Err(failed.value.1),
        }
    }

    /// Takes out what is indexed of a trace, which is nothing where the trace is not there.
    pub fn take(&mut self, trace: TraceId) -> IndexedTrace<L>
        ensures taken { result ≡ noted_of trace self.old.traces }
        ensures others { self.new.traces ≡ others trace self.old.traces }
        ensures count { count_chunks self.new.traces + chunk_count result ≡ count_chunks self.old.traces }
        ensures room { self.new.room ≡ self.old.room }
    {
        if self.cache.len() == 0 {
            return IndexedTrace::new(*self.cache.allocator());
        }
        match self.cache.pop_entry(&trace) {
            Some((_, entry)) => {
                self.chunks -= entry.len() as u32;
                entry
            }
            None => IndexedTrace::new(*self.cache.allocator()),
        }
    }

    /// Takes out the trace that was touched longest ago, where there is one.
    fn take_oldest(&mut self) -> Option<(TraceId, IndexedTrace<L>)>
        ensures some { IfSome result (λ oldest. self.old.traces ≡ indexed oldest ∷ self.new.traces) }
        ensures none { IfNone result ((self.old.traces ≡ []) × (self.new.traces ≡ [])) }
        ensures room { self.new.room ≡ self.old.room }
    {
        let (trace, entry) = self.cache.pop_lru()?;
        self.chunks -= entry.len() as u32;
        Some((trace, entry))
    }

    /// Lets traces go, as long as there are more chunks or more traces than these, which there are by one at
    /// most. Takes no memory.
    pub fn evict(&mut self, threshold: u32, most: u32) -> List<Gone<L>>
        requires chunks { count_chunks self.old.traces ≤ threshold + 1 }
        requires traces { length self.old.traces ≤ most + 1 }
        ensures gone { map leaving_of result.items ≡ evicted threshold most self.old.traces }
        ensures stay { self.new.traces ≡ kept threshold most self.old.traces }
        ensures room { self.new.room ≡ self.old.room }
    {
        while self.chunks() > threshold || self.traces() > most {
            let (chunks, traces) = (self.chunks(), self.traces());
            let Some((_, entry)) = self.take_oldest() else {
                unreachable!()
            };
            if entry.len() > 0 {
                return entry.into_gone(chunks, traces);
            }
        }
        List::new(*self.cache.allocator())
    }

    /// All chunks, trace by trace in the order of their last touch, or `Memory` where there is no memory for the list.
    pub fn into_chunks(mut self) -> Result<List<Held<L>>, Memory>
        ensures left { IfOk result (λ left. map buffer_of left.items ≡ chunks_left self.traces) }
        ensures some { OnErr result (0 < count_chunks self.traces) }
    {
        let mut left = List::with_room(*self.cache.allocator(), self.chunks() as usize)?;
        while let Some((_, entry)) = self.take_oldest() {
            entry.join(&mut left);
        }
        Ok(left)
    }

    /// The nodes to which crumbs of a trace lead.
    pub fn crumbs(&self, trace: TraceId) -> NodeSet
        ensures { result ≡ (noted_of trace self.now.traces).crumbs }
    {
        if self.cache.len() == 0 {
            return NodeSet::none();
        }
        match self.cache.peek(&trace) {
            Some(entry) => entry.crumbs(),
            None => NodeSet::none(),
        }
    }

    /// The number of chunks of a trace.
    pub fn chunks_of(&self, trace: TraceId) -> usize
        ensures { result ≡ chunk_count (noted_of trace self.now.traces) }
    {
        if self.cache.len() == 0 {
            return 0;
        }
        match self.cache.peek(&trace) {
            Some(entry) => entry.len(),
            None => 0,
        }
    }

    /// The number of chunks.
    pub fn chunks(&self) -> u32
        ensures { result ≡ count_chunks self.now.traces }
    {
        self.chunks
    }

    /// The number of traces.
    pub fn traces(&self) -> u32
        ensures { result ≡ length self.now.traces }
    {
        self.cache.len() as u32
    }
}
