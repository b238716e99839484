//! The index.

ghost use Rattle.std.specs.Prelude.{◌≡◌, ◌+◌, ◌<◌, ◌≤◌, length, map, find, None, IfOk, IfErr, OnOk, OnErr, IsOk, IsSome};
ghost use Rattle.hs_index.specs.Index.{leaving_of, is_of, new_index, noted_of, chunk_count, count_chunks, chunks_left, arrived, crumbed, going, IsWithin};
ghost use Rattle.hs_words.specs.Buffers.{buffer_of};
ghost use Rattle.hs_index.specs.Calls.{after_call, Arrived, Crumbed, Claimed};

use crate::answers::{Gone, TakenTrace};
use crate::recent::Recent;
use hs_base::limits::MOST_NODES;
use hs_base::{Crumb, List, Memory, NodeSet, TraceId};
use hs_words::{Held, Token};
use std::alloc::Global;
use std::marker::Model;

/// An index of traces that stays at or below a number of chunks and a number of traces.
#[derive(Drop)]
pub struct TraceIndex<L: Token> {
    threshold: u32,
    most: u32,
    recent: Recent<L>,
}

impl<L: Token> Model for TraceIndex<L> {
    ghost use Rattle.hs_index.specs.Index.{Index};

    ghost Value = { Index L };

    ghost use Rattle.hs_index.specs.IndexLayout.{index_in, IsIndex};

    ghost view = { index_in };

    ghost invariant = { IsIndex };
}

impl<L: Token> TraceIndex<L> {
    /// An empty index in which at most `threshold` chunks and `traces` traces stay.
    pub fn make(alloc: Global, threshold: u32, traces: u32) -> Result<TraceIndex<L>, Memory>
        ensures { IfOk result (λ index. index ≡ new_index threshold traces) }
    {
        Ok(TraceIndex {
            threshold,
            most: traces,
            recent: Recent::make(alloc, traces)?,
        })
    }

    /// Indexes a chunk whose page was started, which touches the page's trace. Answers what goes, in order. For
    /// want of memory the chunk is handed back; an index of 2^32 - 1 chunks or traces takes no more.
    pub fn arrive(&mut self, held: Held<L>) -> Result<List<Gone<L>>, Held<L>>
        requires started { IsSome held.chunk.page }
        ensures gone { IfOk result (λ gone. map leaving_of gone.items ≡ going (arrived self.old (buffer_of held))) }
        ensures after { OnOk result (self.new ≡ after_call self.old (Arrived (buffer_of held))) }
        ensures count { IfOk result (λ gone. count_chunks self.new.touched + length gone.items ≡ count_chunks self.old.touched + 1) }
        ensures within { IsWithin self.new }
        ensures back { IfErr result (λ back. buffer_of back ≡ buffer_of held) }
        ensures same { OnErr result (self.new ≡ self.old) }
    {
        let Some(header) = held.chunk.header() else {
            unreachable!()
        };
        self.recent.add(header.trace, held)?;
        Ok(self.recent.evict(self.threshold, self.most))
    }

    /// Indexes a crumb, which touches its trace. Answers what goes, in order. Takes memory only where the trace
    /// is not indexed.
    pub fn crumb(&mut self, crumb: Crumb) -> Result<List<Gone<L>>, Memory>
        requires node { crumb.node.0 < MOST_NODES }
        ensures gone { IfOk result (λ gone. map leaving_of gone.items ≡ going (crumbed self.old crumb.trace crumb.node)) }
        ensures after { OnOk result (self.new ≡ after_call self.old (Crumbed crumb.trace crumb.node)) }
        ensures count { IfOk result (λ gone. count_chunks self.new.touched + length gone.items ≡ count_chunks self.old.touched) }
        ensures within { IsWithin self.new }
        ensures same { OnErr result (self.new ≡ self.old) }
        ensures fresh { OnErr result (find (is_of crumb.trace) self.old.touched ≡ None) }
    {
        self.recent.add_crumb(crumb)?;
        Ok(self.recent.evict(self.threshold, self.most))
    }

    /// Takes a trace out of the index, with its chunks and crumbs. Takes no memory.
    pub fn claim(&mut self, trace: TraceId) -> Result<TakenTrace<L>, Memory>
        ensures ok { IsOk result }
        ensures held { IfOk result (λ taken. map buffer_of taken.held.items ≡ (noted_of trace self.old.touched).chunks) }
        ensures crumbs { IfOk result (λ taken. taken.crumbs ≡ (noted_of trace self.old.touched).crumbs) }
        ensures after { self.new ≡ after_call self.old (Claimed trace) }
        ensures count { IfOk result (λ taken. count_chunks self.new.touched + length taken.held.items ≡ count_chunks self.old.touched) }
        ensures within { IsWithin self.new }
    {
        Ok(self.recent.take(trace).release())
    }

    /// All chunks that are left, trace by trace from the one touched longest ago, each trace's in the order of
    /// arrival. `Memory` comes where there is none for the list, which no list without chunks needs; the chunks are
    /// then gone.
    pub fn finish(self) -> Result<List<Held<L>>, Memory>
        ensures left { IfOk result (λ left. map buffer_of left.items ≡ chunks_left self.touched) }
        ensures some { OnErr result (0 < count_chunks self.touched) }
    {
        let TraceIndex {
            threshold: _,
            most: _,
            recent,
        } = self;
        recent.into_chunks()
    }

    /// The nodes to which crumbs of an indexed trace lead. There are none where the trace is not indexed.
    pub fn crumbs(&self, trace: TraceId) -> NodeSet
        ensures { result ≡ (noted_of trace self.now.touched).crumbs }
    {
        self.recent.crumbs(trace)
    }

    /// The number of indexed chunks of a trace. There are none where the trace is not indexed.
    pub fn chunks_of(&self, trace: TraceId) -> usize
        ensures { result ≡ chunk_count (noted_of trace self.now.touched) }
    {
        self.recent.chunks_of(trace)
    }

    /// The number of indexed chunks.
    pub fn chunks(&self) -> u32
        ensures value { result ≡ count_chunks self.now.touched }
        ensures within { result ≤ self.now.threshold }
    {
        self.recent.chunks()
    }

    /// The number of indexed traces.
    pub fn traces(&self) -> u32
        ensures value { result ≡ length self.now.touched }
        ensures within { result ≤ self.now.most }
    {
        self.recent.traces()
    }
}
