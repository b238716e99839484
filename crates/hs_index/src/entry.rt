//! What is indexed of one trace.

ghost use Rattle.std.specs.Prelude.{◌≡◌, ◌+◌, ◌++◌, ◌<◌, ◌≤◌, length, map, OnOk, OnErr, IfErr};
ghost use Rattle.hs_index.specs.Index.{nothing, with_chunk, with_crumb, leaving, leaving_of};
ghost use Rattle.hs_words.specs.Buffers.{buffer_of};
ghost use Rattle.hs_index.specs.Touched.{IsLast};

use crate::answers::{Gone, TakenTrace};
use hs_base::limits::MOST_NODES;
use hs_base::{List, NodeId, NodeSet};
use hs_words::{Held, Token};
use std::alloc::Global;
use std::marker::Model;

/// The chunks of a trace in the order of arrival, and the nodes to which its crumbs lead.
#[derive(Drop)]
pub struct IndexedTrace<L: Token> {
    held: List<Held<L>>,
    /// Empty, with room for all chunks, so that they go without memory.
    gone: List<Gone<L>>,
    crumbs: NodeSet,
}

impl<L: Token> Model for IndexedTrace<L> {
    ghost use Rattle.hs_index.specs.Index.{PlainIndexedTrace};

    ghost Value = { PlainIndexedTrace L };

    ghost use Rattle.hs_index.specs.EntryLayout.{noted_in, HasRoom};

    ghost view = { noted_in };

    ghost invariant = { HasRoom };
}

impl<L: Token> IndexedTrace<L> {
    /// A trace with no chunk and no crumb. Takes no memory.
    pub fn new(alloc: Global) -> IndexedTrace<L>
        ensures { result ≡ nothing }
    {
        IndexedTrace {
            held: List::new(alloc),
            gone: List::new(alloc),
            crumbs: NodeSet::none(),
        }
    }

    /// Adds a chunk, or hands it back for want of memory.
    pub fn add(&mut self, held: Held<L>) -> Result<(), Held<L>>
        ensures ok { OnOk result (self.new ≡ with_chunk self.old (buffer_of held)) }
        ensures err { OnErr result (self.new ≡ self.old) }
        ensures back { IfErr result (λ back. buffer_of back ≡ buffer_of held) }
    {
        let Some(chunks) = self.held.len().checked_add(1) else {
            return Err(held);
        };
        if self.held.reserve(1).is_err() || self.gone.reserve(chunks).is_err() {
            return Err(held);
        }
        self.held.push(held);
        Ok(())
    }

    /// Adds a node to which a crumb leads.
    pub fn add_crumb(&mut self, node: NodeId)
        requires { node.0 < MOST_NODES }
        ensures { self.new ≡ with_crumb self.old node }
    {
        self.crumbs = self.crumbs.with(node);
    }

    /// The number of chunks.
    pub fn len(&self) -> usize
        ensures { result ≡ length self.now.chunks }
    {
        self.held.len()
    }

    /// The nodes to which crumbs lead.
    pub fn crumbs(&self) -> NodeSet
        ensures { result ≡ self.now.crumbs }
    {
        self.crumbs
    }

    /// The chunk that came last.
    pub fn into_last(self) -> Held<L>
        requires { 0 < length self.chunks }
        ensures { IsLast self.chunks (buffer_of result) }
    {
        let IndexedTrace {
            mut held,
            gone: _,
            crumbs: _,
        } = self;
        match held.pop() {
            Some(last) => last,
            None => unreachable!(),
        }
    }

    /// The chunks of a trace that the index lets go, with the counts of chunks and traces that were indexed then. Takes no memory.
    pub fn into_gone(self, chunks: u32, traces: u32) -> List<Gone<L>>
        ensures { map leaving_of result.items ≡ map (leaving chunks traces) self.chunks }
    {
        let IndexedTrace {
            held,
            mut gone,
            crumbs: _,
        } = self;
        for held in held.into_vec() {
            gone.push(Gone {
                held,
                chunks,
                traces,
            });
        }
        gone
    }

    /// Puts the chunks behind others, where there is room for them. Takes no memory.
    pub fn join(self, others: &mut List<Held<L>>)
        requires { length others.old.items + length self.chunks ≤ others.old.room }
        ensures items { map buffer_of others.new.items
            ≡ map buffer_of others.old.items ++ self.chunks }
        ensures room { others.old.room ≤ others.new.room }
    {
        let IndexedTrace {
            held,
            gone: _,
            crumbs: _,
        } = self;
        for held in held.into_vec() {
            others.push(held);
        }
    }

    /// All that is indexed of the trace, as a claim takes it: its chunks in the order of arrival, and its crumbs.
    pub fn release(self) -> TakenTrace<L>
        ensures held { map buffer_of result.held.items ≡ self.chunks }
        ensures crumbs { result.crumbs ≡ self.crumbs }
    {
        let IndexedTrace {
            held,
            gone: _,
            crumbs,
        } = self;
        TakenTrace { held, crumbs }
    }
}
