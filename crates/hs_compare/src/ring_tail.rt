//! Tail sampling over a ring of records.

ghost use Rattle.std.specs.Prelude.{◌≡◌, ◌≤◌, ◌<◌, ◌+◌, ◌++◌, [], ◌∷◌, length, map, IfOk, OnOk, OnErr};
ghost use Rattle.hs_compare.specs.Ringing.{new_ring, comes, names, is_among};

use crate::limits::MAX_ROOM;
use crate::record_queue::{Queues, RecordQueue, add, take};
use crate::ring::{Records, TracedRecord, is_in, join, make_way};
use hs_base::{List, Memory, RecordId, TraceId};
use indexmap::{IndexMap, IndexSet};
use std::alloc::Global;
use std::marker::Model;

/// Keeps the records of named traces that are still in a ring of so many records when their trace is first
/// named, and those that come later. Contracts see its room, the records that wait in the ring, the traces
/// that were named, and the kept records with their traces. Each call takes constant time in the long run: a
/// record of a named trace stays in the ring, and goes when it comes to the front or the ring is full. For the
/// records that wait there is room among those that are kept, so a naming takes memory for the trace alone.
#[derive(Drop)]
pub struct RingTail {
    alloc: Global,
    room: usize,
    ring: Records,
    waiting: usize,
    queues: Queues,
    named: IndexSet<TraceId>,
    kept: List<RecordId>,
    traces: List<TraceId>,
}

impl Model for RingTail {
    ghost use Rattle.hs_compare.specs.Ringing.{Ringing};

    ghost Value = { Ringing };

    ghost use Rattle.hs_compare.specs.RingTails.{ringing_of, IsRingTail};

    ghost view = { ringing_of };

    ghost invariant = { IsRingTail };
}

impl RingTail {
    /// An empty ring for so many records, at which no trace is named.
    pub fn make(alloc: Global, room: u32) -> Result<RingTail, Memory>
        requires { (1 ≤ room) × (room ≤ MAX_ROOM) }
        ensures { IfOk result (λ ring. ring ≡ new_ring room) }
    {
        let room = room as usize;
        Ok(RingTail {
            alloc,
            room,
            ring: Records::with_capacity(alloc, 2 * room)?,
            waiting: 0,
            queues: IndexMap::new(alloc),
            named: IndexSet::new(alloc),
            kept: List::new(alloc),
            traces: List::new(alloc),
        })
    }

    /// A record comes. It is kept where its trace is named, and else joins the ring, from which the first
    /// record goes where there is no room. After `Memory` all is as it was.
    pub fn note(&mut self, id: RecordId, trace: TraceId) -> Result<(), Memory>
        ensures ok { OnOk result (self.new ≡ comes (record { id = id; trace = trace }) self.old) }
        ensures err { OnErr result (self.new ≡ self.old) }
    {
        make_room(&mut self.kept, &mut self.traces, self.waiting + 1)?;
        if is_in(&self.named, trace) {
            keep(&mut self.kept, &mut self.traces, id, trace);
            return Ok(());
        }
        add(self.alloc, &mut self.queues, id, trace)?;
        let waiting = make_way(
            &mut self.ring,
            &mut self.queues,
            &self.named,
            self.waiting,
            self.room,
        );
        self.waiting = waiting + 1;
        join(&mut self.ring, &self.named, TracedRecord { id, trace });
        Ok(())
    }

    /// A trace is named. Where this is the first time, its records leave the ring and are kept, in the order
    /// of the ring. After `Memory` all is as it was.
    pub fn name(&mut self, trace: TraceId) -> Result<(), Memory>
        ensures ok { OnOk result (self.new ≡ names trace self.old) }
        ensures err { OnErr result (self.new ≡ self.old) }
    {
        if !self.named.insert(trace)? {
            return Ok(());
        }
        let queue = take(self.alloc, &mut self.queues, trace);
        self.waiting -= queue.len();
        keep_all(&mut self.kept, &mut self.traces, queue, trace);
        Ok(())
    }

    /// Whether a trace was named.
    pub fn is_named(&self, trace: TraceId) -> bool
        ensures { result ≡ is_among self.now.named trace }
    {
        is_in(&self.named, trace)
    }

    /// The named traces, each once, in the order in which they were first named.
    pub fn named(&self) -> &[TraceId]
        ensures { result.now ≡ self.now.named }
    {
        self.named.as_slice()
    }

    /// The kept records, in the order in which they were kept.
    pub fn kept(&self) -> &List<RecordId>
        ensures { result.now.items ≡ self.now.kept }
    {
        &self.kept
    }

    /// The trace of each kept record.
    pub fn traces(&self) -> &List<TraceId>
        ensures { result.now.items ≡ self.now.traces }
    {
        &self.traces
    }
}

/// Makes room for so many records more. After `Memory` the lists are as they were.
fn make_room(
    kept: &mut List<RecordId>,
    traces: &mut List<TraceId>,
    more: usize,
) -> Result<(), Memory>
    ensures items { (kept.new.items ≡ kept.old.items) × (traces.new.items ≡ traces.old.items) }
    ensures room { (kept.old.room ≤ kept.new.room) × (traces.old.room ≤ traces.new.room) }
    ensures ok { OnOk result ((length kept.new.items + more ≤ kept.new.room) × (length traces.new.items + more ≤ traces.new.room)) }
{
    kept.reserve(more)?;
    traces.reserve(more)
}

/// Keeps a record. There is room for it.
fn keep(kept: &mut List<RecordId>, traces: &mut List<TraceId>, id: RecordId, trace: TraceId)
    requires kept { length kept.old.items < kept.old.room }
    requires traces { length traces.old.items < traces.old.room }
    ensures kept { kept.new.items ≡ kept.old.items ++ id ∷ [] }
    ensures traces { traces.new.items ≡ traces.old.items ++ trace ∷ [] }
    ensures room { (kept.old.room ≤ kept.new.room) × (traces.old.room ≤ traces.new.room) }
{
    kept.push(id);
    traces.push(trace);
}

/// Keeps the records of a trace. There is room for them.
fn keep_all(
    kept: &mut List<RecordId>,
    traces: &mut List<TraceId>,
    mut queue: RecordQueue,
    trace: TraceId,
)
    requires kept { length kept.old.items + length queue ≤ kept.old.room }
    requires traces { length traces.old.items + length queue ≤ traces.old.room }
    ensures kept { kept.new.items ≡ kept.old.items ++ queue }
    ensures traces { traces.new.items ≡ traces.old.items ++ map (λ _. trace) queue }
    ensures room { (kept.old.room ≤ kept.new.room) × (traces.old.room ≤ traces.new.room) }
{
    while let Some(id) = queue.pop() {
        kept.push(id);
        traces.push(trace);
    }
}
