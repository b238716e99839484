//! The ring of records that wait. A record whose trace is named is dead: it stays in the ring, and is passed over.

ghost use Rattle.std.specs.Prelude.{◌≡◌, ◌≤◌, ◌<◌, ◌+◌, ◌-◌, ◌++◌, List, [], ◌∷◌, false, length, take, drop, IfNone};
ghost use Rattle.std.specs.Option.{option_to_list};
ghost use Rattle.hs_compare.specs.Ringing.{alive, is_among};
ghost use Rattle.hs_compare.specs.Queues.{AreQueued};
ghost use Rattle.hs_compare.specs.declared.ring.TracedRecord.{TracedRecord};

use crate::record_queue::{Queues, leave};
use circular_buffer::HeapCircularBuffer;
use hs_base::{RecordId, TraceId};
use indexmap::IndexSet;

/// A record with its trace.
#[derive(Clone, Copy)]
pub struct TracedRecord {
    pub id: RecordId,
    pub trace: TraceId,
}

/// The ring, the oldest record first.
pub type Records = HeapCircularBuffer<TracedRecord>;

/// Whether a trace is among these. Where there is none, nothing is looked up.
pub fn is_in(traces: &IndexSet<TraceId>, trace: TraceId) -> bool
    ensures { result ≡ is_among traces.now.keys trace }
{
    if traces.is_empty() {
        return false;
    }
    traces.contains(&trace)
}

/// Makes way for one record more where there is no room: the first that is alive goes. Answers how many are
/// alive then.
pub fn make_way(
    ring: &mut Records,
    queues: &mut Queues,
    named: &IndexSet<TraceId>,
    waiting: usize,
    room: usize,
) -> usize
    requires waiting { waiting ≡ length (alive named.now.keys ring.old.items) }
    requires room { (1 ≤ room) × (waiting ≤ room) }
    ensures alive { alive named.now.keys ring.new.items ≡ drop (waiting + 1 - room) (alive named.now.keys ring.old.items) }
    ensures waiting { result ≡ length (alive named.now.keys ring.new.items) }
    ensures queued { (behind : List TracedRecord) → AreQueued queues.old.entries (alive named.now.keys ring.old.items ++ behind)
        → AreQueued queues.new.entries (alive named.now.keys ring.new.items ++ behind) }
    ensures capacity { ring.new.capacity ≡ ring.old.capacity }
    ensures shorter { length ring.new.items ≤ length ring.old.items }
{
    if waiting < room {
        return waiting;
    }
    let_first_go(ring, queues, named);
    waiting - 1
}

/// Lets the first record that is alive go, if there is one.
fn let_first_go(ring: &mut Records, queues: &mut Queues, named: &IndexSet<TraceId>)
    ensures alive { alive named.now.keys ring.new.items ≡ drop 1 (alive named.now.keys ring.old.items) }
    ensures queued { (behind : List TracedRecord) → AreQueued queues.old.entries (alive named.now.keys ring.old.items ++ behind)
        → AreQueued queues.new.entries (alive named.now.keys ring.new.items ++ behind) }
    ensures capacity { ring.new.capacity ≡ ring.old.capacity }
    ensures shorter { length ring.new.items ≤ length ring.old.items }
{
    if let Some(noted) = first_alive(ring, named) {
        leave(queues, noted.trace);
    }
}

/// Adds a record that is alive at the end.
pub fn join(ring: &mut Records, named: &IndexSet<TraceId>, noted: TracedRecord)
    requires within { length ring.old.items ≤ ring.old.capacity }
    requires room { length (alive named.now.keys ring.old.items) < ring.old.capacity }
    requires alive { is_among named.now.keys noted.trace ≡ false }
    ensures alive { alive named.now.keys ring.new.items ≡ alive named.now.keys ring.old.items ++ noted ∷ [] }
    ensures within { length ring.new.items ≤ ring.new.capacity }
    ensures capacity { ring.new.capacity ≡ ring.old.capacity }
{
    make_place(ring, named);
    ring.push_back(noted);
}

/// Makes place for one record more: where the ring is full its dead records go.
fn make_place(ring: &mut Records, named: &IndexSet<TraceId>)
    requires within { length ring.old.items ≤ ring.old.capacity }
    requires room { length (alive named.now.keys ring.old.items) < ring.old.capacity }
    ensures alive { alive named.now.keys ring.new.items ≡ alive named.now.keys ring.old.items }
    ensures place { length ring.new.items < ring.new.capacity }
    ensures capacity { ring.new.capacity ≡ ring.old.capacity }
{
    if ring.is_full() {
        clear_dead(ring, named);
    }
}

/// Takes out all up to the first record that is alive, and answers that record.
fn first_alive(ring: &mut Records, named: &IndexSet<TraceId>) -> Option<TracedRecord>
    ensures none { IfNone result (alive named.now.keys ring.new.items ≡ []) }
    ensures alive { alive named.now.keys ring.old.items ≡ option_to_list result ++ alive named.now.keys ring.new.items }
    ensures capacity { ring.new.capacity ≡ ring.old.capacity }
    ensures shorter { length ring.new.items ≤ length ring.old.items }
{
    while let Some(noted) = ring.pop_front() {
        if !is_in(named, noted.trace) {
            return Some(noted);
        }
    }
    None
}

/// Takes the dead records out.
fn clear_dead(ring: &mut Records, named: &IndexSet<TraceId>)
    requires { length ring.old.items ≤ ring.old.capacity }
    ensures alive { ring.new.items ≡ alive named.now.keys ring.old.items }
    ensures capacity { ring.new.capacity ≡ ring.old.capacity }
{
    for _ in 0..ring.len() {
        pass(ring, named);
    }
}

/// Takes the first record out. It joins at the end where it is alive.
fn pass(ring: &mut Records, named: &IndexSet<TraceId>)
    requires { length ring.old.items ≤ ring.old.capacity }
    ensures shorter { length ring.new.items ≤ length ring.old.items }
    ensures passes { ring.new.items ≡ drop 1 ring.old.items ++ alive named.now.keys (take 1 ring.old.items) }
    ensures capacity { ring.new.capacity ≡ ring.old.capacity }
{
    if let Some(noted) = ring.pop_front() {
        if !is_in(named, noted.trace) {
            ring.push_back(noted);
        }
    }
}
