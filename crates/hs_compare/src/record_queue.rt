//! The waiting records of each trace.

ghost use Rattle.std.specs.Prelude.{◌≡◌, [], ◌∷◌, ◌++◌, ◌==◌, length, drop, IfSome, OnOk, OnErr, if◌then◌else◌};
ghost use Rattle.std.specs.Option.{option_to_list};
ghost use Rattle.hs_base.specs.declared.ids.TraceId.{TraceId};
ghost use Rattle.hs_compare.specs.Queues.{queued};

use hs_base::{Memory, RecordId, TraceId};
use indexmap::IndexMap;
use std::alloc::Global;
use std::collections::VecDeque;
use std::marker::Model;

/// Records in the order in which they came. Contracts see them as a list. Where one waits alone it takes no memory.
#[derive(Drop)]
pub struct RecordQueue {
    first: Option<RecordId>,
    behind: VecDeque<RecordId>,
}

impl Model for RecordQueue {
    ghost use Rattle.std.specs.Prelude.{List, ◌++◌};
    ghost use Rattle.std.specs.Option.{option_to_list};
    ghost use Rattle.hs_base.specs.declared.ids.RecordId.{RecordId};

    ghost Value = { List RecordId };

    ghost view = { λ a. option_to_list a.first ++ a.behind.items };
}

/// The queue of each trace.
pub type Queues = IndexMap<TraceId, RecordQueue>;

impl RecordQueue {
    /// A queue with no record. It takes no memory.
    pub fn new(alloc: Global) -> RecordQueue
        ensures { result ≡ [] }
    {
        RecordQueue {
            first: None,
            behind: VecDeque::new(alloc),
        }
    }

    /// How many records there are.
    pub fn len(&self) -> usize
        ensures { result ≡ length self.now }
    {
        match self.first {
            Some(_) => self.behind.len() + 1,
            None => self.behind.len(),
        }
    }

    /// Adds a record at the end.
    pub fn push(&mut self, id: RecordId) -> Result<(), Memory>
        ensures ok { OnOk result (self.new ≡ self.old ++ id ∷ []) }
        ensures err { OnErr result (self.new ≡ self.old) }
    {
        if self.first.is_none() && self.behind.is_empty() {
            self.first = Some(id);
            return Ok(());
        }
        match self.behind.push_back(id) {
            Ok(()) => Ok(()),
            Err(_) => Err(Memory),
        }
    }

    /// Takes the first record out, if there is one.
    pub fn pop(&mut self) -> Option<RecordId>
        ensures first { self.old ≡ option_to_list result ++ self.new }
        ensures rest { self.new ≡ drop 1 self.old }
    {
        match self.first.take() {
            Some(id) => Some(id),
            None => self.behind.pop_front(),
        }
    }
}

/// Adds a record to the queue of its trace.
pub fn add(alloc: Global, queues: &mut Queues, id: RecordId, trace: TraceId) -> Result<(), Memory>
    ensures ok { OnOk result ((t : TraceId) → queued queues.new.entries t
        ≡ (if trace.0 == t.0 then queued queues.old.entries t ++ id ∷ [] else queued queues.old.entries t)) }
    ensures err { OnErr result ((t : TraceId) → queued queues.new.entries t ≡ queued queues.old.entries t) }
{
    let Ok(entry) = queues.entry(trace) else {
        return Err(Memory);
    };
    let queue = entry.or_insert(RecordQueue::new(alloc));
    queue.push(id)
}

/// Lets the first record of a trace's queue go.
pub fn leave(queues: &mut Queues, trace: TraceId)
    ensures { (t : TraceId) → queued queues.new.entries t
        ≡ (if trace.0 == t.0 then drop 1 (queued queues.old.entries t) else queued queues.old.entries t) }
{
    if let Some(queue) = queues.get_mut(&trace) {
        queue.pop();
    }
}

/// Takes the queue of a trace out.
pub fn take(alloc: Global, queues: &mut Queues, trace: TraceId) -> RecordQueue
    ensures queue { result ≡ queued queues.old.entries trace }
    ensures rest { (t : TraceId) → queued queues.new.entries t
        ≡ (if trace.0 == t.0 then [] else queued queues.old.entries t) }
{
    match queues.swap_remove(&trace) {
        Some(queue) => queue,
        None => RecordQueue::new(alloc),
    }
}
