//! The records of a client, one operation after another.

ghost use Rattle.std.specs.Prelude.{◌≡◌, ◌<◌, ◌+◌, ◌++◌, ◌∷◌, []};
ghost use Rattle.hs_base.specs.declared.ids.ClientId.{ClientId};
ghost use Rattle.hs_records.specs.Records.{open_behind, record_in};
ghost use Rattle.hs_records.specs.Views.{operation_of};
ghost use Rattle.hs_compare.specs.Points.{Operations, HasGone, brought, coming_seen, record_seen};

use crate::coming::Coming;
use hs_base::limits::MAX_OPERATIONS;
use hs_base::{ClientId, RecordId, TraceId};
use hs_client::sending_laws::one_operation_more;
use hs_records::Op;

/// A record that an operation brings.
#[derive(Clone, Copy)]
struct Seen {
    trace: TraceId,
    bytes: usize,
}

/// The trace that is open behind an operation, where this one is open before it.
fn open_behind(current: Option<TraceId>, operation: &Op) -> Option<TraceId>
    ensures { result ≡ open_behind current (operation_of operation.now) }
{
    match operation {
        Op::Begin { trace } => Some(*trace),
        Op::End => None,
        _ => current,
    }
}

/// The record of an operation, where this trace is open before it.
fn record_in(current: Option<TraceId>, operation: &Op) -> Option<Seen>
    ensures { result ≡ record_seen (record_in current (operation_of operation.now)) }
{
    match (current, operation) {
        (Some(trace), Op::Point { payload, .. }) => Some(Seen {
            trace,
            bytes: payload.len(),
        }),
        _ => None,
    }
}

/// A walk through a client's operations: the trace that is open, and how many records there were.
#[derive(Clone, Copy)]
pub(crate) struct RecordWalk {
    pub(crate) client: ClientId,
    pub(crate) current: Option<TraceId>,
    pub(crate) count: usize,
}

impl RecordWalk {
    /// The walk before the first operation.
    pub(crate) fn make(client: ClientId) -> RecordWalk
        ensures client { result.client ≡ client }
        ensures gone { HasGone [] result }
    {
        RecordWalk {
            client,
            current: None,
            count: 0,
        }
    }

    /// Goes on by an operation, and answers the record that it brings.
    pub(crate) fn advance(&mut self, operation: &Op) -> Option<Coming>
        requires few { self.old.count < MAX_OPERATIONS }
        ensures client { self.new.client ≡ self.old.client }
        ensures gone { (before : Operations) → HasGone before self.old → HasGone (before ++ operation_of operation.now ∷ []) self.new }
        ensures brings { (before : Operations) → HasGone before self.old → result ≡ brought self.old.client before (operation_of operation.now) }
    {
        one_operation_more();
        let current = self.current;
        self.current = open_behind(current, operation);
        match record_in(current, operation) {
            Some(seen) => Some(self.note(seen)),
            None => None,
        }
    }

    /// The next record of the client.
    fn note(&mut self, seen: Seen) -> Coming
        requires few { self.old.count < MAX_OPERATIONS }
        ensures coming { result ≡ coming_seen self.old.client self.old.count seen }
        ensures walk { self.new ≡ record { client = self.old.client; current = self.old.current; count = self.old.count + 1 } }
    {
        let id = RecordId {
            client: self.client,
            number: self.count as u32,
        };
        self.count += 1;
        Coming {
            id,
            trace: seen.trace,
            bytes: seen.bytes,
        }
    }
}
