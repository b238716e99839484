//! The entries of a ledger by trace, and the records that were reported.

ghost use Rattle.std.specs.Prelude.{◌≡◌, true, false, List, filter, IfOk};
ghost use Rattle.std.specs.HashSet.{contains};
ghost use Rattle.hs_base.specs.declared.ids.RecordId.{RecordId};
ghost use Rattle.hs_base.specs.declared.ids.TraceId.{TraceId};
ghost use Rattle.hs_collect.specs.Collected.{is_same};
ghost use Rattle.hs_ledger.specs.declared.ledger.Entry.{Entry};
ghost use Rattle.hs_law_outcome.specs.CollectedReports.{was_reported};
ghost use Rattle.hs_law_outcome.specs.Reports.{is_of};
ghost use Rattle.hs_report.specs.Fates.{AreByTrace, AreFatesOf, has_entry};

use hs_base::{Memory, RecordId, TraceId};
use hs_ledger::{Entry, is_reported};
use std::alloc::Global;
use std::collections::HashSet;

/// The entries of each trace, and the records that were reported.
#[derive(Drop)]
pub struct Fates {
    by_trace: Vec<Entry>,
    reported: HashSet<RecordId>,
}

/// What the reports of an outcome are written from, beside its collector.
#[derive(Drop)]
pub struct Sorted {
    pub fates: Fates,
    /// The traces that have a report, rising.
    pub traces: Vec<TraceId>,
}

/// The entries sorted by trace, those of each trace in their order.
fn sort_by_trace(alloc: Global, entries: &[Entry]) -> Result<Vec<Entry>, Memory>
    ensures { IfOk result (λ sorted. AreByTrace entries.now sorted.items) }
{
    let mut sorted = Vec::from_slice(alloc, entries)?;
    sorted.sort_by_key(|entry| entry.trace.0)?;
    Ok(sorted)
}

/// The ids of the records that were reported.
fn reported_ids(alloc: Global, entries: &[Entry]) -> Result<HashSet<RecordId>, Memory>
    ensures { IfOk result (λ ids. (id : RecordId) → contains is_same ids id ≡ was_reported entries.now id) }
{
    let mut ids = HashSet::new(alloc);
    for entry in entries {
        if is_reported(entry.fate) {
            ids.insert(entry.id)?;
        }
    }
    Ok(ids)
}

impl Fates {
    /// The fates of these entries.
    pub(crate) fn make(alloc: Global, entries: &[Entry]) -> Result<Fates, Memory>
        ensures { IfOk result (AreFatesOf entries.now) }
    {
        let by_trace = sort_by_trace(alloc, entries)?;
        let reported = reported_ids(alloc, entries)?;
        Ok(Fates { by_trace, reported })
    }

    /// The entries of the records of a trace, in the order of the ledger.
    pub fn of(&self, trace: TraceId) -> &[Entry]
        ensures { (entries : List Entry) → AreFatesOf entries self.now → result.now ≡ filter (is_of trace) entries }
    {
        let start = self
            .by_trace
            .partition_point(|entry| entry.trace.0 < trace.0);
        let rest = &self.by_trace[start..];
        let count = rest.partition_point(|entry| entry.trace.0 <= trace.0);
        &rest[..count]
    }

    /// Whether a trace has a record.
    pub(crate) fn has_record(&self, trace: TraceId) -> bool
        ensures { (entries : List Entry) → AreFatesOf entries self.now → result ≡ has_entry entries trace }
    {
        !self.of(trace).is_empty()
    }

    /// Whether there are no entries. Then no trace has a record.
    pub(crate) fn is_empty(&self) -> bool
        ensures { result ≡ true → (entries : List Entry) → AreFatesOf entries self.now → (trace : TraceId) → has_entry entries trace ≡ false }
    {
        self.by_trace.as_slice().is_empty()
    }

    /// Whether this record was reported.
    pub fn was_reported(&self, id: RecordId) -> bool
        ensures { (entries : List Entry) → AreFatesOf entries self.now → result ≡ was_reported entries id }
    {
        self.reported.contains(&id)
    }
}
