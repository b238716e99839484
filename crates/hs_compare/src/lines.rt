//! What a sampler keeps, in numbers.

ghost use Rattle.std.specs.Prelude.{◌≡◌, ◌+◌, ◌<◌, ◌≤◌, ◌^◌, ℕ, [], ◌++◌, ◌∷◌, List, length, filter, count_by, IfOk, OnOk};
ghost use Rattle.hs_base.specs.declared.ids.TraceId.{TraceId};
ghost use Rattle.hs_compare.specs.Counting.{AreCounted, HasCountsOf, times_in, is_counted, is_whole_by, line_by};

use hs_base::limits::MAX_OPERATIONS;
use hs_base::{Memory, TraceId};
use indexmap::IndexMap;
use std::alloc::Global;

/// What one sampler keeps.
#[derive(Clone, Copy, Debug, PartialEq, Eq)]
pub struct Line {
    /// The kept records.
    pub records: u32,
    /// The traces with a kept record.
    pub traces: u32,
    /// The named traces of which every record is kept, and at least one is there.
    pub whole: u32,
    /// The bytes of the payloads that are sent to keep these.
    pub shipped: u64,
}

/// How often each trace stands in a list.
pub(crate) type Counts = IndexMap<TraceId, usize>;

/// How often each of these traces stands here.
pub(crate) fn counted(alloc: Global, traces: &[TraceId]) -> Result<Counts, Memory>
    ensures { IfOk result (λ counts. AreCounted traces.now counts.entries) }
{
    let mut counts = IndexMap::new(alloc);
    for place in 0..traces.len() {
        count_one(&mut counts, traces[place])?;
    }
    Ok(counts)
}

/// Counts a trace once more.
fn count_one(counts: &mut Counts, trace: TraceId) -> Result<(), Memory>
    requires { times_in counts.old.entries trace + 1 < 2 ^ 64 }
    ensures { (traces : List TraceId) → AreCounted traces counts.old.entries
        → OnOk result (AreCounted (traces ++ trace ∷ []) counts.new.entries) }
{
    let Ok(entry) = counts.entry(trace) else {
        return Err(Memory);
    };
    let count = entry.or_insert(0);
    *count += 1;
    Ok(())
}

/// How often a trace was counted.
fn times_of(counts: &Counts, trace: TraceId) -> usize
    ensures { result ≡ times_in counts.now.entries trace }
{
    match counts.get(&trace) {
        Some(count) => *count,
        None => 0,
    }
}

/// Whether a trace has records, and all of them are kept.
fn is_whole(all: &Counts, kept: &Counts, trace: TraceId) -> bool
    ensures { result ≡ is_whole_by (times_in all.now.entries) (times_in kept.now.entries) trace }
{
    let count = times_of(all, trace);
    0 < count && times_of(kept, trace) == count
}

/// How many of these traces have records of which all are kept.
fn count_whole(all: &Counts, kept: &Counts, named: &[TraceId]) -> usize
    ensures { result ≡ count_by (is_whole_by (times_in all.now.entries) (times_in kept.now.entries)) named.now }
{
    let mut whole = 0;
    for trace in named {
        if is_whole(all, kept, *trace) {
            whole += 1;
        }
    }
    whole
}

/// Those of these traces that were counted.
pub(crate) fn counted_of(
    alloc: Global,
    counts: &Counts,
    traces: &[TraceId],
) -> Result<Vec<TraceId>, Memory>
    ensures { IfOk result (λ known. known.items ≡ filter (is_counted counts.now.entries) traces.now) }
{
    let mut known = Vec::new(alloc);
    for trace in traces {
        if counts.contains_key(trace) {
            known.push(*trace)?;
        }
    }
    Ok(known)
}

/// The numbers of a sampler that keeps records of these traces, one for each record. `named` has the named traces, each once; those
/// without a record may be left out.
pub(crate) fn line_of(
    alloc: Global,
    all: &Counts,
    named: &[TraceId],
    kept: &[TraceId],
    shipped: u64,
) -> Result<Line, Memory>
    requires named { length named.now ≤ MAX_OPERATIONS }
    requires kept { length kept.now ≤ MAX_OPERATIONS }
    ensures { (traces : List TraceId) → HasCountsOf named.now traces all.now.entries
        → IfOk result (λ line. line ≡ line_by traces named.now kept.now shipped) }
{
    let counts = counted(alloc, kept)?;
    Ok(counted_line(all, named, kept, &counts, shipped))
}

/// The numbers of a sampler as `line_of` answers them, where `counts` has how often each trace is kept.
pub(crate) fn counted_line(
    all: &Counts,
    named: &[TraceId],
    kept: &[TraceId],
    counts: &Counts,
    shipped: u64,
) -> Line
    requires named { length named.now ≤ MAX_OPERATIONS }
    requires kept { length kept.now ≤ MAX_OPERATIONS }
    requires counted { AreCounted kept.now counts.now.entries }
    ensures { (traces : List TraceId) → HasCountsOf named.now traces all.now.entries
        → result ≡ line_by traces named.now kept.now shipped }
{
    Line {
        records: kept.len() as u32,
        traces: counts.len() as u32,
        whole: count_whole(all, counts, named) as u32,
        shipped,
    }
}
