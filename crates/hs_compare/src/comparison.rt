//! What the samplers keep of the same records.

ghost use Rattle.std.specs.Prelude.{◌≡◌, ◌≤◌, ◌<◌, ◌^◌, ◌&&◌, ℕ, true, List, length, map, count_by, IfOk};
ghost use Rattle.std.specs.List.{AllByRecursion};
ghost use Rattle.hs_base.specs.declared.ids.TraceId.{TraceId};
ghost use Rattle.hs_ledger.specs.declared.ledger.Entry.{Entry};
ghost use Rattle.hs_compare.specs.Lines.{is_gap, is_limited};
ghost use Rattle.hs_compare.specs.Counting.{AreCounted, HasCountsOf, times, is_counted};
ghost use Rattle.hs_compare.specs.Ringing.{is_among};
ghost use Rattle.hs_compare.specs.declared.coming.Coming.{Coming};
ghost use Rattle.hs_compare.specs.Marked.{marked, bytes_in, traces_of};
ghost use Rattle.hs_compare.specs.Comparing.{comparison_by, line_of_marked, line_of_sent, marks_of_head, marks_of_named, marks_of_reported};

use crate::coming::Coming;
use crate::lines::{Counts, Line, counted, counted_line, counted_of, line_of};
use crate::marks::{
    all_bytes, head_marks, marked_bytes, marked_traces, named_marks, reported_marks,
};
use crate::ring::is_in;
use crate::ring_tail::RingTail;
use hs_base::limits::MAX_OPERATIONS;
use hs_base::{Memory, TraceId};
use hs_ledger::{Entry, is_reported};
use indexmap::IndexSet;
use std::alloc::Global;

/// What each of four samplers keeps of one workload, and what Hindsight does not report of the records that
/// tail sampling keeps.
#[derive(Clone, Copy, Debug, PartialEq, Eq)]
pub struct Comparison {
    pub head: Line,
    pub tail: Line,
    pub ring: Line,
    pub hindsight: Line,
    /// The records in gap lines.
    pub gap: u32,
    /// The records of named traces that no node claimed.
    pub limited: u32,
}

/// The records in gap lines, and those of named traces without a claim.
#[derive(Clone, Copy)]
struct Rest {
    gap: u32,
    limited: u32,
}

/// The line of a sampler that keeps the marked records, and sends these alone.
fn marked_line(
    alloc: Global,
    all: &[Coming],
    counts: &Counts,
    named: &[TraceId],
    marks: &[bool],
) -> Result<Line, Memory>
    requires each { length marks.now ≡ length all.now }
    requires few { length all.now ≤ MAX_OPERATIONS }
    requires known { length named.now ≤ MAX_OPERATIONS }
    requires bytes { bytes_in all.now < 2 ^ 64 }
    ensures { HasCountsOf named.now (traces_of all.now) counts.now.entries
        → IfOk result (λ line. line ≡ line_of_marked all.now named.now marks.now) }
{
    let traces = marked_traces(alloc, all, marks)?;
    let bytes = marked_bytes(all, marks);
    line_of(alloc, counts, named, &traces, bytes)
}

/// The line of head sampling of one trace in `one_in`.
fn head_line(
    alloc: Global,
    all: &[Coming],
    counts: &Counts,
    named: &[TraceId],
    one_in: u32,
) -> Result<Line, Memory>
    requires some { 1 ≤ one_in }
    requires few { length all.now ≤ MAX_OPERATIONS }
    requires known { length named.now ≤ MAX_OPERATIONS }
    requires bytes { bytes_in all.now < 2 ^ 64 }
    ensures { HasCountsOf named.now (traces_of all.now) counts.now.entries
        → IfOk result (λ line. line ≡ line_of_marked all.now named.now (marks_of_head one_in all.now)) }
{
    let marks = head_marks(alloc, all, one_in)?;
    marked_line(alloc, all, counts, named, &marks)
}

/// The traces of the records that tail sampling keeps: those of the named traces.
fn tail_traces(alloc: Global, all: &[Coming], ring: &RingTail) -> Result<Vec<TraceId>, Memory>
    ensures { IfOk result (λ traces. traces.items ≡ traces_of (marked (marks_of_named ring.now.named all.now) all.now)) }
{
    let marks = named_marks(alloc, all, ring)?;
    marked_traces(alloc, all, &marks)
}

/// The line of tail sampling with a ring, to which all records are sent.
fn ring_line(
    alloc: Global,
    counts: &Counts,
    named: &[TraceId],
    ring: &RingTail,
    shipped: u64,
) -> Result<Line, Memory>
    requires known { length named.now ≤ MAX_OPERATIONS }
    requires kept { length ring.now.traces ≤ MAX_OPERATIONS }
    ensures { (all : List Coming) → HasCountsOf named.now (traces_of all) counts.now.entries → shipped ≡ bytes_in all
        → IfOk result (λ line. line ≡ line_of_sent all named.now ring.now.traces) }
{
    line_of(alloc, counts, named, ring.traces().as_slice(), shipped)
}

/// The line of Hindsight, which sends what it reports.
fn hindsight_line(
    alloc: Global,
    all: &[Coming],
    counts: &Counts,
    named: &[TraceId],
    entries: &[Entry],
) -> Result<Line, Memory>
    requires each { length entries.now ≡ length all.now }
    requires few { length all.now ≤ MAX_OPERATIONS }
    requires known { length named.now ≤ MAX_OPERATIONS }
    requires bytes { bytes_in all.now < 2 ^ 64 }
    ensures { HasCountsOf named.now (traces_of all.now) counts.now.entries
        → IfOk result (λ line. line ≡ line_of_marked all.now named.now (marks_of_reported entries.now)) }
{
    let marks = reported_marks(alloc, entries)?;
    marked_line(alloc, all, counts, named, &marks)
}

/// The traces that were counted and claimed, each once.
fn claims_of(
    alloc: Global,
    counts: &Counts,
    claimed: &[TraceId],
) -> Result<IndexSet<TraceId>, Memory>
    ensures { IfOk result (λ claims. (trace : TraceId) → is_among claims.keys trace ≡ (is_counted counts.now.entries trace && is_among claimed.now trace)) }
{
    let mut claims = IndexSet::new(alloc);
    for trace in claimed {
        if counts.contains_key(trace) {
            claims.insert(*trace)?;
        }
    }
    Ok(claims)
}

/// Whether a record is of a claimed trace, and was not reported.
fn is_in_gap(entry: &Entry, claims: &IndexSet<TraceId>) -> bool
    ensures { result ≡ is_gap claims.now.keys entry.now }
{
    is_in(claims, entry.trace) && !is_reported(entry.fate)
}

/// How many of these records are in gap lines.
fn count_gaps(entries: &[Entry], claims: &IndexSet<TraceId>) -> usize
    ensures { result ≡ count_by (is_gap claims.now.keys) entries.now }
{
    let mut gaps = 0;
    for entry in entries {
        if is_in_gap(entry, claims) {
            gaps += 1;
        }
    }
    gaps
}

/// Whether a record is of a named trace that no node claimed.
fn is_unclaimed(entry: &Entry, ring: &RingTail, claims: &IndexSet<TraceId>) -> bool
    ensures { result ≡ is_limited ring.now.named claims.now.keys entry.now }
{
    ring.is_named(entry.trace) && !is_in(claims, entry.trace)
}

/// How many of these records are of named traces that no node claimed.
fn count_limited(entries: &[Entry], ring: &RingTail, claims: &IndexSet<TraceId>) -> usize
    ensures { result ≡ count_by (is_limited ring.now.named claims.now.keys) entries.now }
{
    let mut limited = 0;
    for entry in entries {
        if is_unclaimed(entry, ring, claims) {
            limited += 1;
        }
    }
    limited
}

/// What of the records of named traces was not reported, where these are the claimed traces. If the trace of a
/// record was claimed, it was counted.
fn rest_of(
    alloc: Global,
    counts: &Counts,
    entries: &[Entry],
    ring: &RingTail,
    claimed: &[TraceId],
) -> Result<Rest, Memory>
    requires counted { AllByRecursion (λ (e : Entry). is_among claimed.now e.trace ≡ true → is_counted counts.now.entries e.trace ≡ true) entries.now }
    requires few { length entries.now ≤ MAX_OPERATIONS }
    ensures gap { IfOk result (λ rest. rest.gap ≡ count_by (is_gap claimed.now) entries.now) }
    ensures limited { IfOk result (λ rest. rest.limited ≡ count_by (is_limited ring.now.named claimed.now) entries.now) }
{
    let claims = claims_of(alloc, counts, claimed)?;
    Ok(Rest {
        gap: count_gaps(entries, &claims) as u32,
        limited: count_limited(entries, ring, &claims) as u32,
    })
}

/// The comparison, where `kept` are the traces of the records that tail sampling keeps, `counts` says how often each stands there, and
/// `rest` is what was not reported.
fn compared_by(
    alloc: Global,
    all: &[Coming],
    entries: &[Entry],
    ring: &RingTail,
    kept: &[TraceId],
    counts: &Counts,
    rest: Rest,
    one_in: u32,
) -> Result<Comparison, Memory>
    requires traces { kept.now ≡ traces_of (marked (marks_of_named ring.now.named all.now) all.now) }
    requires counted { AreCounted kept.now counts.now.entries }
    requires each { length entries.now ≡ length all.now }
    requires some { 1 ≤ one_in }
    requires few { length all.now ≤ MAX_OPERATIONS }
    requires kept { length ring.now.traces ≤ MAX_OPERATIONS }
    requires bytes { bytes_in all.now < 2 ^ 64 }
    requires once { (trace : TraceId) → times ring.now.named trace ≤ 1 }
    ensures { (claimed : List TraceId) → rest.gap ≡ count_by (is_gap claimed) entries.now → rest.limited ≡ count_by (is_limited ring.now.named claimed) entries.now
        → IfOk result (λ comparison. comparison ≡ comparison_by one_in all.now ring.now.named ring.now.traces entries.now claimed) }
{
    let known = counted_of(alloc, counts, ring.named())?;
    let named = known.as_slice();
    let shipped = all_bytes(all);
    Ok(Comparison {
        head: head_line(alloc, all, counts, named, one_in)?,
        tail: counted_line(counts, named, kept, counts, shipped),
        ring: ring_line(alloc, counts, named, ring, shipped)?,
        hindsight: hindsight_line(alloc, all, counts, named, entries)?,
        gap: rest.gap,
        limited: rest.limited,
    })
}

/// What the samplers keep of these records, where the ring went through them and `claimed` are the claimed
/// traces, all of which were named. Only the records of named traces are counted by their traces.
pub(crate) fn compared(
    alloc: Global,
    all: &[Coming],
    entries: &[Entry],
    ring: &RingTail,
    claimed: &[TraceId],
    one_in: u32,
) -> Result<Comparison, Memory>
    requires beside { map (λ (e : Entry). e.trace) entries.now ≡ traces_of all.now }
    requires some { 1 ≤ one_in }
    requires few { length all.now ≤ MAX_OPERATIONS }
    requires kept { length ring.now.traces ≤ MAX_OPERATIONS }
    requires bytes { bytes_in all.now < 2 ^ 64 }
    requires once { (trace : TraceId) → times ring.now.named trace ≤ 1 }
    requires claimed { AllByRecursion (λ (trace : TraceId). is_among ring.now.named trace ≡ true) claimed.now }
    ensures { IfOk result (λ comparison. comparison ≡ comparison_by one_in all.now ring.now.named ring.now.traces entries.now claimed.now) }
{
    let tail = tail_traces(alloc, all, ring)?;
    let kept = tail.as_slice();
    let counts = counted(alloc, kept)?;
    let rest = rest_of(alloc, &counts, entries, ring, claimed)?;
    compared_by(alloc, all, entries, ring, kept, &counts, rest, one_in)
}
