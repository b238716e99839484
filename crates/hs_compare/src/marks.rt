//! Which records a sampler keeps.

ghost use Rattle.std.specs.Prelude.{◌≡◌, ◌≤◌, ◌<◌, ◌^◌, length, map, sum_by, IfOk};
ghost use Rattle.hs_ledger.specs.declared.ledger.Entry.{Entry};
ghost use Rattle.hs_ledger.specs.Totals.{is_reported as reported_by};
ghost use Rattle.hs_compare.specs.declared.coming.Coming.{Coming};
ghost use Rattle.hs_compare.specs.Ringing.{is_among, kept_by_rank};
ghost use Rattle.hs_compare.specs.Marked.{marked, bytes_in, traces_of};

use crate::by_rank::head;
use crate::coming::Coming;
use crate::ring_tail::RingTail;
use hs_base::{List, Memory, TraceId};
use hs_ledger::{Entry, is_reported};
use std::alloc::Global;

/// Of each record, whether head sampling of one trace in `one_in` keeps it.
pub(crate) fn head_marks(alloc: Global, all: &[Coming], one_in: u32) -> Result<Vec<bool>, Memory>
    requires { 1 ≤ one_in }
    ensures { IfOk result (λ marks. marks.items ≡ map (λ (c : Coming). kept_by_rank one_in c.trace) all.now) }
{
    let mut marks = Vec::new(alloc);
    for coming in all {
        marks.push(head(coming.trace, one_in))?;
    }
    Ok(marks)
}

/// Of each record, whether its trace was named.
pub(crate) fn named_marks(
    alloc: Global,
    all: &[Coming],
    ring: &RingTail,
) -> Result<Vec<bool>, Memory>
    ensures { IfOk result (λ marks. marks.items ≡ map (λ (c : Coming). is_among ring.now.named c.trace) all.now) }
{
    let mut marks = Vec::new(alloc);
    for coming in all {
        marks.push(ring.is_named(coming.trace))?;
    }
    Ok(marks)
}

/// Of each record, whether it was reported.
pub(crate) fn reported_marks(alloc: Global, entries: &[Entry]) -> Result<Vec<bool>, Memory>
    ensures { IfOk result (λ marks. marks.items ≡ map (λ (e : Entry). reported_by e.fate) entries.now) }
{
    let mut marks = Vec::new(alloc);
    for entry in entries {
        marks.push(is_reported(entry.fate))?;
    }
    Ok(marks)
}

/// The traces of the marked records.
pub(crate) fn marked_traces(
    alloc: Global,
    all: &[Coming],
    marks: &[bool],
) -> Result<Vec<TraceId>, Memory>
    requires { length marks.now ≡ length all.now }
    ensures { IfOk result (λ traces. traces.items ≡ traces_of (marked marks.now all.now)) }
{
    let mut traces = Vec::new(alloc);
    for place in 0..all.len() {
        if marks[place] {
            traces.push(all[place].trace)?;
        }
    }
    Ok(traces)
}

/// The bytes of the marked records.
pub(crate) fn marked_bytes(all: &[Coming], marks: &[bool]) -> u64
    requires each { length marks.now ≡ length all.now }
    requires few { bytes_in all.now < 2 ^ 64 }
    ensures { result ≡ bytes_in (marked marks.now all.now) }
{
    let mut bytes = 0;
    for place in 0..all.len() {
        if marks[place] {
            bytes += all[place].bytes as u64;
        }
    }
    bytes
}

/// The bytes of all records.
pub(crate) fn all_bytes(all: &[Coming]) -> u64
    requires { bytes_in all.now < 2 ^ 64 }
    ensures { result ≡ bytes_in all.now }
{
    let mut bytes = 0;
    for coming in all {
        bytes += coming.bytes as u64;
    }
    bytes
}
