//! The entries that the reports of an outcome are written from.

ghost use Rattle.std.specs.Prelude.{◌≡◌, ◌||◌, [], ◌∷◌, ◌++◌, filter, IfOk, OnOk};
ghost use Rattle.std.specs.HashSet.{contains};
ghost use Rattle.hs_base.specs.declared.ids.TraceId.{TraceId};
ghost use Rattle.hs_ledger.specs.Totals.{is_reported as reported_by};
ghost use Rattle.hs_base.specs.Ids.{same_trace, is_among};
ghost use Rattle.hs_report.specs.Kept.{is_kept};

use hs_base::{Memory, TraceId};
use hs_ledger::{Entry, is_reported};
use std::alloc::Global;
use std::collections::HashSet;

/// These traces as a set.
fn set_of(alloc: Global, traces: &[TraceId]) -> Result<HashSet<TraceId>, Memory>
    ensures { IfOk result (λ set. (trace : TraceId) → contains same_trace set trace ≡ is_among traces.now trace) }
{
    let mut set = HashSet::new(alloc);
    for trace in traces {
        set.insert(*trace)?;
    }
    Ok(set)
}

/// A trace, and whether it is in a set.
#[derive(Clone, Copy)]
struct KnownTrace {
    trace: TraceId,
    is: bool,
}

/// What is known of a trace. Where it is that of which it was known before, nothing is looked up.
fn look_up(set: &HashSet<TraceId>, known: KnownTrace, trace: TraceId) -> KnownTrace
    requires { known.is ≡ contains same_trace set.now known.trace }
    ensures trace { result.trace ≡ trace }
    ensures is { result.is ≡ contains same_trace set.now trace }
{
    if known.trace == trace {
        return known;
    }
    KnownTrace {
        trace,
        is: set.contains(&trace),
    }
}

/// Appends an entry whose trace was claimed, or that says reported, and of another one nothing.
fn push_kept(kept: &mut Vec<Entry>, is_claimed: bool, entry: &Entry) -> Result<(), Memory>
    ensures { OnOk result (kept.new.items ≡ kept.old.items ++ filter (λ entry. is_claimed || reported_by entry.fate) (entry.now ∷ [])) }
{
    if is_claimed || is_reported(entry.fate) {
        kept.push(*entry)?;
    }
    Ok(())
}

/// The entries that stay, where these traces were claimed. Without entries there is no need for a set of these traces.
pub(crate) fn kept_entries(
    alloc: Global,
    entries: &[Entry],
    claimed: &[TraceId],
) -> Result<Vec<Entry>, Memory>
    ensures { IfOk result (λ kept. kept.items ≡ filter (is_kept claimed.now) entries.now) }
{
    let mut kept = Vec::new(alloc);
    if entries.is_empty() {
        return Ok(kept);
    }
    let set = set_of(alloc, claimed)?;
    let none = TraceId(0);
    let mut known = KnownTrace {
        trace: none,
        is: set.contains(&none),
    };
    for entry in entries {
        known = look_up(&set, known, entry.trace);
        push_kept(&mut kept, known.is, entry)?;
    }
    Ok(kept)
}
