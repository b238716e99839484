//! The calls of a client.

ghost use Rattle.std.specs.Prelude.{◌≡◌, ◌<◌, ◌≤◌, length, map, Some, None, IfSome, IfNone};
ghost use Rattle.hs_base.specs.NodeSets.{one_node};
ghost use Rattle.hs_base.specs.declared.limits.TheConstants.{MAX_LATERALS};
ghost use Rattle.hs_c.specs.declared.codes.TheConstants.{DONE, UNFIT};
ghost use Rattle.hs_records.specs.Plain.{Point, Crumb as LeaveCrumb, End, Fire, Sample};
ghost use Rattle.hs_node_client.specs.Answers.{BeginsBy, PointsBy, CrumbsBy, LateBy, TriggersBy, SamplesBy, EndsBy};
ghost use Rattle.hs_node_client.specs.Clients.{PutsThrough, KeepsEnds, NotesIt, NotesEnd, NotesLate, tally_at_begin};
ghost use Rattle.hs_node_client.specs.Counting.{with_point, with_crumb_called, with_refused_late, with_refused_trigger, if_full};
ghost use Rattle.hs_node_client.specs.Lives.{HasHalf, Lives, LivesByBegin, LivesOn};
ghost use Rattle.hs_node_client.specs.Notes.{PutsOn};
ghost use Rattle.hs_node_client.specs.Paging.{place_in};
ghost use Rattle.hs_node_client.specs.Pointing.{called_of, DriesBy};
ghost use Rattle.hs_live.specs.Live.{Sends};
ghost use Rattle.hs_node_client.specs.declared.answers.CallAnswer.TheVariants.{Done, Full, Unknown};
ghost use Rattle.hs_node_client.specs.declared.segment.SegmentState.TheVariants.{Opened, Refused, Led};
ghost use Rattle.hs_c.specs.Calls.{IsIdle, Calls, Points, DoesClient, Flushes, Counts};
ghost use Rattle.hs_c.specs.Traces.{trace_in, trigger_in};

use crate::codes::{DONE, UNFIT, VACANT, code_of, code_of_point};
use crate::handles::{HindClient, HindCounts, HindTrace};
use crate::loose::Loose;
use crate::slots::ClientSlot;
use hs_base::limits::MAX_LATERALS;
use hs_base::{Laterals, NodeId, TraceId, Trigger, TriggerId};
use std::alloc::Global;
use std::mem::replace;

/// The trace of an id.
fn trace_of(trace: &HindTrace) -> TraceId
    ensures { result ≡ trace_in trace.now }
{
    TraceId(u128::from_be_bytes(trace.bytes))
}

/// Opens a trace.
#[unsafe(no_mangle)]
pub extern "C" fn hindcore_begin(alloc: Global, client: &mut HindClient, trace: &HindTrace) -> u32
    ensures idle { IsIdle client.old result client.new }
    ensures answer { Calls (λ old called new. BeginsBy old called) client.old result client.new }
    ensures does { Calls (λ old called new. LivesByBegin (trace_in trace.now) called old.live new.live) client.old result client.new }
    ensures refused { Calls (λ old called new. (called ≡ Done → ⊥) → new ≡ old) client.old result client.new }
    ensures keeps { Calls (λ old called new. KeepsEnds old.live new.live) client.old result client.new }
    ensures opens { Calls (λ old called new. called ≡ Done → new.live.core.trace ≡ Some (trace_in trace.now)) client.old result client.new }
    ensures half { Calls (λ old called new. called ≡ Done → HasHalf new.live.core) client.old result client.new }
    ensures notes { Calls (λ old called new. called ≡ Done → NotesIt (trace_in trace.now) Opened (place_in new.live.core) old.notebook (tally_at_begin old) new.notebook new.tally) client.old result client.new }
    ensures late { Calls (λ old called new. new.late ≡ old.late) client.old result client.new }
{
    if client.live != 1 {
        return VACANT;
    }
    let mut cell = replace(&mut client.slot, ClientSlot::vacant())
        .open(alloc)
        .into_box();
    let called = cell.client.begin(trace_of(trace));
    client.slot = ClientSlot::full(Loose::of(cell));
    code_of(called)
}

/// Records a payload at a moment. It is DRY where it was done and a draw of it found the pool empty.
#[unsafe(no_mangle)]
pub extern "C" fn hindcore_point(
    alloc: Global,
    client: &mut HindClient,
    moment: u64,
    payload: &[u8],
) -> u32
    ensures idle { IsIdle client.old result client.new }
    ensures answer { Points (λ old pointed new. PointsBy old.live (length payload.now) (called_of pointed) new.live) client.old result client.new }
    ensures dry { Points (λ old pointed new. DriesBy pointed old.live.core new.live.core) client.old result client.new }
    ensures does { Points (λ old pointed new. Lives (Point moment payload.now) (called_of pointed) old.live new.live) client.old result client.new }
    ensures refused { Points (λ old pointed new. (called_of pointed ≡ Done → ⊥) → PutsThrough old.live new.live) client.old result client.new }
    ensures keeps { Points (λ old pointed new. KeepsEnds old.live new.live) client.old result client.new }
    ensures counts { Points (λ old pointed new. new.tally ≡ with_point (called_of pointed) old.tally) client.old result client.new }
    ensures only { Points (λ old pointed new. new ≡ record old { live = new.live; tally = new.tally }) client.old result client.new }
{
    if client.live != 1 {
        return VACANT;
    }
    let mut cell = replace(&mut client.slot, ClientSlot::vacant())
        .open(alloc)
        .into_box();
    let pointed = cell.client.point_told(moment, payload);
    client.slot = ClientSlot::full(Loose::of(cell));
    code_of_point(pointed)
}

/// Leaves a crumb: the open trace goes on to this node.
#[unsafe(no_mangle)]
pub extern "C" fn hindcore_crumb(alloc: Global, client: &mut HindClient, node: u16) -> u32
    ensures idle { IsIdle client.old result client.new }
    ensures answer { Calls (λ old called new. CrumbsBy old.live (record { 0 = node }) called new.live) client.old result client.new }
    ensures does { Calls (λ old called new. Lives (LeaveCrumb (record { 0 = node })) called old.live new.live) client.old result client.new }
    ensures refused { Calls (λ old called new. (called ≡ Done → ⊥) → PutsThrough old.live new.live) client.old result client.new }
    ensures keeps { Calls (λ old called new. KeepsEnds old.live new.live) client.old result client.new }
    ensures core { Calls (λ old called new. new.live.core ≡ old.live.core) client.old result client.new }
    ensures counts { Calls (λ old called new. new.tally ≡ with_crumb_called (record { 0 = node }) called old.tally) client.old result client.new }
    ensures only { Calls (λ old called new. new ≡ record old { live = new.live; tally = new.tally }) client.old result client.new }
{
    if client.live != 1 {
        return VACANT;
    }
    let mut cell = replace(&mut client.slot, ClientSlot::vacant())
        .open(alloc)
        .into_box();
    let called = cell.client.crumb(NodeId(node));
    client.slot = ClientSlot::full(Loose::of(cell));
    code_of(called)
}

/// Leaves a crumb of a trace that need not be open. It is noted where it led, or that it was refused for want of a place.
#[unsafe(no_mangle)]
pub extern "C" fn hindcore_crumb_of(
    alloc: Global,
    client: &mut HindClient,
    trace: &HindTrace,
    node: u16,
) -> u32
    ensures idle { IsIdle client.old result client.new }
    ensures answer { Calls (λ old called new. LateBy old (record { 0 = node }) called new) client.old result client.new }
    ensures sends { Calls (λ old called new. called ≡ Done → Sends (record { trace = trace_in trace.now; node = record { 0 = node } }) old.late new.late) client.old result client.new }
    ensures refused { Calls (λ old called new. (called ≡ Done → ⊥) → PutsOn old.late new.late) client.old result client.new }
    ensures notes { Calls (λ old called new. called ≡ Full → NotesLate (trace_in trace.now) Refused old (with_refused_late old.tally) new) client.old result client.new }
    ensures led { Calls (λ old called new. called ≡ Done → NotesLate (trace_in trace.now) (Led (one_node (record { 0 = node }))) old old.tally new) client.old result client.new }
    ensures same { Calls (λ old called new. called ≡ Unknown → new ≡ old) client.old result client.new }
    ensures only { Calls (λ old called new. new ≡ record old { late = new.late; notebook = new.notebook; tally = new.tally }) client.old result client.new }
{
    if client.live != 1 {
        return VACANT;
    }
    let mut cell = replace(&mut client.slot, ClientSlot::vacant())
        .open(alloc)
        .into_box();
    let called = cell.client.crumb_of(trace_of(trace), NodeId(node));
    client.slot = ClientSlot::full(Loose::of(cell));
    code_of(called)
}

/// The laterals of a trigger, if they are no more than there may be.
fn laterals_of(traces: &[HindTrace]) -> Option<Laterals>
    ensures some { IfSome result (λ laterals. laterals ≡ map trace_in traces.now) }
    ensures none { IfNone result (MAX_LATERALS < length traces.now) }
{
    if traces.len() > MAX_LATERALS {
        return None;
    }
    let mut laterals = Laterals::none();
    for trace in traces {
        laterals.push(trace_of(trace));
    }
    Some(laterals)
}

/// Fires a trigger of an id at a moment in microseconds. It needs no open trace.
#[unsafe(no_mangle)]
pub extern "C" fn hindcore_trigger(
    alloc: Global,
    client: &mut HindClient,
    moment: u64,
    trigger: u8,
    lead: &HindTrace,
    laterals: &[HindTrace],
) -> u32
    ensures idle { IsIdle client.old result client.new }
    ensures many { client.old.live ≡ 1 → MAX_LATERALS < length laterals.now → (result ≡ UNFIT) × (client.new ≡ client.old) }
    ensures answer { length laterals.now ≤ MAX_LATERALS → Calls (λ old called new. TriggersBy old.live (trigger_in moment trigger lead.now laterals.now) called new.live) client.old result client.new }
    ensures does { length laterals.now ≤ MAX_LATERALS → Calls (λ old called new. Lives (Fire (trigger_in moment trigger lead.now laterals.now)) called old.live new.live) client.old result client.new }
    ensures refused { length laterals.now ≤ MAX_LATERALS → Calls (λ old called new. (called ≡ Done → ⊥) → PutsThrough old.live new.live) client.old result client.new }
    ensures keeps { length laterals.now ≤ MAX_LATERALS → Calls (λ old called new. KeepsEnds old.live new.live) client.old result client.new }
    ensures core { length laterals.now ≤ MAX_LATERALS → Calls (λ old called new. new.live.core ≡ old.live.core) client.old result client.new }
    ensures counts { length laterals.now ≤ MAX_LATERALS → Calls (λ old called new. new.tally ≡ if_full called with_refused_trigger old.tally) client.old result client.new }
    ensures only { length laterals.now ≤ MAX_LATERALS → Calls (λ old called new. new ≡ record old { live = new.live; tally = new.tally }) client.old result client.new }
{
    if client.live != 1 {
        return VACANT;
    }
    let Some(laterals) = laterals_of(laterals) else {
        return UNFIT;
    };
    let trigger = Trigger {
        moment,
        trigger: TriggerId(trigger),
        lead: trace_of(lead),
        laterals,
    };
    let mut cell = replace(&mut client.slot, ClientSlot::vacant())
        .open(alloc)
        .into_box();
    let called = cell.client.trigger(&trigger);
    client.slot = ClientSlot::full(Loose::of(cell));
    code_of(called)
}

/// Gives an autotrigger, by its number, a value of the open trace.
#[unsafe(no_mangle)]
pub extern "C" fn hindcore_sample(
    alloc: Global,
    client: &mut HindClient,
    moment: u64,
    auto: u32,
    value: u64,
) -> u32
    ensures idle { IsIdle client.old result client.new }
    ensures answer { Calls (λ old called new. SamplesBy old.live auto called new.live) client.old result client.new }
    ensures does { Calls (λ old called new. Lives (Sample moment auto value) called old.live new.live) client.old result client.new }
    ensures refused { Calls (λ old called new. (called ≡ Done → ⊥) → PutsThrough old.live new.live) client.old result client.new }
    ensures keeps { Calls (λ old called new. KeepsEnds old.live new.live) client.old result client.new }
    ensures core { Calls (λ old called new. new.live.core ≡ old.live.core) client.old result client.new }
    ensures counts { Calls (λ old called new. new.tally ≡ if_full called with_refused_trigger old.tally) client.old result client.new }
    ensures only { Calls (λ old called new. new ≡ record old { live = new.live; tally = new.tally }) client.old result client.new }
{
    if client.live != 1 {
        return VACANT;
    }
    let mut cell = replace(&mut client.slot, ClientSlot::vacant())
        .open(alloc)
        .into_box();
    let called = cell.client.sample(moment, auto, value);
    client.slot = ClientSlot::full(Loose::of(cell));
    code_of(called)
}

/// Closes the open trace.
#[unsafe(no_mangle)]
pub extern "C" fn hindcore_end(alloc: Global, client: &mut HindClient) -> u32
    ensures idle { IsIdle client.old result client.new }
    ensures answer { Calls (λ old called new. EndsBy old.live called new.live) client.old result client.new }
    ensures does { Calls (λ old called new. Lives End called old.live new.live) client.old result client.new }
    ensures refused { Calls (λ old called new. (called ≡ Done → ⊥) → PutsThrough old.live new.live) client.old result client.new }
    ensures keeps { Calls (λ old called new. KeepsEnds old.live new.live) client.old result client.new }
    ensures closes { Calls (λ old called new. called ≡ Done → new.live.core.trace ≡ None) client.old result client.new }
    ensures notes { Calls (λ old called new. called ≡ Done → NotesEnd old new) client.old result client.new }
    ensures same { Calls (λ old called new. (called ≡ Done → ⊥) → (new.notebook ≡ old.notebook) × (new.tally ≡ old.tally)) client.old result client.new }
    ensures late { Calls (λ old called new. new.late ≡ old.late) client.old result client.new }
{
    if client.live != 1 {
        return VACANT;
    }
    let mut cell = replace(&mut client.slot, ClientSlot::vacant())
        .open(alloc)
        .into_box();
    let called = cell.client.end();
    client.slot = ClientSlot::full(Loose::of(cell));
    code_of(called)
}

/// Puts into the rings what waits, and writes how much still waits.
#[unsafe(no_mangle)]
pub extern "C" fn hindcore_flush(alloc: Global, client: &mut HindClient, waits: &mut u64) -> u32
    ensures idle { IsIdle client.old result client.new }
    ensures idle_waits { (client.old.live ≡ 1 → ⊥) → waits.new ≡ waits.old }
    ensures flushes { Flushes client.old result waits.new client.new }
    ensures does { DoesClient (λ old code new. LivesOn old.live new.live) client.old result client.new }
    ensures late { DoesClient (λ old code new. PutsOn old.late new.late) client.old result client.new }
    ensures notes { DoesClient (λ old code new. PutsOn old.notebook.link new.notebook.link) client.old result client.new }
    ensures only { DoesClient (λ old code new. new ≡ record old { live = new.live; late = new.late; notebook = record old.notebook { link = new.notebook.link } }) client.old result client.new }
{
    if client.live != 1 {
        return VACANT;
    }
    let mut cell = replace(&mut client.slot, ClientSlot::vacant())
        .open(alloc)
        .into_box();
    *waits = cell.client.flush();
    client.slot = ClientSlot::full(Loose::of(cell));
    DONE
}

/// Writes what the client counted.
#[unsafe(no_mangle)]
pub extern "C" fn hindcore_counts(
    alloc: Global,
    client: &mut HindClient,
    counts: &mut HindCounts,
) -> u32
    ensures idle { IsIdle client.old result client.new }
    ensures idle_counts { (client.old.live ≡ 1 → ⊥) → counts.new ≡ counts.old }
    ensures counts { Counts client.old result counts.new client.new }
{
    if client.live != 1 {
        return VACANT;
    }
    let cell = replace(&mut client.slot, ClientSlot::vacant())
        .open(alloc)
        .into_box();
    let all = cell.client.counts();
    *counts = HindCounts {
        points: all.points,
        null_pages: all.null_pages,
        stray_points: all.stray_points,
        full_points: all.full_points,
        long_points: all.long_points,
        spent_points: all.spent_points,
        refused_crumbs: all.refused_crumbs,
        refused_triggers: all.refused_triggers,
        dropped_notes: all.dropped_notes,
    };
    client.slot = ClientSlot::full(Loose::of(cell));
    DONE
}

/// Frees what stands behind the handle, which is vacant from then on.
#[unsafe(no_mangle)]
pub extern "C" fn hindcore_client_free(alloc: Global, client: &mut HindClient) -> u32
    ensures idle { IsIdle client.old result client.new }
    ensures free { client.old.live ≡ 1 → (result ≡ DONE) × (client.new.live ≡ 0) }
{
    if client.live != 1 {
        return VACANT;
    }
    let slot = replace(&mut client.slot, ClientSlot::vacant());
    client.live = 0;
    let _ = slot.open(alloc).into_box();
    DONE
}
