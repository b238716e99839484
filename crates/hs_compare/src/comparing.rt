//! What other samplers would have kept of a workload.

ghost use Rattle.std.specs.Prelude.{◌≤◌, ◌≡◌, fold, IfOk};
ghost use Rattle.hs_records.specs.Journals.{journal_of};
ghost use Rattle.hs_law_run.specs.Lockstep.{lockstep};
ghost use Rattle.hs_outcome.specs.Outcomes.{IsOutcome};
ghost use Rattle.hs_compare.specs.Coming.{events_in_order};
ghost use Rattle.hs_compare.specs.SamplerLaws.{compared_by, SumsToTail};
ghost use Rattle.hs_compare.specs.Samplers.{ring_step, empty_ring};
ghost use Rattle.hs_records.specs.Validity.{IsValid};
ghost use Rattle.hs_records.specs.Views.{workload_of};
ghost use Rattle.hs_check_follow.specs.Asking.{MayBegin};
ghost use Rattle.hs_compare.specs.Plain.{plain_comparison};
ghost use Rattle.hs_compare.specs.Whole.{ringing_by};

use crate::comparison::{Comparison, compared};
use crate::laws::{
    claimed_traces_are_named, kept_is_parted, ring_keeps_each_once, tail_is_the_sum,
};
use crate::limits::{MAX_ONE_IN, MAX_ROOM};
use crate::records::all_records;
use crate::ring_tail::RingTail;
use crate::scripts::scripts_of;
use crate::walk::walk;
use hs_base::Memory;
use hs_check_follow::count_rounds;
use hs_law_run::lockstep_laws::schedule_is_lawful;
use hs_outcome::Outcome;
use hs_records::{Journal, Workload};
use std::alloc::Global;

/// A ring for so many records, behind all that comes and is named in a valid workload, with a journal of its shape. The scripts that it
/// walks through are gone then.
fn ring_of(
    alloc: Global,
    workload: &Workload,
    journal: &Journal,
    room: u32,
) -> Result<RingTail, Memory>
    requires may { MayBegin (workload_of workload.now) (journal_of journal.now) }
    requires room { (1 ≤ room) × (room ≤ MAX_ROOM) }
    ensures { IfOk result (λ ring. ring ≡ ringing_by room (fold (ring_step room) empty_ring (events_in_order (workload_of workload.now)))) }
{
    let scripts = scripts_of(alloc, workload, journal)?;
    let mut ring = RingTail::make(alloc, room)?;
    let rounds = count_rounds(workload);
    walk(
        &mut ring,
        scripts.as_slice(),
        workload.settings.stride as usize,
        rounds,
    )?;
    Ok(ring)
}

/// What head sampling of one trace in so many, tail sampling, and tail sampling with a ring that has room for so many records
/// would have kept of a workload, beside what Hindsight keeps by the outcome of its replay.
pub fn compare(
    alloc: Global,
    workload: &Workload,
    outcome: &Outcome,
    one_in: u32,
    room: u32,
) -> Result<Comparison, Memory>
    requires valid { IsValid (workload_of workload.now) }
    requires replayed { IsOutcome (workload_of workload.now) (lockstep (workload_of workload.now)) outcome.now }
    requires one_in { (1 ≤ one_in) × (one_in ≤ MAX_ONE_IN) }
    requires room { (1 ≤ room) × (room ≤ MAX_ROOM) }
    ensures numbers { IfOk result (λ c. plain_comparison c ≡ compared_by (workload_of workload.now) (lockstep (workload_of workload.now)) one_in room) }
    ensures sum { IfOk result (λ c. SumsToTail (plain_comparison c)) }
{
    schedule_is_lawful();
    kept_is_parted();
    ring_keeps_each_once();
    tail_is_the_sum();
    claimed_traces_are_named();
    let ring = ring_of(alloc, workload, &outcome.journal, room)?;
    let all = all_records(alloc, workload)?;
    compared(
        alloc,
        all.as_slice(),
        outcome.ledger.entries.as_slice(),
        &ring,
        outcome.claimed.as_slice(),
        one_in,
    )
}
