//! Of the eleventh clause: gives stand beside the draws of their round.

ghost use Rattle.std.specs.Prelude.{◌≡◌, ◌+◌, ◌-◌, ◌*◌, ◌<◌, ◌≤◌, ◌||◌, ◌==◌, true, length, slice_index, nat_lt, IfOk};
ghost use Rattle.hs_base.specs.declared.limits.TheConstants.{MAX_CLIENTS};
ghost use Rattle.hs_records.specs.Journals.{journal_of};
ghost use Rattle.hs_law_journal.specs.Following.{log_at, NodeRun};
ghost use Rattle.hs_law_journal.specs.Pace.{gives_in_pace};
ghost use Rattle.hs_law_journal.specs.Played.{played};
ghost use Rattle.hs_law_journal.specs.Shape.{has_stamps, log_stamps};
ghost use Rattle.hs_records.specs.Validity.{IsValid};
ghost use Rattle.hs_records.specs.Views.{workload_of};
ghost use Rattle.hs_check_follow.specs.Finding.{IsFoundNode};
ghost use Rattle.hs_check_follow.specs.Happening.{drawn_from};
ghost use Rattle.hs_check.specs.Besides.{stands_beside, all_beside, clients_beside, draws_by};

use crate::counts::at;
use crate::kinds::Kind;
use hs_base::Memory;
use hs_check_follow::{FoundClient, FoundNode, drawn_of, log_of, stamp_of, step_stamp};
use hs_records::{Draw, Journal, Step, Workload};
use std::alloc::Global;

/// Whether the gives and misses of a node stand beside its draws: above those of all earlier rounds, and below those of all later
/// ones.
pub(crate) fn gives_in_pace(
    alloc: Global,
    workload: &Workload,
    journal: &Journal,
    node: u16,
    found: &FoundNode,
) -> Result<bool, Memory>
    requires valid { IsValid (workload_of workload.now) }
    requires stamps { has_stamps (played (workload_of workload.now) (journal_of journal.now)) ≡ true }
    requires node { node < (workload_of workload.now).settings.nodes }
    requires few { length found.now.clients.items ≤ MAX_CLIENTS }
    ensures { IfOk result (λ yes. (run : NodeRun) → draws_by run.sends ≡ drawn_from (journal_of journal.now) (node * (workload_of workload.now).settings.clients) found.now.clients.items
        → run.state.log ≡ log_at (journal_of journal.now) node → IsFoundNode (workload_of workload.now).settings run found.now
        → yes ≡ gives_in_pace (workload_of workload.now).settings run) }
{
    let log = log_of(journal, node as usize);
    let stamps = log_stamps(alloc, log)?;
    let counts = Kind::Stamped.count_passes(alloc, log)?;
    let clients = found.clients.as_slice();
    let yes = clients_beside(
        workload,
        journal,
        node,
        clients,
        stamps.as_slice(),
        counts.as_slice(),
    );
    Ok(yes)
}

/// The stamps of the offers among these steps.
fn log_stamps(alloc: Global, log: &[Step]) -> Result<Vec<u64>, Memory>
    ensures { IfOk result (λ stamps. stamps.items ≡ log_stamps log.now) }
{
    let mut stamps = Vec::new(alloc);
    for step in log {
        if let Some(stamp) = step_stamp(*step) {
            stamps.push(stamp)?;
        }
    }
    Ok(stamps)
}

/// Whether the pages of all clients of a node have draws that stand rightly beside the stamps of its log, of which there are so
/// many before the first pass and behind each.
fn clients_beside(
    workload: &Workload,
    journal: &Journal,
    node: u16,
    clients: &[FoundClient],
    stamps: &[u64],
    counts: &[usize],
) -> bool
    requires stride { 0 < (workload_of workload.now).settings.stride }
    requires few { length clients.now ≤ MAX_CLIENTS }
    ensures { result ≡ clients_beside (workload_of workload.now).settings.stride stamps.now counts.now
        (drawn_from (journal_of journal.now) (node * (workload_of workload.now).settings.clients) clients.now) clients.now }
{
    let each = workload.settings.clients;
    let stride = workload.settings.stride as usize;
    for number in 0..clients.len() {
        let draws = drawn_of(journal, each, node, number as u16, &clients[number]);
        let started = clients[number].started.as_slice();
        if !all_beside(stride, started, draws, stamps, counts) {
            return false;
        }
    }
    true
}

/// Whether the pages that these operations start, each with its draw, have draws that stand rightly beside the stamps of a log.
fn all_beside(
    stride: usize,
    started: &[usize],
    draws: &[Draw],
    stamps: &[u64],
    counts: &[usize],
) -> bool
    requires { 0 < stride }
    ensures { result ≡ all_beside stride stamps.now counts.now started.now draws.now }
{
    for page in 0..started.len().min(draws.len()) {
        let rounds = started[page] / stride;
        if !stands_beside(stamps, counts, rounds, stamp_of(draws[page])) {
            return false;
        }
    }
    true
}

/// Whether a draw with so many rounds before its own has this stamp rightly beside those of a log.
fn stands_beside(stamps: &[u64], counts: &[usize], rounds: usize, draw: u64) -> bool
    ensures { result ≡ stands_beside stamps.now counts.now rounds draw }
{
    let last = counts.len().saturating_sub(1);
    let before = rounds.min(last);
    let behind = (before + 1).min(last);
    is_above_last(stamps, at(counts, before), draw)
        && is_below_next(stamps, at(counts, behind), draw)
}

/// Whether a stamp is above the last of the first so many of these.
fn is_above_last(stamps: &[u64], count: usize, stamp: u64) -> bool
    ensures { result ≡ (count == 0 || nat_lt (slice_index stamps.now (count - 1)) stamp) }
{
    count == 0 || stamp_at(stamps, count - 1) < stamp
}

/// Whether a stamp is below the one behind the first so many of these.
fn is_below_next(stamps: &[u64], count: usize, stamp: u64) -> bool
    ensures { result ≡ (count == length stamps.now || nat_lt stamp (slice_index stamps.now count)) }
{
    count == stamps.len() || stamp < stamp_at(stamps, count)
}

/// The stamp at a place, 0 past the end.
fn stamp_at(stamps: &[u64], place: usize) -> u64
    ensures { result ≡ slice_index stamps.now place }
{
    match stamps.get(place) {
        Some(stamp) => *stamp,
        None => 0,
    }
}
