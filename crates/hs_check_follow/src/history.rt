//! The third clause: what happened at each pool is a history of it.

ghost use Rattle.std.specs.Prelude.{◌≡◌, true, length, map, IfOk};
ghost use Rattle.hs_records.specs.Journals.{journal_of};
ghost use Rattle.hs_law_journal.specs.Ends.{is_followed};
ghost use Rattle.hs_law_journal.specs.Following.{followed};
ghost use Rattle.hs_law_journal.specs.Played.{played};
ghost use Rattle.hs_law_journal.specs.Pooled.{StampedPoolEvent, by_stamp, has_history, is_history};
ghost use Rattle.hs_records.specs.Validity.{IsValid};
ghost use Rattle.hs_records.specs.Views.{workload_of};
ghost use Rattle.hs_check_follow.specs.Finding.{IsFound};
ghost use Rattle.hs_check_follow.specs.Happening.{pool_event, events_below};

use crate::found::Found;
use crate::happened::{StampedEvent, events_of};
use crate::ordered::put_in_order;
use crate::replay::Replay;
use hs_base::Memory;
use hs_law_journal::laws::{following_plays_out, gives_are_noted, runs_are_of_the_journal};
use hs_records::{Journal, Workload};
use std::alloc::Global;

/// Whether the events of each node's pool are a history of it. The one error is want of memory.
pub fn has_history(
    alloc: Global,
    workload: &Workload,
    journal: &Journal,
    found: &Found,
) -> Result<bool, Memory>
    requires valid { IsValid (workload_of workload.now) }
    requires followed { is_followed (played (workload_of workload.now) (journal_of journal.now)) ≡ true }
    requires found { IsFound (workload_of workload.now).settings (followed (workload_of workload.now) (journal_of journal.now)) found.now }
    ensures { IfOk result (λ yes. yes ≡ has_history (played (workload_of workload.now) (journal_of journal.now))) }
{
    following_plays_out();
    runs_are_of_the_journal();
    gives_are_noted();
    let nodes = found.nodes.as_slice();
    let each = workload.settings.clients;
    for node in 0..nodes.len() {
        let events = events_of(alloc, journal, each, node as u16, &nodes[node])?;
        if !is_history(alloc, workload.settings.buffers, events)? {
            return Ok(false);
        }
    }
    Ok(true)
}

/// Whether these events are a history of a pool with so many buffers, in the order of their stamps.
fn is_history(alloc: Global, buffers: u32, events: Vec<StampedEvent>) -> Result<bool, Memory>
    ensures { IfOk result (λ yes. yes ≡ is_history buffers (map (λ (e : StampedPoolEvent). e.event)
        (by_stamp (λ (e : StampedPoolEvent). e.stamp) (length events.items) (map pool_event events.items)))) }
{
    let mut events = events;
    put_in_order(&mut events)?;
    let bound = events.len() as u64;
    let yes = may_happen(alloc, buffers, bound, events.as_slice())?;
    Ok(yes)
}

/// Whether those of these events that have a stamp below a bound may happen one after another at a pool with so many buffers.
fn may_happen(
    alloc: Global,
    buffers: u32,
    bound: u64,
    events: &[StampedEvent],
) -> Result<bool, Memory>
    ensures { IfOk result (λ yes. yes ≡ is_history buffers (events_below bound events.now)) }
{
    let mut replay = Replay::make(alloc, buffers)?;
    for event in events {
        if !replay.take_event_below(bound, *event)? {
            return Ok(false);
        }
    }
    Ok(true)
}
