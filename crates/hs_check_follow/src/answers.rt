//! The fourth clause: each give answers the draw of its chunk.

ghost use Rattle.std.specs.Prelude.{◌≡◌, ℕ, ◌*◌, ◌<◌, ◌≤◌, ◌&&◌, ◌∷◌, List, [], None, true, length, slice_index_or, IfOk, OnOk};
ghost use Rattle.std.specs.Bool.{OnTrue};
ghost use Rattle.std.specs.List.{list_all};
ghost use Rattle.std.specs.List.Sorted.{IsNonDecreasingBy, IsPermutation};
ghost use Rattle.hs_base.specs.declared.limits.TheConstants.{MAX_CLIENTS};
ghost use Rattle.hs_records.specs.Journals.{journal_of};
ghost use Rattle.hs_law_journal.specs.Ends.{is_followed};
ghost use Rattle.hs_law_journal.specs.Following.{followed, log_at};
ghost use Rattle.hs_law_journal.specs.Played.{played};
ghost use Rattle.hs_law_journal.specs.Pooled.{has_answers};
ghost use Rattle.hs_law_journal.specs.Shape.{has_stamps};
ghost use Rattle.hs_records.specs.Validity.{IsValid};
ghost use Rattle.hs_records.specs.Views.{workload_of};
ghost use Rattle.hs_check_follow.specs.declared.happened.StampedEvent.{StampedEvent};
ghost use Rattle.hs_check_follow.specs.Answering.{answers_last, answers_through, is_got, latest_at, IsLatest, IsSet};
ghost use Rattle.hs_check_follow.specs.Finding.{IsFound};
ghost use Rattle.hs_check_follow.specs.Happening.{draw_at, drawn_from, node_timed};

use crate::found::{Found, FoundNode};
use crate::happened::{NotedEvent, StampedEvent, draw_of, events_of};
use crate::ordered::put_in_order;
use hs_base::Memory;
use hs_law_journal::laws::{following_plays_out, gives_are_noted, runs_are_of_the_journal};
use hs_records::{Draw, Journal, Workload};
use std::alloc::Global;

/// Whether each give answers the draw of its chunk: that draw came before it, and nothing at the buffer in between. The one
/// error is want of memory.
pub fn has_answers(
    alloc: Global,
    workload: &Workload,
    journal: &Journal,
    found: &Found,
) -> Result<bool, Memory>
    requires valid { IsValid (workload_of workload.now) }
    requires stamps { has_stamps (played (workload_of workload.now) (journal_of journal.now)) ≡ true }
    requires followed { is_followed (played (workload_of workload.now) (journal_of journal.now)) ≡ true }
    requires found { IsFound (workload_of workload.now).settings (followed (workload_of workload.now) (journal_of journal.now)) found.now }
    ensures { IfOk result (λ yes. yes ≡ has_answers (played (workload_of workload.now) (journal_of journal.now))) }
{
    following_plays_out();
    runs_are_of_the_journal();
    gives_are_noted();
    let nodes = found.nodes.as_slice();
    let each = workload.settings.clients;
    for node in 0..nodes.len() {
        if !node_answers(alloc, journal, each, node as u16, &nodes[node])? {
            return Ok(false);
        }
    }
    Ok(true)
}

/// Whether at a node each page whose buffer was given back had got one, and the events of the pool, in the order of stamps, say
/// that each give answers its draw.
fn node_answers(
    alloc: Global,
    journal: &Journal,
    each: u16,
    node: u16,
    found: &FoundNode,
) -> Result<bool, Memory>
    requires { length found.now.clients.items ≤ MAX_CLIENTS }
    ensures { IfOk result (λ yes. (sorted : List StampedEvent)
        × IsPermutation (node_timed (drawn_from (journal_of journal.now) (node * each) found.now.clients.items) (log_at (journal_of journal.now) node) found.now.gives.items) sorted
        × IsNonDecreasingBy (λ (t : StampedEvent). t.stamp) sorted
        × (yes ≡ (list_all (λ page. is_got (draw_at (drawn_from (journal_of journal.now) (node * each) found.now.clients.items) page)) found.now.gives.items
        && answers_through [] sorted))) }
{
    let mut events = events_of(alloc, journal, each, node, found)?;
    put_in_order(&mut events)?;
    let answer = answer_in_order(alloc, events.as_slice())?;
    if !all_got(journal, each, node, found) {
        return Ok(false);
    }
    Ok(answer)
}

/// Whether each page whose buffer was given back had got one.
fn all_got(journal: &Journal, each: u16, node: u16, found: &FoundNode) -> bool
    ensures { result ≡ list_all (λ page. is_got (draw_at (drawn_from (journal_of journal.now) (node * each) found.now.clients.items) page)) found.now.gives.items }
{
    let clients = found.clients.as_slice();
    for page in found.gives.as_slice() {
        if !is_got(draw_of(journal, each, node, clients, *page)) {
            return false;
        }
    }
    true
}

/// Whether there is a draw, and it got a buffer.
fn is_got(draw: Option<Draw>) -> bool
    ensures { result ≡ is_got draw }
{
    match draw {
        Some(Draw::Got { .. }) => true,
        _ => false,
    }
}

/// Whether of these events, one after another, each give answers its draw.
fn answer_in_order(alloc: Global, events: &[StampedEvent]) -> Result<bool, Memory>
    ensures { IfOk result (λ yes. yes ≡ answers_through [] events.now) }
{
    let mut latest = Latest {
        stamps: Vec::new(alloc),
    };
    for event in events {
        if !latest.note(*event)? {
            return Ok(false);
        }
    }
    Ok(true)
}

/// The stamp of the last event of each buffer, by the buffer's number. Behind the end no buffer had an event.
#[derive(Drop)]
pub(crate) struct Latest {
    stamps: Vec<Option<u64>>,
}

impl Latest {
    /// Notes the next event, unless it is a give that does not answer its draw.
    fn note(&mut self, timed: StampedEvent) -> Result<bool, Memory>
        ensures { (before : List StampedEvent) → IsLatest before self.old
            → IfOk result (λ yes. (yes ≡ answers_last before timed.event) × OnTrue yes (IsLatest (timed ∷ before) self.new)) }
    {
        match timed.event {
            NotedEvent::Got { buffer } => {
                self.set(buffer, timed.stamp)?;
            }
            NotedEvent::Given { buffer, drawn } => {
                if self.at(buffer) != Some(drawn) {
                    return Ok(false);
                }
                self.set(buffer, timed.stamp)?;
            }
            _ => {}
        }
        Ok(true)
    }

    /// The stamp of the last event of a buffer.
    fn at(&self, buffer: u32) -> Option<u64>
        ensures { result ≡ latest_at self.now buffer }
    {
        match self.stamps.get(buffer as usize) {
            Some(stamp) => *stamp,
            None => None,
        }
    }

    /// Sets the stamp of the last event of a buffer.
    fn set(&mut self, buffer: u32, stamp: u64) -> Result<(), Memory>
        ensures { OnOk result (IsSet buffer stamp self.old self.new) }
    {
        let place = buffer as usize;
        reach(&mut self.stamps, place)?;
        self.stamps[place] = Some(stamp);
        Ok(())
    }
}

/// Appends buffers without an event until there is this place.
fn reach(stamps: &mut Vec<Option<u64>>, place: usize) -> Result<(), Memory>
    ensures long { OnOk result (place < length stamps.new.items) }
    ensures same { OnOk result ((buffer : ℕ) → slice_index_or stamps.new.items buffer None ≡ slice_index_or stamps.old.items buffer None) }
{
    'places: while stamps.len() <= place {
        stamps.push(None)?;
    }
    Ok(())
}
