//! Of the eleventh clause: agents take asks at the pace at which messages are said.

ghost use Rattle.std.specs.Prelude.{◌≡◌, ℕ, ◌+◌, ◌-◌, ◌<◌, ◌≤◌, ◌∷◌, true, length, min, max, slice_index, nat_le, IfOk};
ghost use Rattle.std.specs.List.{list_all};
ghost use Rattle.hs_base.specs.declared.limits.TheConstants.{MAX_NODES, MAX_TAKEN};
ghost use Rattle.hs_records.specs.Journals.{journal_of};
ghost use Rattle.hs_law_journal.specs.Ends.{is_followed};
ghost use Rattle.hs_law_journal.specs.Following.{followed};
ghost use Rattle.hs_law_journal.specs.Pace.{asks_in_pace, due_of};
ghost use Rattle.hs_law_journal.specs.Played.{played};
ghost use Rattle.hs_records.specs.Validity.{IsValid};
ghost use Rattle.hs_records.specs.Views.{workload_of};
ghost use Rattle.hs_check_follow.specs.Finding.{IsFound};
ghost use Rattle.hs_check.specs.CountedAsks.{said_behind, places_behind, heard_with, heard_for, most_passes, asks_behind_each, all_ask_enough};
ghost use Rattle.hs_check.specs.Counting.{is_of, behind_each};
ghost use Rattle.hs_check.specs.declared.kinds.Kind.TheVariants.{Asks};

use crate::counts::{at, one_more, push_where};
use crate::kinds::Kind;
use hs_base::limits::MAX_TAKEN;
use hs_base::{Memory, NodeId, NodeSet};
use hs_check_follow::{Found, FoundNode, log_of};
use hs_law_journal::laws::{following_plays_out, runs_are_of_the_journal};
use hs_records::{Journal, Step, Workload};
use std::alloc::Global;

/// Whether the agents of all nodes take enough asks. The one error is want of memory.
pub(crate) fn asks_in_pace(
    alloc: Global,
    workload: &Workload,
    journal: &Journal,
    found: &Found,
) -> Result<bool, Memory>
    requires valid { IsValid (workload_of workload.now) }
    requires followed { is_followed (played (workload_of workload.now) (journal_of journal.now)) ≡ true }
    requires found { IsFound (workload_of workload.now).settings (followed (workload_of workload.now) (journal_of journal.now)) found.now }
    ensures { IfOk result (λ yes. yes ≡ list_all (asks_in_pace (workload_of workload.now).settings (followed (workload_of workload.now) (journal_of journal.now)))
        (followed (workload_of workload.now) (journal_of journal.now)).nodes) }
{
    following_plays_out();
    runs_are_of_the_journal();
    let nodes = found.nodes.as_slice();
    let heard = heard_by_passes(alloc, nodes, journal.told.as_slice())?;
    for node in 0..nodes.len() {
        let log = log_of(journal, node);
        let id = NodeId(node as u16);
        if !takes_asks(alloc, log, found.asked.as_slice(), id, heard.as_slice())? {
            return Ok(false);
        }
    }
    Ok(true)
}

/// How many messages the coordinator has to have heard by each pass from the first on, for as many passes as a node made.
fn heard_by_passes(
    alloc: Global,
    nodes: &[FoundNode],
    told: &[NodeId],
) -> Result<Vec<usize>, Memory>
    requires { length nodes.now ≤ MAX_NODES }
    ensures count { IfOk result (λ heard. length heard.items ≡ most_passes nodes.now) }
    ensures each { IfOk result (λ heard. (pass : ℕ) → pass < most_passes nodes.now → slice_index heard.items pass ≡ heard_for told.now pass 0 nodes.now) }
{
    let mut heard = vec![in alloc; 0; most_passes(nodes)]?;
    for node in 0..nodes.len() {
        let places = places_of(alloc, told, NodeId(node as u16))?;
        hear_due(
            &mut heard,
            nodes[node].said.as_slice(),
            places.as_slice(),
            told.len(),
        );
    }
    Ok(heard)
}

/// The most passes that one of these nodes made.
fn most_passes(nodes: &[FoundNode]) -> usize
    ensures { result ≡ most_passes nodes.now }
{
    let mut most = 0;
    for node in 0..nodes.len() {
        most = most.max(nodes[node].said.len());
    }
    most
}

/// How many of these messages are heard with each one of a node.
fn places_of(alloc: Global, told: &[NodeId], node: NodeId) -> Result<Vec<usize>, Memory>
    ensures { IfOk result (λ places. places.items ≡ places_behind node.0 0 told.now) }
{
    let mut places = Vec::new(alloc);
    for place in 0..told.len() {
        push_where(&mut places, told[place].0 == node.0, place + 1)?;
    }
    Ok(places)
}

/// Raises what has to be heard by each pass to what is due of a node, which said so many messages behind each of its passes, and
/// with each of them so many messages of all are heard.
fn hear_due(heard: &mut Vec<usize>, said: &[usize], places: &[usize], all: usize)
    ensures count { length heard.new.items ≡ length heard.old.items }
    ensures each { (pass : ℕ) → pass < length heard.old.items
        → slice_index heard.new.items pass ≡ max (slice_index heard.old.items pass) (heard_with places.now all (due_of (said_behind said.now) pass)) }
{
    let mut due = 0;
    for pass in 0..heard.len() {
        heard[pass] = heard[pass].max(heard_with(places, all, due));
        due = next_due(due, said_behind(said, pass + 1));
    }
}

/// How many messages are heard with so many of a node, or all where it has fewer.
fn heard_with(places: &[usize], all: usize, due: usize) -> usize
    ensures { result ≡ heard_with places.now all due }
{
    if due == 0 {
        return 0;
    }
    match places.get(due - 1) {
        Some(place) => *place,
        None => all,
    }
}

/// How many messages a node had said behind so many passes.
fn said_behind(said: &[usize], passes: usize) -> usize
    ensures { result ≡ said_behind said.now passes }
{
    let known = passes.min(said.len());
    if known == 0 { 0 } else { said[known - 1] }
}

/// How many messages are due a pass later, where so many had been said.
fn next_due(due: usize, said: usize) -> usize
    ensures { result ≡ min (due + MAX_TAKEN) said }
{
    due.saturating_add(MAX_TAKEN as usize).min(said)
}

/// Whether these steps of a node's agent take enough of the asks that messages lead to, where so many messages are to be heard by
/// each pass.
fn takes_asks(
    alloc: Global,
    log: &[Step],
    asked: &[NodeSet],
    node: NodeId,
    heard: &[usize],
) -> Result<bool, Memory>
    requires { node.0 < MAX_NODES }
    ensures { IfOk result (λ yes. yes ≡ all_ask_enough (0 ∷ behind_each (is_of Asks) 0 log.now) (0 ∷ asks_behind_each node.0 0 asked.now) heard.now) }
{
    let taken = Kind::Asks.count_passes(alloc, log)?;
    let sent = count_asks(alloc, asked, node)?;
    let yes = take_enough(taken.as_slice(), sent.as_slice(), heard);
    Ok(yes)
}

/// How many asks of a node were sent before the first message and behind each, where each message led to asks of these nodes.
fn count_asks(alloc: Global, asked: &[NodeSet], node: NodeId) -> Result<Vec<usize>, Memory>
    requires { node.0 < MAX_NODES }
    ensures { IfOk result (λ sent. sent.items ≡ 0 ∷ asks_behind_each node.0 0 asked.now) }
{
    let mut sent = Vec::new(alloc);
    sent.push(0)?;
    let mut count = 0;
    for place in 0..asked.len() {
        count = one_more(asked[place].contains(node), count);
        sent.push(count)?;
    }
    Ok(sent)
}

/// Whether passes take enough asks, where so many were taken before the first pass and behind each, so many are sent by the first
/// so many messages, and so many messages are to be heard by each pass.
fn take_enough(taken: &[usize], sent: &[usize], heard: &[usize]) -> bool
    ensures { result ≡ all_ask_enough taken.now sent.now heard.now }
{
    for pass in 1..taken.len().saturating_sub(1) {
        let waiting = at(sent, at(heard, pass - 1));
        if !is_enough(waiting, taken[pass], taken[pass + 1]) {
            return false;
        }
    }
    true
}

/// Whether of so many asks that were sent a pass takes enough, before and behind which so many were taken.
fn is_enough(sent: usize, before: usize, behind: usize) -> bool
    ensures { result ≡ nat_le (min (sent - before) MAX_TAKEN) (behind - before) }
{
    let waiting = sent.saturating_sub(before);
    waiting.min(MAX_TAKEN as usize) <= behind.saturating_sub(before)
}
