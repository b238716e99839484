//! The tenth clause: nothing is left over.

ghost use Rattle.std.specs.Prelude.{◌≡◌, ℕ, ◌<◌, ◌≤◌, ◌&&◌, ◌==◌, true, List, length, zip, count_by};
ghost use Rattle.std.specs.List.{list_all, range_with_len};
ghost use Rattle.hs_base.specs.declared.limits.TheConstants.{MAX_NODES, MAX_CLIENTS};
ghost use Rattle.hs_base.specs.NodeSets.{has_node};
ghost use Rattle.hs_records.specs.Journals.{journal_of};
ghost use Rattle.hs_law_journal.specs.Ends.{is_followed, is_bare, took_all};
ghost use Rattle.hs_law_journal.specs.Following.{Asks, taken, NodeRun, followed};
ghost use Rattle.hs_law_journal.specs.Played.{played};
ghost use Rattle.hs_records.specs.Plain.{PlainSettings};
ghost use Rattle.hs_client.specs.Sending.{ClientSends};
ghost use Rattle.hs_records.specs.Validity.{IsValid};
ghost use Rattle.hs_records.specs.Views.{workload_of};
ghost use Rattle.hs_check_follow.specs.Finding.{AreFound, IsFound, IsFoundNode, IsFoundClient};

use crate::counting::log_of;
use crate::found::{Found, FoundClient, FoundNode};
use crate::sources::NodeQueue;
use hs_base::{NodeId, NodeSet};
use hs_law_journal::laws::{following_plays_out, runs_are_of_the_journal};
use hs_records::{Journal, Step, Workload};

/// Whether all that was sent, asked and said was taken, and nothing is pinned.
pub fn is_bare(workload: &Workload, journal: &Journal, found: &Found) -> bool
    requires valid { IsValid (workload_of workload.now) }
    requires followed { is_followed (played (workload_of workload.now) (journal_of journal.now)) ≡ true }
    requires found { IsFound (workload_of workload.now).settings (followed (workload_of workload.now) (journal_of journal.now)) found.now }
    ensures { result ≡ is_bare (played (workload_of workload.now) (journal_of journal.now)) }
{
    following_plays_out();
    runs_are_of_the_journal();
    for node in 0..workload.settings.nodes {
        let at = node as usize;
        let asks = count_asks(found.asked.as_slice(), NodeId(node));
        let heard = count_told(journal.told.as_slice(), NodeId(node));
        if !is_left_bare(
            log_of(journal, at),
            &found.nodes.as_slice()[at],
            asks,
            heard,
        ) {
            return false;
        }
    }
    true
}

/// Whether a node took all of its items and so many asks, and all that it said was heard, which are so many.
fn is_left_bare(log: &[Step], found: &FoundNode, asks: usize, heard: usize) -> bool
    requires { length found.now.clients.items ≤ MAX_CLIENTS }
    ensures { (settings : PlainSettings) (run : NodeRun) → IsFoundNode settings run found.now → run.state.log ≡ log.now
        → result ≡ (list_all (λ (c : ℕ × ClientSends). took_all run.state.log c.0 c.1) (zip (range_with_len 0 (length run.sends)) run.sends)
        && taken Asks run.state.log == asks && heard == length run.state.said && length run.state.pinned == 0) }
{
    let clients = took_all_items(log, found.clients.as_slice());
    clients && NodeQueue::Asks.count(log) == asks && heard == found.told && found.pinned == 0
}

/// Whether these steps took all that the clients sent.
fn took_all_items(log: &[Step], clients: &[FoundClient]) -> bool
    requires { length clients.now ≤ MAX_CLIENTS }
    ensures { (sends : List ClientSends) → AreFound IsFoundClient sends clients.now
        → result ≡ list_all (λ (c : ℕ × ClientSends). took_all log.now c.0 c.1) (zip (range_with_len 0 (length sends)) sends) }
{
    for number in 0..clients.len() {
        if !took_all(log, number as u16, &clients[number]) {
            return false;
        }
    }
    true
}

/// Whether these steps took all that a client sent.
fn took_all(log: &[Step], client: u16, found: &FoundClient) -> bool
    ensures { (sends : ClientSends) → IsFoundClient sends found.now → result ≡ took_all log.now client sends }
{
    NodeQueue::Chunks { client }.count(log) == found.chunks.len()
        && NodeQueue::Crumbs { client }.count(log) == found.crumbs.len()
        && NodeQueue::Triggers { client }.count(log) == found.triggers.len()
}

/// How many of these sets have a node.
fn count_asks(asked: &[NodeSet], node: NodeId) -> usize
    requires { node.0 < MAX_NODES }
    ensures { result ≡ count_by (λ to. has_node to node.0) asked.now }
{
    let mut count = 0;
    for to in asked {
        if to.contains(node) {
            count += 1;
        }
    }
    count
}

/// How many of these messages are of a node.
fn count_told(told: &[NodeId], node: NodeId) -> usize
    ensures { result ≡ count_by (λ other. other.0 == node.0) told.now }
{
    let mut count = 0;
    for other in told {
        if other.0 == node.0 {
            count += 1;
        }
    }
    count
}
