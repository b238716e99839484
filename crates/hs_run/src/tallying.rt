//! What is counted of a run between two rounds.

ghost use Rattle.std.specs.Prelude.{◌≡◌, ◌^◌, ◌<◌, length, replicate, slice_get, slice_set, sum_by, IfOk, Some};
ghost use Rattle.hs_run.specs.Counts.{AreCounts, client_count, log_count, progress_of};
ghost use Rattle.hs_run.specs.declared.client.ClientCount.{ClientCount};
ghost use Rattle.hs_run.specs.declared.log.LogCount.{LogCount};
ghost use Rattle.hs_run.specs.RunStates.{RunState, RunStands, IsBegun};
ghost use Rattle.hs_client.specs.Sending.{operations_at};
ghost use Rattle.hs_records.specs.Validity.{IsValid};
ghost use Rattle.hs_records.specs.Views.{workload_of};
ghost use Rattle.hs_run.specs.Changing.{EachChanged};
ghost use Rattle.hs_run.specs.Nodes.{sites_of};
ghost use Rattle.hs_run.specs.Tallying.{MayCount, FitTotals};
ghost use Rattle.hs_run.specs.TallyingNodes.{no_operations, no_steps, MayCountClient, MayCountNode, CountedFirst, MayCountNodes, CountedNodes, MayCountLog, MayCountLogs, LogCounted};

use crate::client::ClientCount;
use crate::log::LogCount;
use crate::node::ActingNode;
use crate::node_actors::NodeActors;
use hs_base::{List, Memory};
use hs_board::Progress;
use hs_law_agent::laws::{events_add_this, lists_have_their_chunks};
use hs_records::Workload;
use hs_run_actors::{ClientActor, callers_have_sent};
use std::alloc::Global;
use std::marker::Model;

/// Of each client, in the order of node and number, and of each agent what was counted so far.
#[derive(Drop)]
pub(crate) struct RunTally {
    clients: List<ClientCount>,
    logs: List<LogCount>,
}

impl Model for RunTally {
    ghost use Rattle.hs_run.specs.Counts.{PlainRunTally};
    ghost use Rattle.hs_run.specs.TallyLayout.{tally_of};

    ghost Value = { PlainRunTally };

    ghost view = { tally_of };
}

impl RunTally {
    /// Counts of 0 for each client and each agent of the workload.
    pub(crate) fn make(alloc: Global, workload: &Workload) -> Result<RunTally, Memory>
        requires { IsValid (workload_of workload.now) }
        ensures { IfOk result (λ tally. (m : RunState) → IsBegun (workload_of workload.now) m → AreCounts (workload_of workload.now) m tally) }
    {
        let clients = no_clients(alloc, workload.clients.len())?;
        let logs = no_logs(alloc, workload.settings.nodes as usize)?;
        Ok(RunTally { clients, logs })
    }

    /// Counts on behind a round: each operation and each step that was counted before is not looked at again.
    pub(crate) fn count(&mut self, workload: &Workload, nodes: &List<ActingNode>)
        requires { MayCount (workload_of workload.now) nodes.now.items self.old }
        ensures counts { (m : RunState) → RunStands (workload_of workload.now) m → m.standing.nodes ≡ sites_of nodes.now.items → AreCounts (workload_of workload.now) m self.new }
        ensures fits { FitTotals self.new }
    {
        callers_have_sent();
        events_add_this();
        lists_have_their_chunks();
        count_clients(&mut self.clients, workload, nodes);
        count_logs(&mut self.logs, nodes);
    }

    /// What the counts come to behind so many rounds.
    pub(crate) fn progress(&self, rounds: u32) -> Progress
        requires { FitTotals self.now }
        ensures { result ≡ progress_of rounds self.now }
    {
        let clients = self.clients.as_slice();
        let logs = self.logs.as_slice();
        Progress {
            rounds,
            operations: done_in(clients),
            records: points_in(clients),
            nulls: nulls_in(clients),
            taken: taken_in(logs),
            given: given_in(logs),
        }
    }
}

/// The counts of so many clients that have done nothing.
fn no_clients(alloc: Global, count: usize) -> Result<List<ClientCount>, Memory>
    ensures { IfOk result (λ counts. counts.items ≡ replicate count no_operations) }
{
    let mut counts = List::with_room(alloc, count)?;
    for number in 0..count {
        counts.push(ClientCount {
            done: 0,
            points: 0,
            nulls: 0,
        });
    }
    Ok(counts)
}

/// The counts of so many logs with no step.
fn no_logs(alloc: Global, count: usize) -> Result<List<LogCount>, Memory>
    ensures { IfOk result (λ counts. counts.items ≡ replicate count no_steps) }
{
    let mut counts = List::with_room(alloc, count)?;
    for number in 0..count {
        counts.push(LogCount {
            steps: 0,
            taken: 0,
            given: 0,
        });
    }
    Ok(counts)
}

/// The clients of all nodes are counted on.
fn count_clients(counts: &mut List<ClientCount>, workload: &Workload, nodes: &List<ActingNode>)
    requires { MayCountNodes (workload_of workload.now) nodes.now.items counts.old.items }
    ensures { CountedNodes (workload_of workload.now) (length nodes.now.items) nodes.now.items counts.old.items counts.new.items }
{
    for number in 0..nodes.len() {
        count_node(counts, workload, &nodes.as_slice()[number].site, number);
    }
}

/// The clients of the node with this number are counted on.
fn count_node(counts: &mut List<ClientCount>, workload: &Workload, site: &NodeActors, node: usize)
    requires { MayCountNode (workload_of workload.now) node site.now.callers counts.old.items }
    ensures { CountedFirst (workload_of workload.now) node (workload_of workload.now).settings.clients site.now.callers counts.old.items counts.new.items }
{
    let first = node * workload.settings.clients as usize;
    for number in 0..site.callers.len() {
        let caller = &site.callers.as_slice()[number];
        count_client(counts, workload, caller, first + number);
    }
}

/// The client at a place is counted on.
fn count_client(
    counts: &mut List<ClientCount>,
    workload: &Workload,
    caller: &ClientActor,
    place: usize,
)
    requires counted { place < length counts.old.items }
    requires there { place < length (workload_of workload.now).clients }
    requires may { (count : ClientCount) → slice_get counts.old.items place ≡ Some count → MayCountClient (operations_at (workload_of workload.now) place) caller.now count }
    ensures { counts.new.items ≡ slice_set counts.old.items place (client_count (operations_at (workload_of workload.now) place) caller.now) }
{
    let operations = workload.clients.as_slice()[place].as_slice();
    let counted = counts.as_slice()[place].count(operations, caller);
    counts.as_mut_slice()[place] = counted;
}

/// The logs of all nodes are counted on.
fn count_logs(counts: &mut List<LogCount>, nodes: &List<ActingNode>)
    requires { MayCountLogs nodes.now.items counts.old.items }
    ensures { EachChanged (LogCounted nodes.now.items) counts.old.items counts.new.items }
{
    for number in 0..nodes.len() {
        count_log(counts, &nodes.as_slice()[number].site, number);
    }
}

/// The log of the node's agent, which has this number, is counted on.
fn count_log(counts: &mut List<LogCount>, site: &NodeActors, number: usize)
    requires counted { number < length counts.old.items }
    requires may { (count : LogCount) → slice_get counts.old.items number ≡ Some count → MayCountLog site.now.agent.agent.log count }
    ensures { counts.new.items ≡ slice_set counts.old.items number (log_count site.now.agent.agent.log) }
{
    let counted = counts.as_slice()[number].count(site.agent.log());
    counts.as_mut_slice()[number] = counted;
}

/// How many operations are done, summed over these clients.
fn done_in(counts: &[ClientCount]) -> u32
    requires { sum_by (λ (c : ClientCount). c.done) counts.now < 2 ^ 32 }
    ensures { result ≡ sum_by (λ (c : ClientCount). c.done) counts.now }
{
    let mut sum = 0;
    for count in counts {
        sum += count.done as u32;
    }
    sum
}

/// How many of the done operations are points, summed over these clients.
fn points_in(counts: &[ClientCount]) -> u32
    requires { sum_by (λ (c : ClientCount). c.points) counts.now < 2 ^ 32 }
    ensures { result ≡ sum_by (λ (c : ClientCount). c.points) counts.now }
{
    let mut sum = 0;
    for count in counts {
        sum += count.points;
    }
    sum
}

/// How many pages are null, summed over these clients.
fn nulls_in(counts: &[ClientCount]) -> u32
    requires { sum_by (λ (c : ClientCount). c.nulls) counts.now < 2 ^ 32 }
    ensures { result ≡ sum_by (λ (c : ClientCount). c.nulls) counts.now }
{
    let mut sum = 0;
    for count in counts {
        sum += count.nulls;
    }
    sum
}

/// How many chunks were taken, summed over these agents.
fn taken_in(counts: &[LogCount]) -> u32
    requires { sum_by (λ (c : LogCount). c.taken) counts.now < 2 ^ 32 }
    ensures { result ≡ sum_by (λ (c : LogCount). c.taken) counts.now }
{
    let mut sum = 0;
    for count in counts {
        sum += count.taken;
    }
    sum
}

/// How many buffers were given back, summed over these agents.
fn given_in(counts: &[LogCount]) -> u32
    requires { sum_by (λ (c : LogCount). c.given) counts.now < 2 ^ 32 }
    ensures { result ≡ sum_by (λ (c : LogCount). c.given) counts.now }
{
    let mut sum = 0;
    for count in counts {
        sum += count.given;
    }
    sum
}
