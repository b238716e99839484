//! All nodes and the coordinator, before anything was performed.

ghost use Rattle.std.specs.Prelude.{◌<◌, ◌≤◌, [], IfOk};
ghost use Rattle.hs_base.specs.declared.limits.TheConstants.{MAX_NODES};
ghost use Rattle.hs_records.specs.Journals.{journal_of};
ghost use Rattle.hs_law_journal.specs.Following.{followed, node_start, run_start};
ghost use Rattle.hs_records.specs.Views.{workload_of};
ghost use Rattle.hs_check_follow.specs.Asking.{MayBegin};
ghost use Rattle.hs_check_follow.specs.Beginning.{IsNewFollowedCoordinator, AreNoAsks, AreNoCounts};
ghost use Rattle.hs_check_follow.specs.Clients.{ClientStands};
ghost use Rattle.hs_check_follow.specs.Whole.{NodeAt, AllAt};

use crate::agent::FollowedAgent;
use crate::client::{FollowedClient, send};
use crate::clients::operations_of;
use crate::coordinator::FollowedCoordinator;
use crate::node::FollowedNode;
use crate::run::FollowedRun;
use hs_agent::Agent;
use hs_base::{Ask, ClientId, List, Memory, NodeId};
use hs_client::sending_laws::valid_clients_may_be_played;
use hs_coord::Coordinator;
use hs_records::{Journal, Workload};
use std::alloc::Global;

/// Follows a journal of the workload's shape as far as that is possible.
pub fn follow(alloc: Global, workload: &Workload, journal: &Journal) -> Result<FollowedRun, Memory>
    requires { MayBegin (workload_of workload.now) (journal_of journal.now) }
    ensures { IfOk result (λ f. AllAt (workload_of workload.now) (journal_of journal.now) (followed (workload_of workload.now) (journal_of journal.now)) f.nodes.items f.hearing) }
{
    let following = begin(alloc, workload, journal)?;
    follow_on(following, workload, journal)
}

/// Follows a journal as far as that is possible, where nothing was performed.
fn follow_on(
    following: FollowedRun,
    workload: &Workload,
    journal: &Journal,
) -> Result<FollowedRun, Memory>
    requires { AllAt (workload_of workload.now) (journal_of journal.now) (run_start (workload_of workload.now) (journal_of journal.now)) following.nodes.items following.hearing }
    ensures { IfOk result (λ f. AllAt (workload_of workload.now) (journal_of journal.now) (followed (workload_of workload.now) (journal_of journal.now)) f.nodes.items f.hearing) }
{
    let mut following = following;
    following.follow(workload, journal)?;
    Ok(following)
}

/// All nodes and the coordinator.
fn begin(alloc: Global, workload: &Workload, journal: &Journal) -> Result<FollowedRun, Memory>
    requires { MayBegin (workload_of workload.now) (journal_of journal.now) }
    ensures { IfOk result (λ f. AllAt (workload_of workload.now) (journal_of journal.now) (run_start (workload_of workload.now) (journal_of journal.now)) f.nodes.items f.hearing) }
{
    let count = workload.settings.nodes;
    let mut nodes = List::new(alloc);
    for node in 0..count {
        nodes.append(make_node(alloc, node, workload, journal)?)?;
    }
    let hearing = make_hearing(alloc, count)?;
    Ok(FollowedRun { nodes, hearing })
}

/// A node, with what its clients send.
fn make_node(
    alloc: Global,
    node: u16,
    workload: &Workload,
    journal: &Journal,
) -> Result<FollowedNode, Memory>
    requires may { MayBegin (workload_of workload.now) (journal_of journal.now) }
    requires node { node < workload.now.settings.nodes }
    ensures { IfOk result (NodeAt (workload_of workload.now) (journal_of journal.now) (node_start (workload_of workload.now) (journal_of journal.now) node)) }
{
    let settings = &workload.settings;
    let mut clients = List::new(alloc);
    for number in 0..settings.clients {
        let client = ClientId { node, number };
        clients.append(make_client(alloc, client, workload, journal)?)?;
    }
    let agent = Agent::make(alloc, NodeId(node), settings)?;
    Ok(FollowedNode {
        follower: FollowedAgent {
            agent,
            clients,
            said: List::new(alloc),
            asked: 0,
            gives: List::new(alloc),
        },
        next: 0,
        hands: List::new(alloc),
        told: List::new(alloc),
    })
}

/// A client of a journal before any step of it: all that the client sends, of which nothing is taken yet.
fn make_client(
    alloc: Global,
    client: ClientId,
    workload: &Workload,
    journal: &Journal,
) -> Result<FollowedClient, Memory>
    requires may { MayBegin (workload_of workload.now) (journal_of journal.now) }
    requires node { client.node < workload.now.settings.nodes }
    requires number { client.number < workload.now.settings.clients }
    ensures { IfOk result (ClientStands (workload_of workload.now) (journal_of journal.now) client.node [] client.number) }
{
    valid_clients_may_be_played();
    let settings = &workload.settings;
    let place = client.node as usize * settings.clients as usize + client.number as usize;
    let operations = operations_of(workload, client);
    let draws = journal.draws.as_slice()[place].as_slice();
    let sending = send(alloc, client, settings, operations, draws)?;
    Ok(sending)
}

/// The coordinator, which has heard nothing.
fn make_hearing(alloc: Global, nodes: u16) -> Result<FollowedCoordinator, Memory>
    requires { nodes ≤ MAX_NODES }
    ensures { IfOk result (IsNewFollowedCoordinator nodes) }
{
    let counts = no_counts(alloc, nodes)?;
    let asks = no_asks(alloc, nodes)?;
    let coordinator = Coordinator::make(alloc, nodes)?;
    Ok(FollowedCoordinator {
        coordinator,
        asks,
        counts,
        next: 0,
        asked: List::new(alloc),
    })
}

/// No asks of any node.
fn no_asks(alloc: Global, nodes: u16) -> Result<List<List<Ask>>, Memory>
    ensures { IfOk result (λ asks. AreNoAsks nodes asks.items) }
{
    let mut asks = List::new(alloc);
    for node in 0..nodes {
        asks.append(List::new(alloc))?;
    }
    Ok(asks)
}

/// A count of 0 for each node.
fn no_counts(alloc: Global, nodes: u16) -> Result<List<usize>, Memory>
    ensures { IfOk result (λ counts. AreNoCounts nodes counts.items) }
{
    let mut counts = List::new(alloc);
    for node in 0..nodes {
        counts.append(0)?;
    }
    Ok(counts)
}
