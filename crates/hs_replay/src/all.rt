//! All nodes of a replay.

ghost use Rattle.std.specs.Prelude.{◌≡◌, ℕ, ◌<◌, length, OnOk};
ghost use Rattle.hs_law_journal.specs.Ends.{is_bare};
ghost use Rattle.hs_law_journal.specs.Played.{played};
ghost use Rattle.hs_law_run.specs.Ending.{AllDone};
ghost use Rattle.hs_law_run.specs.Lockstep.{Machine, agents_take, agents_give, clients_go, passes};
ghost use Rattle.hs_records.specs.Plain.{PlainWorkload};
ghost use Rattle.hs_records.specs.Views.{workload_of};
ghost use Rattle.hs_replay.specs.All.{AllAt, NodesAt, NodesBetween, TellsLeft};
ghost use Rattle.hs_base.specs.Changing.{ChangesAt};
ghost use Rattle.hs_replay.specs.Going.{node_goes};
ghost use Rattle.hs_replay.specs.Left.{TellsNodeLeft};
ghost use Rattle.hs_replay.specs.Passing.{StandsStill};
ghost use Rattle.hs_replay.specs.Standing.{NodeIsAt};

use crate::coordinator::coordinate;
use crate::node::ReplayNode;
use hs_base::{List, Memory};
use hs_coord::Coordinator;
use hs_law_run::lockstep_laws::{
    agents_give_so, agents_take_so, clients_go_so, machines_are_whole, machines_lead_on,
};
use hs_records::Workload;

/// Each client of each node does its next operations.
pub fn play_all(nodes: &mut List<ReplayNode>, workload: &Workload) -> Result<(), Memory>
    requires { (m : Machine) × NodesAt (workload_of workload.now) m nodes.old.items }
    ensures { (m : Machine) → NodesAt (workload_of workload.now) m nodes.old.items
        → OnOk result (NodesAt (workload_of workload.now) (clients_go (workload_of workload.now) m) nodes.new.items) }
{
    let count = nodes.len();
    for node in 0..count {
        play_node(nodes, workload, node)?;
    }
    Ok(())
}

/// The clients of a node do their next operations.
fn play_node(nodes: &mut List<ReplayNode>, workload: &Workload, node: usize) -> Result<(), Memory>
    requires node { node < length nodes.old.items }
    requires at { (m : Machine) × NodesAt (workload_of workload.now) m nodes.old.items }
    ensures { (m : Machine) → NodesAt (workload_of workload.now) m nodes.old.items
        → OnOk result (NodesAt (workload_of workload.now) (node_goes (workload_of workload.now) m node workload.now.settings.clients) nodes.new.items) }
{
    machines_are_whole();
    clients_go_so();
    let each = workload.settings.clients as usize;
    let first = node * each;
    let clients = &workload.clients.as_slice()[first..first + each];
    nodes.as_mut_slice()[node].play_clients(&workload.settings, clients)
}

/// Whether a client has operations left.
pub fn has_left(nodes: &List<ReplayNode>, workload: &Workload) -> bool
    requires { (m : Machine) × NodesAt (workload_of workload.now) m nodes.now.items }
    ensures { (m : Machine) → NodesAt (workload_of workload.now) m nodes.now.items → TellsLeft (workload_of workload.now) m result }
{
    for node in 0..nodes.len() {
        if has_left_at(nodes, workload, node) {
            return true;
        }
    }
    false
}

/// Whether a client of a node has operations left.
fn has_left_at(nodes: &List<ReplayNode>, workload: &Workload, node: usize) -> bool
    requires node { node < length nodes.now.items }
    requires at { (m : Machine) × NodesAt (workload_of workload.now) m nodes.now.items }
    ensures { (m : Machine) → NodesAt (workload_of workload.now) m nodes.now.items → TellsNodeLeft (workload_of workload.now) m node result }
{
    let each = workload.settings.clients as usize;
    let first = node * each;
    let clients = &workload.clients.as_slice()[first..first + each];
    nodes.as_slice()[node].has_left(clients)
}

/// Whether nothing waits at any node and nothing is pinned, where all clients are through.
pub fn is_bare(nodes: &List<ReplayNode>) -> bool
    requires { (W : PlainWorkload) × (m : Machine) × NodesAt W m nodes.now.items × AllDone W m }
    ensures { (W : PlainWorkload) (m : Machine) → NodesAt W m nodes.now.items → AllDone W m → result ≡ is_bare (played W m.journal) }
{
    machines_are_whole();
    for node in 0..nodes.len() {
        if !nodes.as_slice()[node].is_bare() {
            return false;
        }
    }
    true
}

/// A pass of every agent, and then the coordinator's.
pub fn pass(coordinator: &mut Coordinator, nodes: &mut List<ReplayNode>) -> Result<(), Memory>
    requires { (W : PlainWorkload) × (m : Machine) × AllAt W m nodes.old.items coordinator.old }
    ensures { (W : PlainWorkload) (m : Machine) → AllAt W m nodes.old.items coordinator.old
        → OnOk result (AllAt W (passes W m) nodes.new.items coordinator.new) }
{
    agents_take_so();
    agents_give_so();
    machines_are_whole();
    pass_all(nodes)?;
    coordinate(coordinator, nodes)
}

/// A pass of every agent.
fn pass_all(nodes: &mut List<ReplayNode>) -> Result<(), Memory>
    requires { (W : PlainWorkload) × (m : Machine) × NodesAt W m nodes.old.items }
    ensures { (W : PlainWorkload) (m : Machine) → NodesAt W m nodes.old.items
        → OnOk result (NodesAt W (agents_give W (agents_take W m)) nodes.new.items) }
{
    let count = nodes.len();
    for node in 0..count {
        pass_at(nodes, node)?;
    }
    Ok(())
}

/// A pass of an agent.
fn pass_at(nodes: &mut List<ReplayNode>, node: usize) -> Result<(), Memory>
    requires node { node < length nodes.old.items }
    requires between { (W : PlainWorkload) × (m : Machine) × NodesBetween W m (agents_give W (agents_take W m)) node nodes.old.items }
    ensures { (W : PlainWorkload) (m : Machine) → NodesBetween W m (agents_give W (agents_take W m)) node nodes.old.items
        → OnOk result (ChangesAt node nodes.old.items nodes.new.items (λ old new. NodeIsAt W (agents_give W (agents_take W m)) node new)) }
{
    nodes.as_mut_slice()[node].pass()
}
