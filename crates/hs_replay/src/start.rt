//! All nodes of a replay and its coordinator, where nothing was done.

ghost use Rattle.std.specs.Prelude.{◌<◌, ℕ, IfOk};
ghost use Rattle.hs_law_run.specs.Lockstep.{machine_start};
ghost use Rattle.hs_records.specs.Validity.{IsValid};
ghost use Rattle.hs_records.specs.Views.{workload_of};
ghost use Rattle.hs_replay.specs.All.{AllAt, NodesAt};
ghost use Rattle.hs_replay.specs.Standing.{NodeIsAt};

use crate::node::ReplayNode;
use hs_base::{List, Memory};
use hs_coord::Coordinator;
use hs_law_run::lockstep_laws::machines_start_so;
use hs_records::Workload;
use std::alloc::Global;

/// The nodes of a valid workload.
pub fn make_nodes(alloc: Global, workload: &Workload) -> Result<List<ReplayNode>, Memory>
    requires { IsValid (workload_of workload.now) }
    ensures { IfOk result (λ nodes. NodesAt (workload_of workload.now) (machine_start (workload_of workload.now)) nodes.items) }
{
    let count = workload.settings.nodes as usize;
    let mut nodes = List::with_room(alloc, count)?;
    for node in 0..count {
        let made = make_at(alloc, workload, node)?;
        nodes.push(made);
    }
    Ok(nodes)
}

/// A node of a valid workload.
fn make_at(alloc: Global, workload: &Workload, node: usize) -> Result<ReplayNode, Memory>
    requires valid { IsValid (workload_of workload.now) }
    requires low { node < workload.now.settings.nodes }
    ensures { IfOk result (NodeIsAt (workload_of workload.now) (machine_start (workload_of workload.now)) node) }
{
    let each = workload.settings.clients as usize;
    let first = node * each;
    let clients = &workload.clients.as_slice()[first..first + each];
    let number = node as u16;
    ReplayNode::make(alloc, number, &workload.settings, clients)
}

/// The coordinator of these nodes.
pub fn make_coordinator(
    alloc: Global,
    nodes: &List<ReplayNode>,
    workload: &Workload,
) -> Result<Coordinator, Memory>
    requires { NodesAt (workload_of workload.now) (machine_start (workload_of workload.now)) nodes.now.items }
    ensures { IfOk result (AllAt (workload_of workload.now) (machine_start (workload_of workload.now)) nodes.now.items) }
{
    machines_start_so();
    Coordinator::make(alloc, workload.settings.nodes)
}
