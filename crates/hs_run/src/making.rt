//! All nodes and their coordinator before the first round.

ghost use Rattle.std.specs.Prelude.{ℕ, ◌<◌, [], IfOk};
ghost use Rattle.hs_run_actors.specs.Coordinators.{IsCoordinatorActor};
ghost use Rattle.hs_records.specs.Validity.{IsValid};
ghost use Rattle.hs_records.specs.Views.{workload_of};
ghost use Rattle.hs_run.specs.Making.{NodeActorsBegin, AreMade, nothing_moved, nothing_asked};
ghost use Rattle.hs_run.specs.Moments.{CanBegin};

use crate::node::ActingNode;
use crate::node_actors::NodeActors;
use hs_base::{List, Memory};
use hs_records::Workload;
use hs_run_actors::{AgentActor, CoordinatorActor, NewNode, begin_node};
use std::alloc::Global;

/// The nodes of a valid workload and their coordinator, where nothing was done.
pub(crate) fn make_all(
    alloc: Global,
    workload: &Workload,
) -> Result<(List<ActingNode>, CoordinatorActor), Memory>
    requires { IsValid (workload_of workload.now) }
    ensures { IfOk result (λ made. CanBegin (workload_of workload.now) made.0.items made.1) }
{
    let nodes = make_nodes(alloc, workload)?;
    let coordinator = make_coordinator(alloc, workload)?;
    Ok((nodes, coordinator))
}

/// The nodes, by number.
fn make_nodes(alloc: Global, workload: &Workload) -> Result<List<ActingNode>, Memory>
    requires { IsValid (workload_of workload.now) }
    ensures { IfOk result (λ nodes. AreMade (workload_of workload.now) workload.now.settings.nodes nodes.items) }
{
    let count = workload.settings.nodes as usize;
    let mut nodes = List::with_room(alloc, count)?;
    for number in 0..count {
        let site = make_site(alloc, workload, number)?;
        nodes.push(ActingNode {
            site,
            failed: false,
        });
    }
    Ok(nodes)
}

/// The clients and the agent of the node with this number. The agents' numbers among the actors stand behind those of all
/// clients.
fn make_site(alloc: Global, workload: &Workload, number: usize) -> Result<NodeActors, Memory>
    requires valid { IsValid (workload_of workload.now) }
    requires low { number < workload.now.settings.nodes }
    ensures { IfOk result (NodeActorsBegin (workload_of workload.now) number) }
{
    let settings = &workload.settings;
    let node = number as u16;
    let NewNode { callers, port } = begin_node(alloc, workload, node)?;
    let clients = u32::from(settings.nodes) * u32::from(settings.clients);
    let agent = AgentActor::make(alloc, clients + u32::from(node), node, settings, port)?;
    Ok(NodeActors { callers, agent })
}

/// The coordinator, whose number among the actors is the last.
fn make_coordinator(alloc: Global, workload: &Workload) -> Result<CoordinatorActor, Memory>
    requires { IsValid (workload_of workload.now) }
    ensures { IfOk result (IsCoordinatorActor (workload_of workload.now) [] nothing_moved nothing_asked) }
{
    let nodes = workload.settings.nodes;
    let clients = u32::from(nodes) * u32::from(workload.settings.clients);
    CoordinatorActor::make(alloc, clients + u32::from(nodes), nodes)
}
