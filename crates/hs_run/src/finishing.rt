//! The books of a run whose rounds are over.

ghost use Rattle.std.specs.Prelude.{◌≡◌, ◌⊎◌, map, IfOk, OnErr, IsErr};
ghost use Rattle.hs_coord.specs.Messages.{Messages};
ghost use Rattle.hs_records.specs.Plain.{PlainWorkload};
ghost use Rattle.hs_records.specs.Views.{workload_of};
ghost use Rattle.hs_run_actors.specs.Coordinators.{Tellings, Askings, IsCoordinatorActor};
ghost use Rattle.hs_run.specs.Moments.{RoundsOver};
ghost use Rattle.hs_run.specs.Ended.{MayFinish, items_of};
ghost use Rattle.hs_run.specs.Finished.{AreLawfulBooks, AreBooksBehind, AreGathered};
ghost use Rattle.hs_run.specs.GatheredOf.{AreGatheredOf};

use crate::closing::close_down;
use crate::laws::{all_is_paid_for, what_is_sent_fits};
use crate::node::ActingNode;
use crate::pools::close_pools;
use crate::shutting::{ClosedNodes, shut_all};
use crate::story_laws::{closing_begins, journals_note_rounds, pools_are_kept, runs_are_lawful};
use hs_base::{List, Memory, NodeId};
use hs_outcome::Books;
use hs_records::{AgentBook, ClientBook, Workload};
use hs_run_actors::{CoordinatorActor, callers_have_sent};
use std::alloc::Global;

/// Ends a run whose rounds are over, and answers its books: those of a lawful journal of the workload, which notes where the rounds
/// stood behind each of them. The one error is want of memory.
pub(crate) fn finish(
    alloc: Global,
    workload: &Workload,
    nodes: List<ActingNode>,
    coordinator: CoordinatorActor,
) -> Result<Books, Memory>
    requires { RoundsOver (workload_of workload.now) nodes.items coordinator }
    ensures lawful { IfOk result (AreLawfulBooks (workload_of workload.now)) }
    ensures rounds { (over : RoundsOver (workload_of workload.now) nodes.items coordinator) → IfOk result (AreBooksBehind (workload_of workload.now) over.rounds over.made.moment over.made.came) }
{
    closing_begins();
    pools_are_kept();
    runs_are_lawful();
    journals_note_rounds();
    callers_have_sent();
    what_is_sent_fits();
    all_is_paid_for();
    let mut coordinator = coordinator;
    let mut ended = shut_all(alloc, nodes)?;
    close_down(&mut ended.nodes, &mut coordinator)?;
    gather(alloc, workload, ended, &coordinator)
}

/// The books of the clients, those of the agents, whose pools are closed, and the nodes that the coordinator heard.
fn gather(
    alloc: Global,
    workload: &Workload,
    ended: ClosedNodes,
    coordinator: &CoordinatorActor,
) -> Result<Books, Memory>
    requires { MayFinish ended.nodes.items (items_of ended.drawers.items) }
    ensures { IfOk result (AreGatheredOf workload.now ended coordinator.now) }
{
    let ClosedNodes {
        books,
        drawers,
        nodes,
    } = ended;
    let agents = close_pools(alloc, nodes, drawers);
    let told = told_of(alloc, coordinator);
    books_of(workload, books, agents, told)
}

/// The nodes whose messages the coordinator heard, in their order.
fn told_of(alloc: Global, coordinator: &CoordinatorActor) -> Result<List<NodeId>, Memory>
    ensures { (W : PlainWorkload) (heard : Messages) (moved : Tellings) (asked : Askings) → IsCoordinatorActor W heard moved asked coordinator.now
        → IfOk result (λ told. told.items ≡ map (λ m. m.node) heard) }
{
    let mut told = List::new(alloc);
    told.append_slice(coordinator.log().as_slice())?;
    Ok(told)
}

/// The books of a run, where memory was there for those of the agents and for the coordinator's.
fn books_of(
    workload: &Workload,
    clients: List<ClientBook>,
    agents: Result<List<AgentBook>, Memory>,
    told: Result<List<NodeId>, Memory>,
) -> Result<Books, Memory>
    ensures ok { IfOk result (AreGathered workload.now clients agents told) }
    ensures err { OnErr result (IsErr agents ⊎ IsErr told) }
{
    match (agents, told) {
        (Ok(agents), Ok(told)) => Ok(Books {
            version: workload.version,
            nodes: workload.settings.nodes,
            each: workload.settings.clients,
            clients,
            agents,
            told,
        }),
        _ => Err(Memory),
    }
}
