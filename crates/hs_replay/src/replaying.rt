//! The replay.

ghost use Rattle.std.specs.Prelude.{IfOk};
ghost use Rattle.hs_law_run.specs.Lockstep.{lockstep};
ghost use Rattle.hs_outcome.specs.Outcomes.{AreBooksOf, IsOutcome};
ghost use Rattle.hs_records.specs.Validity.{IsValid};
ghost use Rattle.hs_records.specs.Views.{workload_of};

use crate::books::{NotedBooks, books_of};
use crate::schedule::{close, rounds};
use crate::start::{make_coordinator, make_nodes};
use hs_base::{List, Memory};
use hs_law_run::lockstep_laws::{machines_are_whole, schedule_is_lawful};
use hs_outcome::{Books, Outcome, gather};
use hs_records::Workload;
use std::alloc::Global;

/// Replays a workload by the lockstep schedule, and answers what it comes to. The one error is want of memory.
pub fn replay(alloc: Global, workload: &Workload) -> Result<Outcome, Memory>
    requires { IsValid (workload_of workload.now) }
    ensures { IfOk result (λ outcome. IsOutcome (workload_of workload.now) (lockstep (workload_of workload.now)) outcome) }
{
    let books = play(alloc, workload)?;
    gather(alloc, books)
}

/// Replays a workload as `replay` does, and lets it go before it makes the outcome. So the operations and the ledger are never there
/// together. The one error is want of memory.
pub fn into_outcome(alloc: Global, workload: Workload) -> Result<Outcome, Memory>
    requires { IsValid (workload_of workload) }
    ensures { IfOk result (λ outcome. IsOutcome (workload_of workload) (lockstep (workload_of workload)) outcome) }
{
    let books = play(alloc, &workload)?;
    drop(workload);
    gather(alloc, books)
}

/// Plays the schedule to its end, and answers what all noted.
fn play(alloc: Global, workload: &Workload) -> Result<Books, Memory>
    requires { IsValid (workload_of workload.now) }
    ensures { IfOk result (λ books. AreBooksOf (workload_of workload.now) (lockstep (workload_of workload.now)) books) }
{
    machines_are_whole();
    schedule_is_lawful();
    let mut nodes = make_nodes(alloc, workload)?;
    let mut coordinator = make_coordinator(alloc, &nodes, workload)?;
    rounds(&mut coordinator, &mut nodes, workload)?;
    close(&mut coordinator, &mut nodes, workload)?;
    let mut told = List::new(alloc);
    told.append_slice(coordinator.log().as_slice())?;
    let noted = books_of(alloc, nodes)?;
    let NotedBooks { clients, agents } = noted;
    Ok(Books {
        version: workload.version,
        nodes: workload.settings.nodes,
        each: workload.settings.clients,
        clients,
        agents,
        told,
    })
}
