//! What a lawful journal comes to, from what following it left.

ghost use Rattle.std.specs.Prelude.{map, IfOk};
ghost use Rattle.hs_records.specs.Books.{agent_book_of};
ghost use Rattle.hs_records.specs.Journals.{journal_of};
ghost use Rattle.hs_outcome.specs.Outcomes.{IsOutcome};
ghost use Rattle.hs_records.specs.Views.{workload_of};
ghost use Rattle.hs_check.specs.Leaving.{AreLeft, MayFinish, HaveFinished};

use hs_agent::Agent;
use hs_base::{List, Memory};
use hs_check_follow::FollowedParts;
use hs_outcome::{Books, Outcome, gather};
use hs_records::{AgentBook, Journal, Workload};
use std::alloc::Global;

/// The books of agents that have nothing pinned.
fn finish_all(alloc: Global, agents: List<Agent<()>>) -> Result<List<AgentBook>, Memory>
    requires { MayFinish agents.items }
    ensures { IfOk result (λ books. HaveFinished agents.items (map agent_book_of books.items)) }
{
    let mut books = List::new(alloc);
    for agent in agents.into_vec() {
        books.append(agent.finish()?.book)?;
    }
    Ok(books)
}

/// What a workload and a lawful journal come to, where this was left.
pub(crate) fn come_to(
    alloc: Global,
    workload: &Workload,
    journal: &Journal,
    ended: FollowedParts,
) -> Result<Outcome, Memory>
    requires { AreLeft (workload_of workload.now) (journal_of journal.now) ended }
    ensures { IfOk result (IsOutcome (workload_of workload.now) (journal_of journal.now)) }
{
    let FollowedParts { clients, agents } = ended;
    let agents = finish_all(alloc, agents)?;
    let mut told = List::new(alloc);
    told.append_slice(journal.told.as_slice())?;
    gather(
        alloc,
        Books {
            version: workload.version,
            nodes: workload.settings.nodes,
            each: workload.settings.clients,
            clients,
            agents,
            told,
        },
    )
}
