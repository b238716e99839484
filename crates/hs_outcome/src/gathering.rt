//! From books to an outcome.

ghost use Rattle.std.specs.Prelude.{◌≡◌, List, map, IfOk};
ghost use Rattle.hs_collect.specs.Collected.{AreCollected};
ghost use Rattle.hs_records.specs.Journals.{PlainJournal, journal_of};
ghost use Rattle.hs_law_outcome.specs.Outcomes.{outcome_of};
ghost use Rattle.hs_ledger.specs.Totals.{totals_of};
ghost use Rattle.hs_records.specs.Plain.{PlainWorkload};
ghost use Rattle.hs_outcome.specs.Outcomes.{AreBooksOf, IsOutcome};
ghost use Rattle.hs_outcome.specs.Journals.{journal_by};

use crate::claims::claimed_traces;
use crate::laws::{records_are_few, reported_pages_are_pages};
use crate::outcome::{Books, Outcome};
use crate::pages::collected;
use hs_base::{List, Memory, TraceId};
use hs_collect::Collector;
use hs_law_journal::laws::{following_plays_out, runs_are_of_the_journal};
use hs_law_outcome::laws::{books_fit, journals_have_the_shape, reported_pages_can_be_collected};
use hs_ledger::{Ledger, make_ledger};
use hs_records::{AgentBook, ClientBook, Draw, Journal, Step};
use std::alloc::Global;

/// The draws of all clients, by client.
fn all_draws(alloc: Global, clients: List<ClientBook>) -> Result<List<List<Draw>>, Memory>
    ensures { IfOk result (λ draws. map (λ list. list.items) draws.items ≡ map (λ book. book.draws.items) clients.items) }
{
    let mut draws = List::new(alloc);
    for book in clients.into_vec() {
        draws.append(book.draws)?;
    }
    Ok(draws)
}

/// The steps of all agents, by node.
fn all_logs(alloc: Global, agents: List<AgentBook>) -> Result<List<List<Step>>, Memory>
    ensures { IfOk result (λ logs. map (λ list. list.items) logs.items ≡ map (λ book. book.log.items) agents.items) }
{
    let mut logs = List::new(alloc);
    for book in agents.into_vec() {
        logs.append(book.log)?;
    }
    Ok(logs)
}

/// The journal that the books have.
fn journal(alloc: Global, books: Books) -> Result<Journal, Memory>
    ensures { IfOk result (λ journal. journal_of journal ≡ journal_by books) }
{
    Ok(Journal {
        nodes: books.nodes,
        clients: books.each,
        draws: all_draws(alloc, books.clients)?,
        logs: all_logs(alloc, books.agents)?,
        told: books.told,
    })
}

/// What books come to, apart from their journal.
#[derive(Drop)]
struct GatheredBooks {
    ledger: Ledger,
    claimed: List<TraceId>,
    collector: Collector,
}

/// What the books come to, apart from their journal. The one error is want of memory.
fn found_in(alloc: Global, books: &Books) -> Result<GatheredBooks, Memory>
    requires { (W : PlainWorkload) × (J : PlainJournal) × AreBooksOf W J books.now }
    ensures entries { IfOk result (λ found. (W : PlainWorkload) (J : PlainJournal) → AreBooksOf W J books.now
        → found.ledger.entries.items ≡ (outcome_of W J).entries) }
    ensures totals { IfOk result (λ found. (W : PlainWorkload) (J : PlainJournal) → AreBooksOf W J books.now
        → found.ledger.totals ≡ totals_of (outcome_of W J).entries) }
    ensures claimed { IfOk result (λ found. (W : PlainWorkload) (J : PlainJournal) → AreBooksOf W J books.now
        → found.claimed.items ≡ (outcome_of W J).claimed) }
    ensures collected { IfOk result (λ found. (W : PlainWorkload) (J : PlainJournal) → AreBooksOf W J books.now
        → AreCollected (outcome_of W J).reported found.collector) }
{
    records_are_few();
    reported_pages_are_pages();
    books_fit();
    reported_pages_can_be_collected();
    let ledger = make_ledger(alloc, &books.clients, &books.agents)?;
    let claimed = claimed_traces(alloc, books.agents.as_slice())?;
    let collector = collected(alloc, books.agents.as_slice())?;
    Ok(GatheredBooks {
        ledger,
        claimed,
        collector,
    })
}

/// The outcome of a run whose books are those of a valid workload and a lawful journal of it
/// (`docs/RULES.md`, "The ledger" and "Reports"). The one error is want of memory.
pub fn gather(alloc: Global, books: Books) -> Result<Outcome, Memory>
    requires { (W : PlainWorkload) × (J : PlainJournal) × AreBooksOf W J books }
    ensures { IfOk result (λ outcome. (W : PlainWorkload) (J : PlainJournal) → AreBooksOf W J books → IsOutcome W J outcome) }
{
    following_plays_out();
    runs_are_of_the_journal();
    journals_have_the_shape();
    let version = books.version;
    let found = found_in(alloc, &books)?;
    let journal = journal(alloc, books)?;
    let GatheredBooks {
        ledger,
        claimed,
        collector,
    } = found;
    Ok(Outcome {
        version,
        journal,
        ledger,
        claimed,
        collector,
    })
}
