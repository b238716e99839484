//! The ledger of a run.

ghost use Rattle.std.specs.Prelude.{◌≡◌, ◌+◌, ◌<◌, length, IfOk, OnErr, map, sum_by};
ghost use Rattle.hs_records.specs.Books.{client_book_of, agent_book_of};
ghost use Rattle.hs_ledger.specs.Books.{BooksFit, record_count};
ghost use Rattle.hs_ledger.specs.Fates.{entries_of};
ghost use Rattle.hs_ledger.specs.Totals.{totals_of, parts_of};

use crate::book::add_book;
use crate::ledger::{Ledger, Totals};
use crate::standings::page_fates;
use hs_base::{List, Memory};
use hs_records::{AgentBook, ClientBook};
use std::alloc::Global;

/// The number behind that of a client's last record.
fn next_number(book: &ClientBook) -> usize {
    match book.pages.as_slice().last() {
        Some(note) => note.first as usize + note.count as usize,
        None => 0,
    }
}

/// How many records these clients have.
fn record_total(clients: &List<ClientBook>) -> usize
    ensures { length clients.now.items ≡ 0 → result ≡ 0 }
{
    let mut count: usize = 0;
    for book in clients.as_slice() {
        count = count.saturating_add(next_number(book));
    }
    count
}

/// The ledger of a run whose books fit: one entry for each record, sorted by node, then client, then
/// number, with the fate of its first discarded piece, or else of its first piece, and totals that
/// count the entries (`docs/RULES.md`, "The ledger"). The one error is want of memory; no books take none.
pub fn make_ledger(
    alloc: Global,
    clients: &List<ClientBook>,
    agents: &List<AgentBook>,
) -> Result<Ledger, Memory>
    requires { BooksFit (map client_book_of clients.now.items) (map agent_book_of agents.now.items) }
    ensures entries { IfOk result (λ ledger. ledger.entries.items ≡ entries_of (map client_book_of clients.now.items) (map agent_book_of agents.now.items)) }
    ensures totals { IfOk result (λ ledger. ledger.totals ≡ totals_of (entries_of (map client_book_of clients.now.items) (map agent_book_of agents.now.items))) }
    ensures records { IfOk result (λ ledger. ledger.totals.records ≡ sum_by (λ book. record_count book.pages) (map client_book_of clients.now.items)) }
    ensures some { OnErr result (0 < length clients.now.items + length agents.now.items) }
    ensures parts { IfOk result (λ ledger. parts_of ledger.totals ≡ ledger.totals.records) }
{
    let fates = page_fates(alloc, agents.as_slice())?;
    let mut entries = Vec::with_capacity(alloc, record_total(clients))?;
    for book in clients.as_slice() {
        add_book(&mut entries, &fates, book)?;
    }
    let totals = Totals::of(entries.as_slice());
    Ok(Ledger {
        entries: List::from_vec(entries),
        totals,
    })
}
