//! The draws and logs of a journal.

ghost use Rattle.std.specs.Prelude.{◌≡◌, count_by};
ghost use Rattle.hs_records.specs.Journals.{journal_of};
ghost use Rattle.hs_law_journal.specs.Following.{log_at};
ghost use Rattle.hs_law_journal.specs.Passes.{is_turn};
ghost use Rattle.hs_client.specs.Sending.{draws_at, place_of};

use hs_records::{Draw, Journal, Step};

/// The steps of a node's agent, none where the journal has no such node.
pub fn log_of(journal: &Journal, node: usize) -> &[Step]
    ensures { result.now ≡ log_at (journal_of journal.now) node }
{
    match journal.logs.get(node) {
        Some(log) => log.as_slice(),
        None => &[],
    }
}

/// The draws of a client of a node, none where the journal has no such client.
pub fn draws_of(journal: &Journal, clients: u16, node: u16, number: u16) -> &[Draw]
    ensures { result.now ≡ draws_at (journal_of journal.now) (place_of clients node number) }
{
    let place = node as usize * clients as usize + number as usize;
    match journal.draws.get(place) {
        Some(draws) => draws.as_slice(),
        None => &[],
    }
}

/// How many turns these steps have.
pub(crate) fn count_turns(log: &[Step]) -> usize
    ensures { result ≡ count_by is_turn log.now }
{
    log.iter()
        .filter(|step| matches!(**step, Step::Turn))
        .count()
}
