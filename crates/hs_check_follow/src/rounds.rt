//! The ninth clause: there are passes enough, and everywhere as many.

ghost use Rattle.std.specs.Prelude.{◌≡◌, ◌*◌, ◌^◌, ◌<◌, count_by};
ghost use Rattle.std.specs.List.{range_with_len, list_all};
ghost use Rattle.hs_records.specs.Journals.{journal_of};
ghost use Rattle.hs_law_journal.specs.Ends.{has_rounds, rounds_of};
ghost use Rattle.hs_law_journal.specs.Following.{log_at};
ghost use Rattle.hs_law_journal.specs.Passes.{is_turn};
ghost use Rattle.hs_law_journal.specs.Played.{played};
ghost use Rattle.hs_records.specs.Validity.{IsValid};
ghost use Rattle.hs_records.specs.Views.{workload_of};
ghost use Rattle.hs_check_follow.specs.Rounds.{are_enough};

use crate::counting::{count_turns, log_of};
use hs_records::{Journal, Workload};

/// Whether all agents made as many passes, and at least as many as the workload has rounds.
pub fn has_rounds(workload: &Workload, journal: &Journal) -> bool
    requires { IsValid (workload_of workload.now) }
    ensures { result ≡ has_rounds (played (workload_of workload.now) (journal_of journal.now)) }
{
    let first = count_turns(log_of(journal, 0));
    make_enough(
        journal,
        workload.settings.nodes,
        first,
        count_rounds(workload),
    )
}

/// Whether so many agents made as many passes as the first one, and at least as many as there are rounds.
fn make_enough(journal: &Journal, nodes: u16, first: usize, rounds: usize) -> bool
    ensures { result ≡ list_all (λ node. are_enough (count_by is_turn (log_at (journal_of journal.now) node)) first rounds) (range_with_len 0 nodes) }
{
    for node in 0..nodes {
        if !are_enough(count_turns(log_of(journal, node as usize)), first, rounds) {
            return false;
        }
    }
    true
}

/// Whether an agent made as many passes as the first one, and at least as many as there are rounds.
fn are_enough(turns: usize, first: usize, rounds: usize) -> bool
    ensures { result ≡ are_enough turns first rounds }
{
    turns == first && rounds <= turns
}

/// How many rounds the clients of a workload take. The operations of so many rounds are a number that fits 64 bits.
pub fn count_rounds(workload: &Workload) -> usize
    requires { IsValid (workload_of workload.now) }
    ensures rounds { result ≡ rounds_of (workload_of workload.now) }
    ensures fits { result * workload.now.settings.stride < 2 ^ 64 }
{
    let stride = workload.settings.stride as usize;
    let mut rounds = 0;
    for operations in workload.clients.as_slice() {
        rounds = rounds.max((operations.len() + (stride - 1)) / stride);
    }
    rounds
}
