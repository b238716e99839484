//! The first clause: the journal has the shape of the workload.

ghost use Rattle.std.specs.Prelude.{◌≡◌, map, length};
ghost use Rattle.hs_records.specs.Journals.{journal_of};
ghost use Rattle.hs_law_journal.specs.Played.{played};
ghost use Rattle.hs_law_journal.specs.Shape.{has_shape, same_counts};
ghost use Rattle.hs_records.specs.Pages.{pages_of};
ghost use Rattle.hs_records.specs.Validity.{IsValid};
ghost use Rattle.hs_records.specs.Views.{workload_of};

use crate::pages::count_pages;
use hs_records::{Journal, Workload};

/// Whether the journal has the nodes and clients of the workload, a log for each node, and for each client a
/// draw for each of its pages.
pub fn has_shape(workload: &Workload, journal: &Journal) -> bool
    requires { IsValid (workload_of workload.now) }
    ensures { result ≡ has_shape (played (workload_of workload.now) (journal_of journal.now)) }
{
    let settings = &workload.settings;
    journal.nodes == settings.nodes
        && journal.clients == settings.clients
        && journal.logs.len() == settings.nodes as usize
        && have_draws(workload, journal)
}

/// Whether each client has as many draws as pages.
fn have_draws(workload: &Workload, journal: &Journal) -> bool
    requires { IsValid (workload_of workload.now) }
    ensures { result ≡ same_counts (map length (journal_of journal.now).draws)
        (map (λ ops. length (pages_of workload.now.settings.size ops)) (workload_of workload.now).clients) }
{
    let clients = workload.clients.as_slice();
    let draws = journal.draws.as_slice();
    if draws.len() != clients.len() {
        return false;
    }
    for client in 0..clients.len() {
        let pages = count_pages(workload.settings.size, clients[client].as_slice());
        if draws[client].len() != pages {
            return false;
        }
    }
    true
}
