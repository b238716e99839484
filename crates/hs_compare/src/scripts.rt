//! The scripts of all clients.

ghost use Rattle.std.specs.Prelude.{◌<◌, length, IfOk};
ghost use Rattle.hs_records.specs.Journals.{journal_of};
ghost use Rattle.hs_law_outcome.specs.Outcomes.{client_at};
ghost use Rattle.hs_client.specs.Sending.{operations_at};
ghost use Rattle.hs_records.specs.Views.{workload_of};
ghost use Rattle.hs_compare.specs.Scripts.{IsClientScript};
ghost use Rattle.hs_compare.specs.Beginning.{AreScripts};
ghost use Rattle.hs_check_follow.specs.Asking.{MayBegin};

use crate::client::client_script;
use crate::places::client_at;
use crate::script::Script;
use hs_base::{List, Memory};
use hs_client::sending_laws::valid_clients_may_be_played;
use hs_records::{Journal, Workload};
use std::alloc::Global;

/// The script of the client at a place.
fn place_script(
    alloc: Global,
    workload: &Workload,
    journal: &Journal,
    place: usize,
) -> Result<Script, Memory>
    requires may { MayBegin (workload_of workload.now) (journal_of journal.now) }
    requires low { place < length workload.now.clients.items }
    ensures { IfOk result (IsClientScript (workload_of workload.now).settings.autos (client_at workload.now.settings.clients place) (operations_at (workload_of workload.now) place)) }
{
    valid_clients_may_be_played();
    let settings = &workload.settings;
    let client = client_at(settings.clients, place);
    let operations = workload.clients.as_slice()[place].as_slice();
    let draws = journal.draws.as_slice()[place].as_slice();
    client_script(alloc, client, settings, operations, draws)
}

/// The script of each client of a valid workload, with a journal of its shape, in the order of node and number.
pub(crate) fn scripts_of(
    alloc: Global,
    workload: &Workload,
    journal: &Journal,
) -> Result<List<Script>, Memory>
    requires { MayBegin (workload_of workload.now) (journal_of journal.now) }
    ensures { IfOk result (λ scripts. AreScripts (workload_of workload.now) scripts.items) }
{
    let mut scripts = List::new(alloc);
    for place in 0..workload.clients.len() {
        scripts.append(place_script(alloc, workload, journal, place)?)?;
    }
    Ok(scripts)
}
