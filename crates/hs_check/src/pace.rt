//! The eleventh clause: agents and coordinator do not fall behind the clients (`docs/RULES.md`, "The lawful journal").

ghost use Rattle.std.specs.Prelude.{◌≡◌, ◌*◌, ◌<◌, ◌≤◌, ◌&&◌, true, length, IfOk};
ghost use Rattle.hs_base.specs.declared.limits.TheConstants.{MAX_CLIENTS};
ghost use Rattle.hs_records.specs.Journals.{journal_of};
ghost use Rattle.hs_law_journal.specs.Ends.{is_followed};
ghost use Rattle.hs_law_journal.specs.Following.{followed, log_at, NodeRun};
ghost use Rattle.hs_law_journal.specs.Pace.{has_pace, gives_in_pace, items_in_pace};
ghost use Rattle.hs_law_journal.specs.Played.{played};
ghost use Rattle.hs_law_journal.specs.Shape.{has_stamps};
ghost use Rattle.hs_records.specs.Validity.{IsValid};
ghost use Rattle.hs_records.specs.Views.{workload_of};
ghost use Rattle.hs_check_follow.specs.Finding.{IsFound, IsFoundNode};
ghost use Rattle.hs_check_follow.specs.Happening.{drawn_from};
ghost use Rattle.hs_check.specs.Besides.{draws_by};

use crate::asks::asks_in_pace;
use crate::gives::gives_in_pace;
use crate::items::items_in_pace;
use hs_base::Memory;
use hs_check_follow::{Found, FoundNode, log_of};
use hs_law_journal::laws::{following_plays_out, runs_are_of_the_journal};
use hs_records::{Journal, Workload};
use std::alloc::Global;

/// Whether agents and coordinator do not fall behind the clients: gives stand beside the draws of their round, and items and asks are
/// taken soon enough. The one error is want of memory.
pub fn has_pace(
    alloc: Global,
    workload: &Workload,
    journal: &Journal,
    found: &Found,
) -> Result<bool, Memory>
    requires valid { IsValid (workload_of workload.now) }
    requires stamps { has_stamps (played (workload_of workload.now) (journal_of journal.now)) ≡ true }
    requires followed { is_followed (played (workload_of workload.now) (journal_of journal.now)) ≡ true }
    requires found { IsFound (workload_of workload.now).settings (followed (workload_of workload.now) (journal_of journal.now)) found.now }
    ensures { IfOk result (λ yes. yes ≡ has_pace (played (workload_of workload.now) (journal_of journal.now))) }
{
    following_plays_out();
    runs_are_of_the_journal();
    let nodes = found.nodes.as_slice();
    for node in 0..nodes.len() {
        if !keeps_pace(alloc, workload, journal, node as u16, &nodes[node])? {
            return Ok(false);
        }
    }
    let asks = asks_in_pace(alloc, workload, journal, found)?;
    Ok(asks)
}

/// Whether the gives of a node stand beside its draws, and its agent takes enough items.
fn keeps_pace(
    alloc: Global,
    workload: &Workload,
    journal: &Journal,
    node: u16,
    found: &FoundNode,
) -> Result<bool, Memory>
    requires valid { IsValid (workload_of workload.now) }
    requires stamps { has_stamps (played (workload_of workload.now) (journal_of journal.now)) ≡ true }
    requires node { node < (workload_of workload.now).settings.nodes }
    requires few { length found.now.clients.items ≤ MAX_CLIENTS }
    ensures { IfOk result (λ yes. (run : NodeRun) → draws_by run.sends ≡ drawn_from (journal_of journal.now) (node * (workload_of workload.now).settings.clients) found.now.clients.items
        → run.state.log ≡ log_at (journal_of journal.now) node → IsFoundNode (workload_of workload.now).settings run found.now
        → yes ≡ (gives_in_pace (workload_of workload.now).settings run && items_in_pace (workload_of workload.now).settings run)) }
{
    if !gives_in_pace(alloc, workload, journal, node, found)? {
        return Ok(false);
    }
    let log = log_of(journal, node as usize);
    let stride = workload.settings.stride as usize;
    let items = items_in_pace(alloc, stride, log, found.clients.as_slice())?;
    Ok(items)
}
