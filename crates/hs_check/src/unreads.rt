//! The seventh clause: what is unread could be.

ghost use Rattle.std.specs.Prelude.{◌≡◌, ◌≤◌, ◌<◌, ◌*◌, true, length, IfOk};
ghost use Rattle.std.specs.List.{list_all, list_any};
ghost use Rattle.hs_base.specs.declared.limits.TheConstants.{MAX_CLIENTS};
ghost use Rattle.hs_records.specs.Journals.{journal_of};
ghost use Rattle.hs_law_journal.specs.Ends.{is_followed};
ghost use Rattle.hs_law_journal.specs.Following.{followed, log_at};
ghost use Rattle.hs_law_journal.specs.Passes.{is_unread};
ghost use Rattle.hs_law_journal.specs.Played.{played};
ghost use Rattle.hs_law_journal.specs.Pooled.{by_stamp};
ghost use Rattle.hs_law_journal.specs.Shape.{has_stamps};
ghost use Rattle.hs_law_journal.specs.Unreads.{before_unreads, has_unreads};
ghost use Rattle.hs_records.specs.Validity.{IsValid};
ghost use Rattle.hs_records.specs.Views.{workload_of};
ghost use Rattle.hs_check_follow.specs.Finding.{IsFound};
ghost use Rattle.hs_check_follow.specs.Happening.{drawn_from, node_timed};
ghost use Rattle.hs_check.specs.declared.page_draws.PageDraw.{PageDraw};
ghost use Rattle.hs_check.specs.PageDraws.{all_page_draws};
ghost use Rattle.hs_check.specs.Showing.{may_be_unread};

use crate::page_draws::{PageDraw, draws_in_order};
use crate::shown::Shown;
use hs_base::{Memory, Settings};
use hs_check_follow::{Found, FoundNode, FoundPage, events_of, is_unread, log_of};
use hs_law_agent::laws::{events_add_this, events_go_on, lists_have_their_chunks};
use hs_law_journal::laws::{
    agents_come_by_events, following_plays_out, gives_are_noted, runs_are_of_the_journal,
};
use hs_records::{Journal, Step, Workload};
use std::alloc::Global;

/// Whether each offer that was unread could be: the entry of the pool that it would fill may still hold a draw that its client has
/// not collected. A node without such an offer costs a look over its log. The one error is want of memory.
pub fn has_unreads(
    alloc: Global,
    workload: &Workload,
    journal: &Journal,
    found: &Found,
) -> Result<bool, Memory>
    requires valid { IsValid (workload_of workload.now) }
    requires stamps { has_stamps (played (workload_of workload.now) (journal_of journal.now)) ≡ true }
    requires followed { is_followed (played (workload_of workload.now) (journal_of journal.now)) ≡ true }
    requires found { IsFound (workload_of workload.now).settings (followed (workload_of workload.now) (journal_of journal.now)) found.now }
    ensures { IfOk result (λ yes. yes ≡ has_unreads (played (workload_of workload.now) (journal_of journal.now))) }
{
    following_plays_out();
    runs_are_of_the_journal();
    gives_are_noted();
    agents_come_by_events();
    events_go_on();
    events_add_this();
    lists_have_their_chunks();
    let nodes = found.nodes.as_slice();
    for node in 0..nodes.len() {
        if !node_has_unreads(
            alloc,
            &workload.settings,
            journal,
            node as u16,
            &nodes[node],
        )? {
            return Ok(false);
        }
    }
    Ok(true)
}

/// The same of one node, by its log, its draws and the pages that were given there. Stamps number the events of its pool.
fn node_has_unreads(
    alloc: Global,
    settings: &Settings,
    journal: &Journal,
    node: u16,
    found: &FoundNode,
) -> Result<bool, Memory>
    requires clients { length found.now.clients.items ≤ MAX_CLIENTS }
    requires stride { 0 < settings.now.stride }
    ensures { IfOk result (λ yes.
        let lists = drawn_from (journal_of journal.now) (node * settings.now.clients) found.now.clients.items in
        let log = log_at (journal_of journal.now) node in
        let draws = by_stamp (λ (d : PageDraw). d.stamp) (length (node_timed lists log found.now.gives.items)) (all_page_draws 0 found.now.clients.items lists) in
        yes ≡ list_all (may_be_unread settings.now.buffers settings.now.stride draws found.now.gives.items) (before_unreads log)) }
{
    let log = log_of(journal, node as usize);
    if !has_unread(log) {
        return Ok(true);
    }
    let each = settings.clients;
    let events = events_of(alloc, journal, each, node, found)?;
    let clients = found.clients.as_slice();
    let draws = draws_in_order(alloc, journal, each, node, clients, events.len() as u64)?;
    are_possible(
        alloc,
        settings,
        log,
        found.gives.as_slice(),
        draws.as_slice(),
    )
}

/// Whether one of these steps is an offer that was unread.
fn has_unread(log: &[Step]) -> bool
    ensures { result ≡ list_any is_unread log.now }
{
    log.iter().any(|step| is_unread(*step))
}

/// Whether each unread offer of a log may be unread, where it gives back the buffers of these pages, and these are the draws.
fn are_possible(
    alloc: Global,
    settings: &Settings,
    log: &[Step],
    gives: &[FoundPage],
    draws: &[PageDraw],
) -> Result<bool, Memory>
    requires { 0 < settings.now.stride }
    ensures { IfOk result (λ yes. yes ≡ list_all (may_be_unread settings.now.buffers settings.now.stride draws.now gives.now) (before_unreads log.now)) }
{
    let mut shown = Shown::new(alloc);
    for step in log {
        if is_unread(*step) && !shown.may_be_unread(settings.buffers, settings.stride, draws) {
            return Ok(false);
        }
        shown.note(*step, gives)?;
    }
    Ok(true)
}
