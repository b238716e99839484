//! The draws of a node's pool, each with what an unread offer asks of its page.

ghost use Rattle.std.specs.Prelude.{◌≡◌, ◌≤◌, ◌*◌, ◌++◌, length, IfOk, OnOk};
ghost use Rattle.hs_base.specs.declared.limits.TheConstants.{MAX_CLIENTS};
ghost use Rattle.hs_records.specs.Journals.{journal_of};
ghost use Rattle.hs_law_journal.specs.Pooled.{by_stamp};
ghost use Rattle.hs_client.specs.Drawn.{has_buffer};
ghost use Rattle.hs_check_follow.specs.Happening.{drawn_from};
ghost use Rattle.hs_check.specs.declared.page_draws.PageDraw.{PageDraw};
ghost use Rattle.hs_check.specs.PageDraws.{first_stamp, page_draws, all_page_draws};

use hs_base::Memory;
use hs_check_follow::{FoundClient, drawn_of, stamp_of};
use hs_records::{Draw, Journal};
use std::alloc::Global;

/// A page of a node, by the number of its client and its own there.
#[derive(Clone, Copy, PartialEq, Eq, Hash)]
pub(crate) struct NodePage {
    pub(crate) client: usize,
    pub(crate) page: usize,
}

/// A draw for a page.
#[derive(Clone, Copy)]
pub(crate) struct PageDraw {
    pub(crate) page: NodePage,
    pub(crate) stamp: u64,
    /// Whether it got a buffer.
    pub(crate) got: bool,
    /// The stamp of the client's next draw.
    pub(crate) next: Option<u64>,
    /// The operation that starts the page.
    pub(crate) started: usize,
}

/// Whether a draw got a buffer.
fn has_buffer(draw: Draw) -> bool
    ensures { result ≡ has_buffer draw }
{
    matches!(draw, Draw::Got { .. })
}

/// The stamp of the first of these draws.
fn first_stamp(draws: &[Draw]) -> Option<u64>
    ensures { result ≡ first_stamp draws.now }
{
    match draws {
        [] => None,
        [first, ..] => Some(stamp_of(*first)),
    }
}

/// Appends the draws of a client, for the pages that these operations start.
fn push_client(
    all: &mut Vec<PageDraw>,
    client: usize,
    started: &[usize],
    draws: &[Draw],
) -> Result<(), Memory>
    requires { length draws.now ≤ length started.now }
    ensures { OnOk result (all.new.items ≡ all.old.items ++ page_draws client 0 started.now draws.now) }
{
    for page in 0..draws.len() {
        all.push(PageDraw {
            page: NodePage { client, page },
            stamp: stamp_of(draws[page]),
            got: has_buffer(draws[page]),
            next: first_stamp(&draws[page + 1..]),
            started: started[page],
        })?;
    }
    Ok(())
}

/// Puts draws in the order of their stamps, and leaves out those whose stamp is no number below a bound.
fn put_in_order(draws: &mut Vec<PageDraw>, bound: u64) -> Result<(), Memory>
    ensures { OnOk result (draws.new.items ≡ by_stamp (λ (d : PageDraw). d.stamp) bound draws.old.items) }
{
    draws.sort_by_key(|draw| draw.stamp)?;
    draws.retain(|draw| draw.stamp < bound);
    Ok(())
}

/// The draws of a node's clients with stamps below a bound, in the order of stamps.
pub(crate) fn draws_in_order(
    alloc: Global,
    journal: &Journal,
    each: u16,
    node: u16,
    clients: &[FoundClient],
    bound: u64,
) -> Result<Vec<PageDraw>, Memory>
    requires { length clients.now ≤ MAX_CLIENTS }
    ensures { IfOk result (λ draws. draws.items
        ≡ by_stamp (λ (d : PageDraw). d.stamp) bound (all_page_draws 0 clients.now (drawn_from (journal_of journal.now) (node * each) clients.now))) }
{
    let mut draws = Vec::new(alloc);
    for number in 0..clients.len() {
        let found = &clients[number];
        push_client(
            &mut draws,
            number,
            found.started.as_slice(),
            drawn_of(journal, each, node, number as u16, found),
        )?;
    }
    put_in_order(&mut draws, bound)?;
    Ok(draws)
}
