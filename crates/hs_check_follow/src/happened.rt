//! What happened at the pool of a node.

ghost use Rattle.std.specs.Prelude.{◌≡◌, ◌*◌, ◌≤◌, ◌++◌, length, map, take, filter_map, OnOk, IfOk};
ghost use Rattle.std.specs.List.{flat_map};
ghost use Rattle.std.specs.Option.{option_to_list};
ghost use Rattle.hs_base.specs.declared.limits.TheConstants.{MAX_CLIENTS};
ghost use Rattle.hs_records.specs.Journals.{journal_of};
ghost use Rattle.hs_law_journal.specs.Following.{log_at};
ghost use Rattle.hs_client.specs.Sending.{draws_at, place_of};
ghost use Rattle.hs_check_follow.specs.Happening.{timed_draw, timed_miss, timed_give, timed_gives, node_timed, drawn_from, draw_at};

use crate::counting::{draws_of, log_of};
use crate::found::{FoundClient, FoundNode, FoundPage};
use hs_base::Memory;
use hs_records::{Draw, Journal, Step};
use std::alloc::Global;

/// An event of a pool. A buffer is named by its number.
#[derive(Clone, Copy)]
pub enum NotedEvent {
    Got { buffer: u32 },
    Empty,
    /// The draw that had got the buffer had the stamp `drawn`.
    Given { buffer: u32, drawn: u64 },
    Missed,
}

/// An event with its stamp.
#[derive(Clone, Copy)]
pub struct StampedEvent {
    pub stamp: u64,
    pub event: NotedEvent,
}

/// A draw as an event.
fn drawn(draw: Draw) -> StampedEvent
    ensures { result ≡ timed_draw draw }
{
    match draw {
        Draw::Got { buffer, stamp } => StampedEvent {
            stamp,
            event: NotedEvent::Got { buffer },
        },
        Draw::Empty { stamp } => StampedEvent {
            stamp,
            event: NotedEvent::Empty,
        },
    }
}

/// Appends the events of the draws.
fn push_drawn(events: &mut Vec<StampedEvent>, draws: &[Draw]) -> Result<(), Memory>
    ensures { OnOk result (events.new.items ≡ events.old.items ++ map timed_draw draws.now) }
{
    for draw in draws {
        events.push(drawn(*draw))?;
    }
    Ok(())
}

/// Appends the events of the misses among these steps.
fn push_missed(events: &mut Vec<StampedEvent>, log: &[Step]) -> Result<(), Memory>
    ensures { OnOk result (events.new.items ≡ events.old.items ++ filter_map timed_miss log.now) }
{
    for step in log {
        if let Step::Missed { stamp } = *step {
            events.push(StampedEvent {
                stamp,
                event: NotedEvent::Missed,
            })?;
        }
    }
    Ok(())
}

/// The draws for the pages that a client of a node started.
pub fn drawn_of<'a>(
    journal: &'a Journal,
    each: u16,
    node: u16,
    number: u16,
    found: &FoundClient,
) -> &'a [Draw]
    ensures { result.now ≡ take (length found.now.started.items) (draws_at (journal_of journal.now) (place_of each node number)) }
{
    let draws = draws_of(journal, each, node, number);
    let count = found.started.len().min(draws.len());
    &draws[..count]
}

/// The draw for a page of a node, if there is such a page.
pub(crate) fn draw_of(
    journal: &Journal,
    each: u16,
    node: u16,
    clients: &[FoundClient],
    page: FoundPage,
) -> Option<Draw>
    ensures { result ≡ draw_at (drawn_from (journal_of journal.now) (node * each) clients.now) page }
{
    let number = page.client as usize;
    let place = page.page as usize;
    if number >= clients.len() {
        return None;
    }
    let draws = drawn_of(journal, each, node, page.client, &clients[number]);
    if place >= draws.len() {
        return None;
    }
    Some(draws[place])
}

/// Appends the event of a give of the buffer that a page was in, which had this draw.
fn push_give(events: &mut Vec<StampedEvent>, stamp: u64, draw: Option<Draw>) -> Result<(), Memory>
    ensures { OnOk result (events.new.items ≡ events.old.items ++ option_to_list (timed_give stamp draw)) }
{
    if let Some(
        Draw::Got {
            buffer,
            stamp: drawn,
        },
    ) = draw
    {
        events.push(StampedEvent {
            stamp,
            event: NotedEvent::Given { buffer, drawn },
        })?;
    }
    Ok(())
}

/// Appends the events of the gives among these steps, each of which gives the buffer that the next of these pages was in.
fn push_given(
    events: &mut Vec<StampedEvent>,
    journal: &Journal,
    each: u16,
    node: u16,
    log: &[Step],
    found: &FoundNode,
) -> Result<(), Memory>
    ensures { OnOk result (events.new.items ≡ events.old.items
        ++ timed_gives (drawn_from (journal_of journal.now) (node * each) found.now.clients.items) log.now found.now.gives.items) }
{
    let clients = found.clients.as_slice();
    let gives = found.gives.as_slice();
    let mut given = 0;
    for step in log {
        if let Step::Given { stamp } = *step {
            if given == gives.len() {
                return Ok(());
            }
            push_give(
                events,
                stamp,
                draw_of(journal, each, node, clients, gives[given]),
            )?;
            given += 1;
        }
    }
    Ok(())
}

/// Appends the events of all draws of a node.
fn push_all_drawn(
    events: &mut Vec<StampedEvent>,
    journal: &Journal,
    each: u16,
    node: u16,
    clients: &[FoundClient],
) -> Result<(), Memory>
    requires { length clients.now ≤ MAX_CLIENTS }
    ensures { OnOk result (events.new.items ≡ events.old.items
        ++ flat_map (map timed_draw) (drawn_from (journal_of journal.now) (node * each) clients.now)) }
{
    for number in 0..clients.len() {
        push_drawn(
            events,
            drawn_of(journal, each, node, number as u16, &clients[number]),
        )?;
    }
    Ok(())
}

/// The events of a node's pool.
pub fn events_of(
    alloc: Global,
    journal: &Journal,
    each: u16,
    node: u16,
    found: &FoundNode,
) -> Result<Vec<StampedEvent>, Memory>
    requires { length found.now.clients.items ≤ MAX_CLIENTS }
    ensures { IfOk result (λ events. events.items
        ≡ node_timed (drawn_from (journal_of journal.now) (node * each) found.now.clients.items) (log_at (journal_of journal.now) node) found.now.gives.items) }
{
    let log = log_of(journal, node as usize);
    let mut events = Vec::new(alloc);
    push_all_drawn(&mut events, journal, each, node, found.clients.as_slice())?;
    push_given(&mut events, journal, each, node, log, found)?;
    push_missed(&mut events, log)?;
    Ok(events)
}
