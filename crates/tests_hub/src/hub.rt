//! A trace of two nodes from its first message until it is saved; with an open life, and at a limit.

use crate::rows::row;
use hs_base::{Group, GroupId, Laterals, Memory, NodeId, NodeSet, Told, TraceId, TriggerId, Why};
use hs_hub::{Delivered, Hub, HubLimits, MakeFault, OutReason};
use hs_receipts::MessageId;
use hs_wire::{Losses, Standing, Wholeness};
use std::alloc::Global;

/// The page of `docs/FORMATS.md` with one record of one byte: of trace 1, written by client 0 of node 0.
pub(crate) const PAGE: [u8; 43] = [
    0, 0, 0, 0, 0, 0, 0, 0, 0, 0, 0, 0, 0, 0, 0, 1, 0, 0, 0, 0, 0, 0, 0, 0, 0, 0, 0, 0, 0, 1, 0,
    35, 0, 1, 0, 0, 0, 0, 0, 0, 0, 5, 0xaa,
];

pub(crate) const LIMITS: HubLimits = HubLimits {
    nodes: 4,
    groups: 4,
    hold: 4,
    bytes: 100_000,
    standings: 16,
    messages: 64,
    wait: 5,
    tries: 1,
    age: 10,
};

pub(crate) fn made(alloc: Global, limits: HubLimits) -> Result<Hub, Memory> {
    made_so(alloc, true, limits)
}

/// A hub that is fresh, or not.
fn made_so(alloc: Global, is_fresh: bool, limits: HubLimits) -> Result<Hub, Memory> {
    match Hub::make(alloc, 3, is_fresh, limits) {
        Ok(hub) => Ok(hub),
        Err(_) => Err(Memory),
    }
}

/// A message of life 5 of a node.
pub(crate) fn message(node: u16, number: u64) -> MessageId {
    MessageId {
        node,
        epoch: 5,
        number,
    }
}

/// A node tells of group 7 of node 0, whose lead is trace 1, with crumbs to these nodes.
pub(crate) fn tell(hub: &mut Hub, node: u16, number: u64, crumbs: u128, why: Why) -> Delivered {
    let told = Told {
        group: Group {
            id: GroupId { node: 0, number: 7 },
            trigger: TriggerId(1),
            lead: TraceId(1),
        },
        laterals: Laterals::none(),
        crumbs: NodeSet(crumbs),
        why,
    };
    hub.told(message(node, number), &told)
}

/// Node 0 reports the page.
fn report(hub: &mut Hub, number: u64) -> Option<Delivered> {
    hub.reported(message(0, number), 0, 1, &PAGE).ok()
}

/// A node says how whole its part of trace 1 is, since its first segment. Crumbs of node 0 led to node 1.
fn stand(hub: &mut Hub, node: u16, number: u64, wholeness: Wholeness) -> Option<Delivered> {
    stand_so(
        hub,
        node,
        number,
        wholeness,
        0,
        if node == 0 { 2 } else { 0 },
    )
}

/// The same since a horizon. Crumbs led to the nodes of these bits.
fn stand_so(
    hub: &mut Hub,
    node: u16,
    number: u64,
    wholeness: Wholeness,
    horizon: u64,
    crumbs: u128,
) -> Option<Delivered> {
    let standing = Standing {
        trace: TraceId(1),
        group: GroupId { node: 0, number: 7 },
        wholeness,
        open_segments: 0,
        horizon,
        pages: u64::from(node == 0),
        crumbs: NodeSet(crumbs),
        losses: Losses {
            null_pages: 0,
            full_points: 0,
            dry_points: 0,
            long_points: 0,
            refused_crumbs: 0,
            evicted_crumbs: 0,
            forgotten_crumbs: 0,
            evicted_pages: 0,
            abandoned_pages: 0,
        },
    };
    hub.standing(message(node, number), standing).ok()
}

/// Whether the trace that is out is whole.
fn whole(hub: &Hub) -> Option<bool> {
    hub.is_whole().ok()
}

/// How many messages may be acknowledged.
fn named(hub: &mut Hub) -> u32 {
    let mut count = 0u32;
    for _message in 0..100 {
        if hub.next_acknowledged().is_some() {
            count = count.saturating_add(1);
        }
    }
    count
}

/// Node 0 tells of the group with a crumb to node 1, which answers and heard nothing.
fn tell_of(hub: &mut Hub) {
    tell(hub, 0, 1, 2, Why::Fired);
    report(hub, 2);
    tell(hub, 1, 1, 0, Why::Answer);
    stand(hub, 1, 2, Wholeness::UnheardSince);
}

fn told_of(alloc: Global) -> Result<Hub, Memory> {
    let mut hub = made(alloc, LIMITS)?;
    tell_of(&mut hub);
    Ok(hub)
}

/// So many passes go by, then all of it comes, and the trace is given out: whether it is whole.
fn whole_after(hub: &mut Hub, passes: u32) -> Option<bool> {
    for _pass in 0..passes {
        hub.pass();
    }
    tell_of(hub);
    stand(hub, 0, 3, Wholeness::WholeSince);
    hub.take();
    whole(hub)
}

/// Node 1 began life 5 before any pass: it is sure for what comes in the tenth pass.
fn a_young_life(alloc: Global, passes: u32, is_whole: bool) -> Result<bool, Memory> {
    let mut hub = made(alloc, LIMITS)?;
    hub.hear(NodeId(1), 4);
    hub.hear(NodeId(1), 5);
    Ok(whole_after(&mut hub, passes) == Some(is_whole))
}

/// A hub that is not the first hears both lives before any pass.
fn a_later_hub(alloc: Global, passes: u32, is_whole: bool) -> Result<bool, Memory> {
    let mut hub = made_so(alloc, false, LIMITS)?;
    hub.hear(NodeId(0), 5);
    hub.hear(NodeId(1), 5);
    Ok(whole_after(&mut hub, passes) == Some(is_whole))
}

/// It hears of them by the trace's messages.
fn a_later_hub_hears_late(alloc: Global) -> Result<bool, Memory> {
    let mut hub = made_so(alloc, false, LIMITS)?;
    Ok(whole_after(&mut hub, 10) == Some(false))
}

fn limits_are_refused(alloc: Global) -> Result<bool, Memory> {
    let limits = HubLimits { hold: 0, ..LIMITS };
    Ok(matches!(Hub::make(alloc, 3, true, limits), Err(MakeFault::Limits)))
}

/// With node 0's word it is given out, and whole. Five messages are named when it is saved.
fn a_whole_trace(alloc: Global) -> Result<bool, Memory> {
    let mut hub = told_of(alloc)?;
    let before = hub.take();
    stand(&mut hub, 0, 3, Wholeness::WholeSince);
    let taken = (hub.take(), whole(&hub));
    let why = hub.why();
    let early = named(&mut hub);
    let saved = hub.saved();
    Ok(
        (before, taken, early) == (None, (Some(TraceId(1)), Some(true)), 0)
            && (saved, named(&mut hub)) == (Some(TraceId(1)), 5)
            && why == Some(OutReason::Complete),
    )
}

/// Node 1 says unheard since its eightieth segment: it may have forgotten the trace, which is given out, and is not whole. It would be
/// where no crumb of the trace led to node 1, which was asked for another trace of the group.
fn a_node_that_forgot(alloc: Global, crumbs: u128, is_whole: bool) -> Result<bool, Memory> {
    let mut hub = told_of(alloc)?;
    stand_so(&mut hub, 1, 3, Wholeness::UnheardSince, 80, 0);
    stand_so(&mut hub, 0, 3, Wholeness::WholeSince, 80, crumbs);
    let taken = (hub.take(), whole(&hub));
    Ok(taken == (Some(TraceId(1)), Some(is_whole)) && hub.why() == Some(OutReason::Complete))
}

/// Node 1 says unheard since its eightieth segment too, and that a crumb of the trace led to node 0: what came before that crumb may be forgotten.
fn a_node_that_led_on(alloc: Global) -> Result<bool, Memory> {
    let mut hub = told_of(alloc)?;
    stand_so(&mut hub, 1, 3, Wholeness::UnheardSince, 80, 1);
    stand_so(&mut hub, 0, 3, Wholeness::WholeSince, 80, 2);
    Ok((hub.take(), whole(&hub)) == (Some(TraceId(1)), Some(false)))
}

/// Node 0 says that crumbs led to nodes 1 and 2 before it tells of node 2: the trace waits until node 2 answered and said that it heard nothing.
fn a_crumb_that_is_told_late(alloc: Global) -> Result<bool, Memory> {
    let mut hub = told_of(alloc)?;
    stand_so(&mut hub, 0, 4, Wholeness::WholeSince, 0, 6);
    let overtaken = hub.take();
    tell(&mut hub, 0, 3, 4, Why::Late);
    let waits = hub.take();
    tell(&mut hub, 2, 1, 0, Why::Answer);
    let silent = hub.take();
    stand(&mut hub, 2, 2, Wholeness::UnheardSince);
    let taken = (hub.take(), whole(&hub));
    Ok((overtaken, waits, silent) == (None, None, None) && taken == (Some(TraceId(1)), Some(true)))
}

/// Node 0's life is open: the trace is given out after ten passes, and is not whole.
fn an_open_life(alloc: Global) -> Result<bool, Memory> {
    let mut hub = told_of(alloc)?;
    stand(&mut hub, 0, 3, Wholeness::Open);
    for _pass in 0..9 {
        hub.pass();
    }
    let early = hub.take();
    hub.pass();
    let taken = hub.take();
    Ok(
        (early, taken, whole(&hub)) == (None, Some(TraceId(1)), Some(false))
            && hub.why() == Some(OutReason::Aged),
    )
}

/// A page comes twice: it is held once, and neither message is named before it is saved.
fn a_repeat(alloc: Global) -> Result<bool, Memory> {
    let mut hub = told_of(alloc)?;
    let again = report(&mut hub, 9);
    let early = named(&mut hub);
    for _pass in 0..10 {
        hub.pass();
    }
    hub.take();
    report(&mut hub, 10);
    hub.saved();
    Ok((again, early, named(&mut hub)) == (Some(Delivered::Held), 0, 6) && hub.counts().bytes == 0)
}

/// One message may be kept: the second waits until the first was named.
fn at_a_limit(alloc: Global) -> Result<bool, Memory> {
    let limits = HubLimits {
        messages: 1,
        ..LIMITS
    };
    let mut hub = made(alloc, limits)?;
    let first = report(&mut hub, 1);
    let full = report(&mut hub, 2);
    let taken = hub.take();
    let why = hub.why();
    hub.saved();
    let one = named(&mut hub);
    Ok(
        (first, full) == (Some(Delivered::Held), Some(Delivered::Full))
            && (taken, why, one) == (Some(TraceId(1)), Some(OutReason::CutShort), 1)
            && report(&mut hub, 2) == Some(Delivered::Held),
    )
}

/// Node 1 is asked once, and once more in its next life.
fn asks(alloc: Global) -> Result<bool, Memory> {
    let mut hub = made(alloc, LIMITS)?;
    tell(&mut hub, 0, 1, 2, Why::Fired);
    let first = ask(&mut hub);
    let none = ask(&mut hub);
    hub.hear(NodeId(1), 6);
    Ok((first, none, ask(&mut hub)) == (Some(1), None, Some(1)))
}

/// The low byte of the node in the next ask's message (`docs/FORMATS.md`).
fn ask(hub: &mut Hub) -> Option<u8> {
    let mut out = [0; 128];
    match hub.next(&mut out) {
        Ok(Some(_)) => Some(out[19]),
        Ok(None) | Err(_) => None,
    }
}

#[test]
fn a_hub(rt: HostRuntime) {
    let alloc = rt.alloc();
    row(&rt, "limits", limits_are_refused(alloc));
    row(&rt, "whole", a_whole_trace(alloc));
    row(&rt, "open", an_open_life(alloc));
    row(&rt, "forgot", a_node_that_forgot(alloc, 2, false));
    row(&rt, "forgot another", a_node_that_forgot(alloc, 0, true));
    row(&rt, "led on", a_node_that_led_on(alloc));
    row(&rt, "told late", a_crumb_that_is_told_late(alloc));
    row(&rt, "young", a_young_life(alloc, 9, false));
    row(&rt, "of age", a_young_life(alloc, 10, true));
    row(&rt, "later hub", a_later_hub(alloc, 9, false));
    row(&rt, "later hub of age", a_later_hub(alloc, 10, true));
    row(&rt, "late", a_later_hub_hears_late(alloc));
    row(&rt, "repeat", a_repeat(alloc));
    row(&rt, "limit", at_a_limit(alloc));
    row(&rt, "asks", asks(alloc));
}
