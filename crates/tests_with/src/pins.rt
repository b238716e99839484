//! Pins that are ready for the next call: the trigger ids 1 and 2 are declared, and what a call asks is looked up first.

ghost use Rattle.std.specs.Prelude.{◌≡◌, ◌+◌, ◌<◌, ◌≤◌, [], ◌∷◌, IfOk, Some, option_map};
ghost use Rattle.hs_words.specs.Chunks.{header_in};
ghost use Rattle.hs_pins.specs.PinsLayout.{Remembers};
ghost use Rattle.tests_with.specs.Claims.{IsReady, rule, start, two_rules};

use hs_base::limits::MIN_SIZE;
use hs_base::{
    ClientId, Group, GroupId, Laterals, List, Memory, NodeId, NodeSet, Settings, TraceId,
    TriggerId, TriggerRule,
};
use hs_pins::{Dropped, Pins, Taken2};
use hs_words::{Header, Held, Stock};
use std::alloc::Global;

/// The trace that rows claim.
pub const CLAIMED: TraceId = TraceId(7);

/// A rule of one token at one token a second.
pub fn one_a_second(id: u8) -> TriggerRule
    ensures { result ≡ rule id }
{
    TriggerRule {
        id: TriggerId(id),
        weight: 1,
        burst: 1,
        rate: 1,
    }
}

/// The trigger ids 1 and 2, each of one token at one token a second.
pub fn both_rules(alloc: Global) -> Result<List<TriggerRule>, Memory>
    ensures { IfOk result (λ rules. rules.items ≡ two_rules) }
{
    let mut rules = List::with_room(alloc, 2)?;
    rules.push(one_a_second(1));
    rules.push(one_a_second(2));
    Ok(rules)
}

/// Pins among which so many chunks may stay.
pub fn fresh_pins(alloc: Global, most: u32) -> Result<Pins<()>, Memory>
    ensures start { IfOk result (λ pins. Remembers pins (start most)) }
    ensures ready { IfOk result (λ pins. IsReady 0 pins) }
{
    let settings = Settings {
        nodes: 1,
        clients: 1,
        buffers: 4,
        size: MIN_SIZE,
        threshold: 4,
        traces: 8,
        pins: most,
        stride: 16,
        triggers: both_rules(alloc)?,
        autos: List::new(alloc),
    };
    Pins::make(alloc, NodeId(0), &settings)
}

/// A chunk with a page of the trace, on which nothing stands yet.
pub fn page_of(alloc: Global, trace: TraceId, page: u32) -> Result<Held<()>, Memory>
    ensures { IfOk result (λ held. option_map (λ header. header.trace) (header_in held.chunk) ≡ Some trace) }
{
    let mut chunks = Stock::make(alloc, 1, MIN_SIZE)?;
    match chunks.pop() {
        Some(mut chunk) => {
            chunk.clear();
            chunk.start(Header {
                trace,
                client: ClientId { node: 0, number: 0 },
                page,
                first: page,
            });
            Ok(Held { chunk, lease: () })
        }
        None => Err(Memory),
    }
}

/// The first chunks of a trace.
pub fn pages_of(alloc: Global, trace: TraceId, count: u32) -> Result<List<Held<()>>, Memory> {
    let mut held = List::new(alloc);
    for number in 0..count {
        held.append(page_of(alloc, trace, number)?)?;
    }
    Ok(held)
}

/// A group of this number, by its node, with its trigger id and lead.
pub fn group_of(node: u16, number: u32, trigger: u8, lead: u128) -> Group
    ensures { result.trigger.0 ≡ trigger }
{
    Group {
        id: GroupId { node, number },
        trigger: TriggerId(trigger),
        lead: TraceId(lead),
    }
}

/// Claims a trace with these chunks and no crumb, and says whether it is claimed then.
pub fn claims(pins: &mut Pins<()>, group: Group, trace: TraceId, held: List<Held<()>>) -> bool
    requires ready { IsReady 0 pins.old }
    requires low { 1 ≤ group.trigger.0 }
    requires high { group.trigger.0 ≤ 2 }
    ensures { IsReady 0 pins.new }
{
    if pins.owner(trace).is_some() {
        return false;
    }
    if 1_000_000 < pins.chunks() || 1_000_000 < held.len() {
        return false;
    }
    let taken = Taken2 {
        held,
        crumbs: NodeSet::none(),
    };
    match pins.claim(group, Laterals::none(), trace, taken) {
        Ok(()) => true,
        Err(_) => false,
    }
}

/// Whether a chunk of a claimed trace is pinned.
pub fn arrives(pins: &mut Pins<()>, held: Held<()>) -> bool
    requires { IsReady 0 pins.old }
    ensures { IsReady 0 pins.new }
{
    let Some(header) = held.chunk.header() else {
        return false;
    };
    if pins.owner(header.trace).is_none() || 1_000_000 < pins.chunks() {
        return false;
    }
    match pins.arrive(held) {
        Ok(back) => back.is_none(),
        Err(_) => false,
    }
}

/// Lets go what is over.
pub fn lets_go(pins: &mut Pins<()>) -> Result<List<Dropped<()>>, Memory>
    requires { IsReady 0 pins.old }
    ensures { IsReady 0 pins.new }
{
    pins.abandon()
}

/// Whether a chunk at a place was dropped with this group.
pub fn went(dropped: &List<Dropped<()>>, place: usize, group: Group) -> bool {
    match dropped.get(place) {
        Some(dropped) => dropped.group == group,
        None => false,
    }
}

/// Claims a trace of the group with so many chunks.
pub fn claims_pages(
    alloc: Global,
    pins: &mut Pins<()>,
    group: Group,
    trace: u128,
    count: u32,
) -> Result<bool, Memory>
    requires ready { IsReady 0 pins.old }
    requires low { 1 ≤ group.trigger.0 }
    requires high { group.trigger.0 ≤ 2 }
    ensures { IsReady 0 pins.new }
{
    let trace = TraceId(trace);
    let held = pages_of(alloc, trace, count)?;
    Ok(claims(pins, group, trace, held))
}
