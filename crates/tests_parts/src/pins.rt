//! The pins: who gives way among equals, and as many traces, chunks and rules as may be. What else is admitted, claimed and pinned is
//! shown by `examples/` and `cases/agents`.

ghost use Rattle.std.specs.Prelude.{◌+◌, ◌<◌, ◌≤◌, IfOk};
ghost use Rattle.hs_base.specs.Rules.{AreRules};
ghost use Rattle.tests_with.specs.Claims.{IsReady};

use crate::rows::row;
use hs_base::limits::{
    MAX_BUFFERS, MAX_PINS, MAX_SIZE, MAX_STRIDE, MAX_THRESHOLD, MAX_TRACES, MAX_TRIGGER,
};
use hs_base::{Group, List, Memory, NodeId, Settings, TraceId, TriggerId};
use hs_pins::{Admitted, Attempt, Bucket, Dropped, Pins};
use std::alloc::Global;
use tests_with::{
    CLAIMED, arrives, claims, claims_pages, fresh_pins, greatest_rules, group_of, lets_go, page_of,
    pages_of, went,
};

/// The lead of least rank of all that are named here; that of 0 is greater.
const TWICE_G: u128 = 0x3c6e_f372_fe94_f82a;

/// The longest time at the highest rate flows in without a wrap.
fn the_longest_time_fills_the_bucket() -> bool {
    let mut bucket = Bucket::make(1000, 1_000_000);
    bucket.attempt(0) == Attempt::Admitted && bucket.attempt(u64::MAX) == Attempt::Admitted
}

/// A trigger of the id 1, after so many at most.
fn admits(pins: &mut Pins<()>, moment: u64, earlier: u32) -> Admitted
    requires ready { IsReady earlier pins.old }
    requires few { earlier < 1000000 }
    ensures { IsReady (earlier + 1) pins.new }
{
    pins.admit(TriggerId(1), moment)
}

/// Admits at the moments 0, 999,999, 1,000,000 and 500,000.
fn admits_all(pins: &mut Pins<()>) -> [Admitted; 4]
    requires { IsReady 0 pins.old }
{
    [
        admits(pins, 0, 0),
        admits(pins, 999_999, 1),
        admits(pins, 1_000_000, 2),
        admits(pins, 500_000, 3),
    ]
}

/// A token flows in a second; what is refused counts nothing, and a moment that is past brings nothing.
const ONE_A_SECOND: [Admitted; 4] = [
    Admitted::Admitted { number: 0 },
    Admitted::Limited { level: 999_999 },
    Admitted::Admitted { number: 1 },
    Admitted::Limited { level: 0 },
];

fn one_token_a_second(alloc: Global) -> Result<bool, Memory> {
    let mut pins = fresh_pins(alloc, 4)?;
    Ok(admits_all(&mut pins) == ONE_A_SECOND)
}

/// Lets go what is over. Answers whether one chunk goes, of this group.
fn lets_one_go(pins: &mut Pins<()>, group: Group) -> Result<bool, Memory>
    requires { IsReady 0 pins.old }
    ensures { IsReady 0 pins.new }
{
    let dropped = lets_go(pins)?;
    Ok(dropped.len() == 1 && went(&dropped, 0, group))
}

/// Claims a chunk for a group of the id 2, and one for a group of the id 1. Lets go what is over. Answers whether the smaller id gives
/// way.
fn abandons_smaller(alloc: Global, pins: &mut Pins<()>) -> Result<bool, Memory>
    requires { IsReady 0 pins.old }
{
    let smaller = group_of(0, 1, 1, 0);
    let claimed = claims_pages(alloc, pins, group_of(0, 0, 2, TWICE_G), 1, 1)?
        && claims_pages(alloc, pins, smaller, 2, 1)?;
    Ok(lets_one_go(pins, smaller)? && claimed)
}

/// The chunks of two ids are as many: the smaller id gives way, though its group has the greater rank.
fn the_smaller_of_equal_ids_gives_way(alloc: Global) -> Result<bool, Memory> {
    let mut pins = fresh_pins(alloc, 1)?;
    abandons_smaller(alloc, &mut pins)
}

/// Claims a chunk for each of three groups of one lead.
fn claims_equals(alloc: Global, pins: &mut Pins<()>) -> Result<bool, Memory>
    requires { IsReady 0 pins.old }
    ensures { IsReady 0 pins.new }
{
    Ok(
        claims_pages(alloc, pins, group_of(1, 0, 1, 0), 1, 1)?
            && claims_pages(alloc, pins, group_of(0, 9, 1, 0), 2, 1)?
            && claims_pages(alloc, pins, group_of(0, 3, 1, 0), 3, 1)?,
    )
}

/// Whether the chunks of these groups are dropped in order: by number at node 0, and then that of node 1.
fn went_in_order(dropped: &List<Dropped<()>>) -> bool {
    went(dropped, 0, group_of(0, 3, 1, 0))
        && went(dropped, 1, group_of(0, 9, 1, 0))
        && went(dropped, 2, group_of(1, 0, 1, 0))
}

/// Groups of equal leads go by node, and at one node by number; with no pins all of them.
fn equal_leads_go_by_node_and_number(alloc: Global) -> Result<bool, Memory> {
    let mut pins = fresh_pins(alloc, 0)?;
    let claimed = claims_equals(alloc, &mut pins)?;
    let dropped = lets_go(&mut pins)?;
    Ok(claimed && went_in_order(&dropped) && pins.chunks() == 0)
}

/// Claims as many traces without a chunk as may be. Answers how many are claimed.
fn claims_traces(alloc: Global, pins: &mut Pins<()>) -> u32
    requires { IsReady 0 pins.old }
    ensures { IsReady 0 pins.new }
{
    let mut claimed = 0u32;
    for number in 0..MAX_TRACES {
        let trace = TraceId(8 + u128::from(number));
        if claims(pins, group_of(0, number, 1, 8), trace, List::new(alloc)) {
            claimed = claimed.wrapping_add(1);
        }
    }
    claimed
}

/// Claims a trace with as many chunks as may be. Answers whether it is claimed.
fn claims_chunks(alloc: Global, pins: &mut Pins<()>) -> Result<bool, Memory>
    requires { IsReady 0 pins.old }
    ensures { IsReady 0 pins.new }
{
    let held = pages_of(alloc, CLAIMED, MAX_PINS)?;
    Ok(claims(pins, group_of(0, MAX_TRACES, 1, 7), CLAIMED, held))
}

/// As many chunks of that trace come. Answers how many are pinned.
fn arrives_all(alloc: Global, pins: &mut Pins<()>) -> Result<u32, Memory>
    requires { IsReady 0 pins.old }
    ensures { IsReady 0 pins.new }
{
    let mut pinned = 0u32;
    for number in 0..MAX_PINS {
        if arrives(pins, page_of(alloc, CLAIMED, number)?) {
            pinned = pinned.wrapping_add(1);
        }
    }
    Ok(pinned)
}

/// Whether there are so many chunks, and all of them go.
fn abandons_all(pins: &mut Pins<()>, count: u32) -> Result<bool, Memory>
    requires { IsReady 0 pins.old }
{
    let before = pins.chunks();
    let dropped = lets_go(pins)?.len();
    Ok(before == count && dropped == count as usize && pins.chunks() == 0)
}

/// 65,536 traces without a chunk, and one with 1,024, to which as many come later: all of these go.
fn claims_most(alloc: Global, pins: &mut Pins<()>) -> Result<bool, Memory>
    requires { IsReady 0 pins.old }
{
    Ok(
        claims_traces(alloc, pins) == MAX_TRACES
            && claims_chunks(alloc, pins)?
            && arrives_all(alloc, pins)? == MAX_PINS
            && abandons_all(pins, 2 * MAX_PINS)?,
    )
}

/// The same at pins of which as many chunks may stay as may be.
fn most_traces_and_chunks_are_claimed(alloc: Global) -> Result<bool, Memory> {
    let mut pins = fresh_pins(alloc, MAX_PINS)?;
    claims_most(alloc, &mut pins)
}

/// The number of no group here.
const NOBODY: u32 = u32::MAX;

/// The number of the group that claimed a trace.
fn owner_of(pins: &Pins<()>, trace: u128) -> u32 {
    match pins.owner(TraceId(trace)) {
        Some(group) => group.id.number,
        None => NOBODY,
    }
}

/// Those of the traces 1 to 5.
fn owners(pins: &Pins<()>) -> [u32; 5] {
    [
        owner_of(pins, 1),
        owner_of(pins, 2),
        owner_of(pins, 3),
        owner_of(pins, 4),
        owner_of(pins, 5),
    ]
}

/// Claims a trace without a chunk for the group of a number.
fn claims_bare(alloc: Global, pins: &mut Pins<()>, number: u32, trace: u128) -> bool
    requires { IsReady 0 pins.old }
    ensures { IsReady 0 pins.new }
{
    let group = group_of(0, number, 1, u128::from(number));
    claims(pins, group, TraceId(trace), List::new(alloc))
}

/// Forgets the group of a number, if nothing is pinned for it. Answers whether it did.
fn forgets(pins: &mut Pins<()>, number: u32) -> bool
    requires { IsReady 0 pins.old }
    ensures { IsReady 0 pins.new }
{
    pins.forget(group_of(0, number, 1, u128::from(number)))
}

/// The groups 0, 1, 2, 1 and 3 claim the traces 1 to 5, one each.
fn claims_in_turn(alloc: Global, pins: &mut Pins<()>) -> bool
    requires { IsReady 0 pins.old }
    ensures { IsReady 0 pins.new }
{
    claims_bare(alloc, pins, 0, 1)
        && claims_bare(alloc, pins, 1, 2)
        && claims_bare(alloc, pins, 2, 3)
        && claims_bare(alloc, pins, 1, 4)
        && claims_bare(alloc, pins, 3, 5)
}

/// Forgets the group 1. Answers whether it did, and its traces alone are free then.
fn forgets_the_middle(pins: &mut Pins<()>) -> bool
    requires { IsReady 0 pins.old }
    ensures { IsReady 0 pins.new }
{
    forgets(pins, 1) && owners(pins) == [0, NOBODY, 2, NOBODY, 3]
}

/// A group that claimed in the middle, twice, is forgotten. Then the group 4 claims its first trace, and the others have theirs.
fn forgets_and_claims(alloc: Global, pins: &mut Pins<()>) -> bool
    requires { IsReady 0 pins.old }
    ensures { IsReady 0 pins.new }
{
    claims_in_turn(alloc, pins)
        && forgets_the_middle(pins)
        && claims_bare(alloc, pins, 4, 2)
        && owners(pins) == [0, 4, 2, NOBODY, 3]
}

/// A group with a pinned chunk is not forgotten.
fn keeps_the_pinned(alloc: Global, pins: &mut Pins<()>) -> Result<bool, Memory>
    requires { IsReady 0 pins.old }
{
    let pinned = claims_pages(alloc, pins, group_of(0, 7, 1, 7), 8, 1)?;
    Ok(pinned && !forgets(pins, 7) && owner_of(pins, 8) == 7)
}

fn only_a_settled_group_is_forgotten(alloc: Global) -> Result<bool, Memory> {
    let mut pins = fresh_pins(alloc, 4)?;
    let forgot = forgets_and_claims(alloc, &mut pins);
    Ok(keeps_the_pinned(alloc, &mut pins)? && forgot)
}

/// Settings of one client with so many of the greatest rules.
fn settings_of(alloc: Global, count: u8) -> Result<Settings, Memory>
    requires { count ≤ MAX_TRIGGER }
    ensures { IfOk result (λ settings. AreRules settings.triggers.items) }
{
    Ok(Settings {
        nodes: 1,
        clients: 1,
        buffers: MAX_BUFFERS,
        size: MAX_SIZE,
        threshold: MAX_THRESHOLD,
        traces: MAX_TRACES,
        pins: MAX_PINS,
        stride: MAX_STRIDE,
        triggers: greatest_rules(alloc, count)?,
        autos: List::new(alloc),
    })
}

/// Pins of such settings.
fn greatest_pins(alloc: Global, count: u8) -> Result<Pins<()>, Memory>
    requires { count ≤ MAX_TRIGGER }
{
    let settings = settings_of(alloc, count)?;
    Pins::make(alloc, NodeId(0), &settings)
}

/// Such pins have no chunk, also none of the last id.
fn are_empty(alloc: Global, count: u8) -> Result<bool, Memory>
    requires { count ≤ MAX_TRIGGER }
{
    let pins = greatest_pins(alloc, count)?;
    Ok(pins.chunks() == 0 && pins.next_cost(TriggerId(count)).is_none())
}

#[test]
fn all_pins(rt: HostRuntime) {
    row(
        &rt,
        "the longest time",
        Ok(the_longest_time_fills_the_bucket()),
    );
    row(&rt, "one token a second", one_token_a_second(rt.alloc()));
    row(
        &rt,
        "equal ids",
        the_smaller_of_equal_ids_gives_way(rt.alloc()),
    );
    row(
        &rt,
        "equal leads",
        equal_leads_go_by_node_and_number(rt.alloc()),
    );
    row(
        &rt,
        "most traces",
        most_traces_and_chunks_are_claimed(rt.alloc()),
    );
    row(
        &rt,
        "a settled group",
        only_a_settled_group_is_forgotten(rt.alloc()),
    );
    row(&rt, "no rule", are_empty(rt.alloc(), 0));
    row(&rt, "most rules", are_empty(rt.alloc(), MAX_TRIGGER));
}
