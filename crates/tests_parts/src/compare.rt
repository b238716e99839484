//! Head sampling by ranks, and rings of tail sampling that are full of what was named, or as large as may be. The other rules are shown
//! by `cases/compare` and `examples/`.

ghost use Rattle.std.specs.Prelude.{◌≤◌};

use crate::rows::row;
use hs_base::{ClientId, Memory, RecordId, TraceId};
use hs_compare::limits::MAX_ROOM;
use hs_compare::{RingTail, head};
use std::alloc::Global;

/// The rank word of this trace is 6e789e6aa1b965f4, and that of the trace 0 is e220a8397b1dcdaf.
const EVEN: TraceId = TraceId(0x9e37_79b9_7f4a_7c15);

/// An id whose low half is 0 has the rank word of its high half.
const WIDE: TraceId = TraceId(0x9e37_79b9_7f4a_7c15_0000_0000_0000_0000);

/// A trace, one in how many are kept, and whether that one is.
const HEADS: [(TraceId, u32, bool); 9] = [
    (TraceId(0), 1, true),
    (TraceId(0), 2, false),
    (EVEN, 1, true),
    (EVEN, 2, true),
    (EVEN, 4, true),
    (EVEN, 8, false),
    (WIDE, 4, true),
    (WIDE, 8, false),
    (WIDE, 1_000_000, false),
];

/// Whether each trace is kept as the table says.
fn heads() -> bool {
    let mut kept = true;
    for (trace, one_in, wanted) in HEADS {
        kept &= 1 <= one_in && head(trace, one_in) == wanted;
    }
    kept
}

/// A record of this number comes, of this trace.
fn note(ring: &mut RingTail, number: u32, trace: u32) -> Result<(), Memory> {
    let client = ClientId { node: 0, number: 0 };
    ring.note(RecordId { client, number }, TraceId(u128::from(trace)))
}

/// So many records come, each of a trace of its own that is named at once.
fn come_and_name(ring: &mut RingTail, most: u32) -> Result<(), Memory> {
    for number in 1..most {
        note(ring, number, number)?;
        ring.name(TraceId(u128::from(number)))?;
    }
    Ok(())
}

/// A first record waits, 999 are named, and then the first one is.
fn comes_first_and_last(ring: &mut RingTail) -> Result<(), Memory> {
    note(ring, 0, 0)?;
    come_and_name(ring, 1000)?;
    ring.name(TraceId(0))
}

/// So many records of trace 7 come, and it is named.
fn come(ring: &mut RingTail, count: u32) -> Result<(), Memory> {
    for number in 0..count {
        note(ring, number, 7)?;
    }
    ring.name(TraceId(7))
}

/// Whether so many records are kept, and the first of them has this number.
fn has(ring: &RingTail, first: u32, len: u32) -> bool {
    let kept = ring.kept().as_slice();
    match kept.first() {
        Some(id) => id.number == first && kept.len() == len as usize,
        None => false,
    }
}

/// Named records stay in a ring of two until it is full of them, many times over. None is lost, and the one that was named last stands
/// behind the others.
fn dead_records_are_cleared(alloc: Global) -> Result<bool, Memory> {
    let mut ring = RingTail::make(alloc, 2)?;
    comes_first_and_last(&mut ring)?;
    Ok(has(&ring, 1, 1000))
}

/// The greatest ring, and as many records again.
fn the_greatest_room(alloc: Global) -> Result<bool, Memory> {
    let mut ring = RingTail::make(alloc, MAX_ROOM)?;
    come(&mut ring, 2 * MAX_ROOM)?;
    Ok(has(&ring, MAX_ROOM, MAX_ROOM))
}

#[test]
fn other_samplers(rt: HostRuntime) {
    row(&rt, "heads", Ok(heads()));
    row(&rt, "dead records", dead_records_are_cleared(rt.alloc()));
    row(&rt, "the greatest room", the_greatest_room(rt.alloc()));
}
