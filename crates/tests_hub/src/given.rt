//! What is read of a trace that a hub gave out: its rows, which part of it that is, and who claims it.

use crate::hub::{LIMITS, PAGE, made, message, tell};
use crate::rows::row;
use hs_base::{Memory, TraceId, Why};
use hs_cursor::{Cursor, Row};
use hs_hub::{Delivered, Hub};
use hs_standings::Life;
use std::alloc::Global;

/// Page 3 of the same client, whose first record is the one with number 7.
const PAGE_3: [u8; 43] = [
    0, 0, 0, 0, 0, 0, 0, 0, 0, 0, 0, 0, 0, 0, 0, 1, 0, 0, 0, 0, 0, 0, 0, 3, 0, 0, 0, 7, 0, 1, 0,
    35, 0, 1, 0, 0, 0, 0, 0, 0, 0, 6, 0xbb,
];

/// Page 1, on which record 0 of page 0 goes on.
const PAGE_1: [u8; 43] = [
    0, 0, 0, 0, 0, 0, 0, 0, 0, 0, 0, 0, 0, 0, 0, 1, 0, 0, 0, 0, 0, 0, 0, 1, 0, 0, 0, 0, 0, 1, 0,
    35, 0, 1, 0, 0, 0, 0, 0, 0, 0, 5, 0xcc,
];

/// Node 0 reports a page.
fn report(hub: &mut Hub, number: u64, page: &[u8]) -> Option<Delivered> {
    hub.reported(message(0, number), 0, 1, page).ok()
}

/// A trace of these two pages is out.
fn out_of(alloc: Global, one: &[u8], other: &[u8]) -> Result<Hub, Memory> {
    let mut hub = made(alloc, LIMITS)?;
    tell(&mut hub, 0, 1, 0, Why::Fired);
    report(&mut hub, 2, one);
    report(&mut hub, 3, other);
    age(&mut hub);
    hub.take();
    Ok(hub)
}

/// Ten passes.
fn age(hub: &mut Hub) {
    for _pass in 0..10 {
        hub.pass();
    }
}

/// Whether a row has this page and number, and this payload.
fn is_at(row: &Row<'_>, page: u32, number: u64, byte: u8) -> bool {
    (
        row.page.node,
        row.page.epoch,
        row.page.client,
        row.page.core,
    ) == (0, 5, 0, 1)
        && (row.page.page, row.number) == (page, number)
        && row.payload == [byte].as_slice()
}

/// Whether there is a next row, that has this page, number and payload, and nothing in front of it that is missing.
fn comes(hub: &Hub, cursor: &mut Cursor, page: u32, number: u64, byte: u8) -> bool {
    match hub.next_row(cursor) {
        Some(row) => is_at(&row, page, number, byte) && row.missing_pages == 0,
        None => false,
    }
}

/// Whether the next row has pages and numbers in front of it that are missing.
fn comes_behind_a_gap(hub: &Hub, cursor: &mut Cursor) -> bool {
    match hub.next_row(cursor) {
        Some(row) => {
            is_at(&row, 3, 7, 0xbb)
                && (row.missing_pages, row.missing_records) == (2, 6)
                && !row.continues
        }
        None => false,
    }
}

/// Pages 1 and 2 and the records 1 to 6 of the core lie between, of this trace or of others.
fn a_gap(alloc: Global) -> Result<bool, Memory> {
    let hub = out_of(alloc, &PAGE_3, &PAGE)?;
    let mut cursor = Cursor::start();
    let first = comes(&hub, &mut cursor, 0, 0, 0xaa);
    let second = comes_behind_a_gap(&hub, &mut cursor);
    Ok(first && second && hub.next_row(&mut cursor).is_none())
}

/// Whether the next row goes on with the record before.
fn goes_on(hub: &Hub, cursor: &mut Cursor) -> bool {
    match hub.next_row(cursor) {
        Some(row) => is_at(&row, 1, 0, 0xcc) && row.continues,
        None => false,
    }
}

/// Record 0 stands on two pages.
fn a_record_of_two_pages(alloc: Global) -> Result<bool, Memory> {
    let hub = out_of(alloc, &PAGE, &PAGE_1)?;
    let mut cursor = Cursor::start();
    let first = comes(&hub, &mut cursor, 0, 0, 0xaa);
    Ok(first && goes_on(&hub, &mut cursor))
}

/// A page that comes after the trace was saved is of its next part.
fn the_next_part(alloc: Global) -> Result<bool, Memory> {
    let mut hub = out_of(alloc, &PAGE, &PAGE_1)?;
    let first = hub.part();
    hub.saved();
    report(&mut hub, 4, &PAGE_3);
    age(&mut hub);
    let none = hub.part();
    let taken = hub.take();
    Ok((first, none, taken, hub.part()) == (Some(0), None, Some(TraceId(1)), Some(1)))
}

/// The lead of the group at a place of those that claim the trace that is out.
fn lead_at(hub: &Hub, place: usize) -> Option<TraceId> {
    match hub.claim(place) {
        Some(followed) => Some(followed.ask.group.lead),
        None => None,
    }
}

/// One group claims the trace, and no life spoke of it.
fn who_claims(alloc: Global) -> Result<bool, Memory> {
    let hub = out_of(alloc, &PAGE, &PAGE_1)?;
    let none: Option<Life> = hub.life(0);
    Ok((lead_at(&hub, 0), lead_at(&hub, 1)) == (Some(TraceId(1)), None) && none.is_none())
}

#[test]
fn given_out(rt: HostRuntime) {
    let alloc = rt.alloc();
    row(&rt, "gap", a_gap(alloc));
    row(&rt, "pieces", a_record_of_two_pages(alloc));
    row(&rt, "part", the_next_part(alloc));
    row(&rt, "claims", who_claims(alloc));
}
