//! An outbox with the messages that `docs/FORMATS.md` shows: in order, full, acknowledged in another order, offered again, with a message
//! of the greatest size, and without memory.

use crate::rows::row;
use crate::wire::{ASK, HELLO, REPORTED, STANDING, TOLD, group};
use hs_base::{Memory, NodeId};
use hs_outbox::{Outbox, Put};
use hs_wire::{Body, Head, Message, Reported, read};
use std::alloc::Global;

/// Puts the message that bytes spell.
fn put(outbox: &mut Outbox, bytes: &[u8]) -> Option<Put> {
    let Some(message) = read(bytes) else {
        return None;
    };
    Some(outbox.put(&message))
}

/// Whether the message that bytes spell is put.
fn is_put(outbox: &mut Outbox, bytes: &[u8]) -> bool {
    put(outbox, bytes) == Some(Put::Done)
}

/// Whether this is offered next.
fn offers(outbox: &Outbox, number: u64, bytes: &[u8]) -> bool {
    match outbox.next() {
        Some((found, text)) => found == number && text == bytes,
        None => false,
    }
}

/// Whether this is offered next, and then handed out.
fn hands_out(outbox: &mut Outbox, number: u64, bytes: &[u8]) -> bool {
    offers(outbox, number, bytes) && outbox.sent(number)
}

/// An outbox of so many places with messages 0, 5, 6 and 7.
fn filled(alloc: Global, places: u32) -> Result<Option<Outbox>, Memory> {
    let mut outbox = Outbox::make(alloc, places, 151)?;
    let put = is_put(&mut outbox, &HELLO)
        && is_put(&mut outbox, &TOLD)
        && is_put(&mut outbox, &REPORTED)
        && is_put(&mut outbox, &STANDING);
    Ok(if put { Some(outbox) } else { None })
}

/// All are handed out in order, and then none is left to hand out.
fn in_order(alloc: Global) -> Result<bool, Memory> {
    let Some(mut outbox) = filled(alloc, 5)? else {
        return Ok(false);
    };
    Ok(
        hands_out(&mut outbox, 0, &HELLO)
            && hands_out(&mut outbox, 5, &TOLD)
            && hands_out(&mut outbox, 6, &REPORTED)
            && hands_out(&mut outbox, 7, &STANDING)
            && outbox.next().is_none()
            && outbox.free() == 1,
    )
}

/// Only the one that is offered can be handed out.
fn out_of_order(alloc: Global) -> Result<bool, Memory> {
    let Some(mut outbox) = filled(alloc, 4)? else {
        return Ok(false);
    };
    Ok(
        !outbox.sent(5)
            && hands_out(&mut outbox, 0, &HELLO)
            && !outbox.sent(0)
            && !outbox.sent(4)
            && offers(&outbox, 5, &TOLD),
    )
}

/// A full outbox takes a message again as soon as one is acknowledged, but none with a number that was passed.
fn full(alloc: Global) -> Result<bool, Memory> {
    let mut outbox = Outbox::make(alloc, 2, 127)?;
    Ok(
        is_put(&mut outbox, &HELLO)
            && is_put(&mut outbox, &TOLD)
            && put(&mut outbox, &REPORTED) == Some(Put::Full)
            && put(&mut outbox, &TOLD) == Some(Put::Stale)
            && outbox.acknowledged(5)
            && put(&mut outbox, &ASK) == Some(Put::Stale)
            && is_put(&mut outbox, &REPORTED)
            && outbox.free() == 0,
    )
}

/// Messages are acknowledged in any order, handed out or not, each once.
fn in_any_order(alloc: Global) -> Result<bool, Memory> {
    let Some(mut outbox) = filled(alloc, 4)? else {
        return Ok(false);
    };
    Ok(
        hands_out(&mut outbox, 0, &HELLO)
            && outbox.acknowledged(6)
            && !outbox.acknowledged(6)
            && !outbox.acknowledged(4)
            && outbox.acknowledged(0)
            && hands_out(&mut outbox, 5, &TOLD)
            && offers(&outbox, 7, &STANDING)
            && outbox.free() == 2,
    )
}

/// What was handed out and not acknowledged is offered again.
fn again(alloc: Global) -> Result<bool, Memory> {
    let Some(mut outbox) = filled(alloc, 4)? else {
        return Ok(false);
    };
    let out = hands_out(&mut outbox, 0, &HELLO)
        && hands_out(&mut outbox, 5, &TOLD)
        && hands_out(&mut outbox, 6, &REPORTED)
        && outbox.acknowledged(5);
    outbox.again();
    Ok(
        out && hands_out(&mut outbox, 0, &HELLO)
            && hands_out(&mut outbox, 6, &REPORTED)
            && offers(&outbox, 7, &STANDING),
    )
}

/// Reports a page under the greatest number.
fn report(outbox: &mut Outbox, page: &[u8]) -> Put {
    let body = Body::Reported(Reported {
        group: group(),
        client: u16::MAX,
        core: u64::MAX,
        page,
    });
    let head = Head {
        epoch: u64::MAX,
        number: u64::MAX,
        node: NodeId(127),
    };
    outbox.put(&Message { head, body })
}

/// How many bytes the message has that is offered next; 0 where none is.
fn offered_len(outbox: &Outbox) -> usize {
    match outbox.next() {
        Some((_, bytes)) => bytes.len(),
        None => 0,
    }
}

/// The longest message fits its places, and takes its number: the greatest. A longer page has no spelling.
fn the_longest(alloc: Global) -> Result<bool, Memory> {
    let page = vec![in alloc; 7; 32_777]?;
    let mut outbox = Outbox::make(alloc, 2, 32_831)?;
    Ok(
        report(&mut outbox, &page) == Put::NoSpelling
            && report(&mut outbox, &page[..32_776]) == Put::Done
            && report(&mut outbox, &page[..32_776]) == Put::Stale
            && offered_len(&outbox) == 32_831
            && outbox.sent(u64::MAX)
            && outbox.acknowledged(u64::MAX)
            && outbox.free() == 2,
    )
}

/// One byte less is too little for it, and enough for a shorter one.
fn too_long(alloc: Global) -> Result<bool, Memory> {
    let page = vec![in alloc; 7; 32_776]?;
    let mut outbox = Outbox::make(alloc, 1, 32_830)?;
    Ok(
        report(&mut outbox, &page) == Put::TooLong
            && outbox.free() == 1
            && report(&mut outbox, &page[..32_775]) == Put::Done,
    )
}

/// An outbox without places is always full, and takes no memory.
fn no_places(alloc: Global) -> Result<bool, Memory> {
    let mut outbox = Outbox::make(alloc, 0, u32::MAX)?;
    Ok(
        put(&mut outbox, &HELLO) == Some(Put::Full)
            && outbox.next().is_none()
            && !outbox.acknowledged(0),
    )
}

#[test]
fn outbox(rt: HostRuntime) {
    row(&rt, "in order", in_order(rt.alloc()));
    row(&rt, "out of order", out_of_order(rt.alloc()));
    row(&rt, "full", full(rt.alloc()));
    row(&rt, "acknowledged in any order", in_any_order(rt.alloc()));
    row(&rt, "again", again(rt.alloc()));
    row(&rt, "the longest message", the_longest(rt.alloc()));
    row(&rt, "too long", too_long(rt.alloc()));
    row(&rt, "no places", no_places(rt.alloc()));
}
