//! An inbox of node 2 with two places: asks that wait in order, one for which no place is free, and messages that ask this node for
//! nothing. The ask is that of `docs/FORMATS.md`.

use crate::rows::row;
use hs_base::{GroupId, List, Memory, NodeId, TraceId, TriggerId, TriggerRule};
use hs_inbox::{AskDelivered, Inbox};
use std::alloc::Global;

/// Node 2 is asked for group 7 of node 3, whose trigger id is 2, and whose lead is 0x0a1b.
const ASK: [u8; 44] = [
    1, 3, 0, 0, 0, 0, 0, 0, 0, 9, 0, 0, 0, 0, 0, 0, 0, 1, 0, 2, 0, 3, 0, 0, 0, 7, 2, 0, 0, 0, 0, 0,
    0, 0, 0, 0, 0, 0, 0, 0, 0, 10, 27, 0,
];

/// The place of the node that is asked, of the group's number, and of its trigger id: the last byte of each.
const TO: usize = 19;

const NUMBER: usize = 25;

const TRIGGER: usize = 26;

/// An inbox of a node that declares the trigger id 2, with so many places.
fn inbox(alloc: Global, node: u16, places: u32) -> Result<Inbox, Memory> {
    let mut rules = List::new(alloc);
    rules.append(TriggerRule {
        id: TriggerId(2),
        weight: 1,
        burst: 10,
        rate: 1,
    })?;
    Inbox::make(alloc, NodeId(node), &rules, places)
}

/// Delivers the ask with another byte at a place.
fn deliver(inbox: &mut Inbox, place: usize, byte: u8) -> AskDelivered {
    let mut ask = ASK;
    if let Some(at) = ask.get_mut(place) {
        *at = byte;
    }
    inbox.deliver(&ask)
}

/// Whether the first that waits asks for the group of this number.
fn is_first(inbox: &Inbox, number: u32) -> bool {
    match inbox.first() {
        Some(ask) => {
            ask.group.id == GroupId { node: 3, number } && ask.group.lead == TraceId(0x0a1b)
        }
        None => false,
    }
}

/// The asks for groups 7, 8 and 9 come, and the third finds no place. They are taken in the order in which they came.
fn in_order(alloc: Global) -> Result<bool, Memory> {
    let mut inbox = inbox(alloc, 2, 2)?;
    let seven = deliver(&mut inbox, NUMBER, 7);
    let eight = deliver(&mut inbox, NUMBER, 8);
    let nine = deliver(&mut inbox, NUMBER, 9);
    let first = is_first(&inbox, 7);
    inbox.take_first();
    let second = is_first(&inbox, 8) && inbox.len() == 1;
    inbox.take_first();
    Ok(
        seven == AskDelivered::Taken
            && eight == AskDelivered::Taken
            && nine == AskDelivered::Full
            && first
            && second
            && inbox.first().is_none(),
    )
}

/// Another node, an id that is not declared, a message of another version, one that is cut off, and none.
fn refused(alloc: Global) -> Result<bool, Memory> {
    let mut inbox = inbox(alloc, 2, 2)?;
    let other = deliver(&mut inbox, TO, 3);
    let undeclared = deliver(&mut inbox, TRIGGER, 1);
    let version = deliver(&mut inbox, 0, 2);
    let cut = inbox.deliver(ASK.as_slice().get(..43).unwrap_or(&[]));
    let nothing = inbox.deliver(&[]);
    Ok(
        other == AskDelivered::Refused
            && undeclared == AskDelivered::Refused
            && version == AskDelivered::Refused
            && cut == AskDelivered::Refused
            && nothing == AskDelivered::Refused
            && inbox.len() == 0,
    )
}

/// With no place each ask finds none. Nothing is there to take out.
fn no_place(alloc: Global) -> Result<bool, Memory> {
    let mut inbox = inbox(alloc, 2, 0)?;
    let answer = deliver(&mut inbox, NUMBER, 7);
    inbox.take_first();
    Ok(answer == AskDelivered::Full && inbox.first().is_none())
}

#[test]
fn an_inbox(rt: HostRuntime) {
    row(&rt, "in order", in_order(rt.alloc()));
    row(&rt, "refused", refused(rt.alloc()));
    row(&rt, "no place", no_place(rt.alloc()));
}
