//! The messages of a service that `docs/FORMATS.md` shows, messages of the greatest size, and bytes that are no message.

use crate::rows::row;
use hs_base::{
    Ask, Group, GroupId, Laterals, Memory, NodeId, NodeSet, Told, TraceId, TriggerId, Why,
};
use hs_wire::{
    Body, Head, Hello, Losses, Message, Reported, Standing, Wholeness, WriteFault, read, write,
};
use std::alloc::Global;

/// Node 3 says that its name is n3.
pub(crate) const HELLO: [u8; 55] = [
    1, 1, 0, 0, 0, 0, 0, 0, 1, 2, 0, 0, 0, 0, 0, 0, 0, 0, 0, 3, 0, 1, 2, 3, 4, 5, 6, 7, 8, 9, 10,
    11, 12, 13, 14, 15, 16, 17, 18, 19, 20, 21, 22, 23, 24, 25, 26, 27, 28, 29, 30, 31, 2, 110, 51,
];

/// Node 3 tells of a late crumb to nodes 0 and 2.
pub(crate) const TOLD: [u8; 77] = [
    1, 2, 0, 0, 0, 0, 0, 0, 1, 2, 0, 0, 0, 0, 0, 0, 0, 5, 0, 3, 0, 3, 0, 0, 0, 7, 2, 0, 0, 0, 0, 0,
    0, 0, 0, 0, 0, 0, 0, 0, 0, 10, 27, 2, 0, 0, 0, 0, 0, 0, 0, 0, 0, 0, 0, 0, 0, 0, 0, 5, 1, 0, 0,
    0, 0, 0, 0, 0, 0, 0, 0, 0, 0, 0, 0, 0, 255,
];

/// Node 2 is asked.
pub(crate) const ASK: [u8; 44] = [
    1, 3, 0, 0, 0, 0, 0, 0, 0, 9, 0, 0, 0, 0, 0, 0, 0, 1, 0, 2, 0, 3, 0, 0, 0, 7, 2, 0, 0, 0, 0, 0,
    0, 0, 0, 0, 0, 0, 0, 0, 0, 10, 27, 0,
];

/// A page of client 4's core 1.
pub(crate) const REPORTED: [u8; 98] = [
    1, 4, 0, 0, 0, 0, 0, 0, 1, 2, 0, 0, 0, 0, 0, 0, 0, 6, 0, 3, 0, 3, 0, 0, 0, 7, 2, 0, 0, 0, 0, 0,
    0, 0, 0, 0, 0, 0, 0, 0, 0, 10, 27, 0, 4, 0, 0, 0, 0, 0, 0, 0, 1, 0, 43, 0, 0, 0, 0, 0, 0, 0, 0,
    0, 0, 0, 0, 0, 0, 0, 1, 0, 0, 0, 0, 0, 0, 0, 0, 0, 0, 0, 0, 0, 1, 0, 35, 0, 1, 0, 0, 0, 0, 0,
    0, 0, 5, 170,
];

/// Part of a trace was lost, for each cause another count.
pub(crate) const STANDING: [u8; 151] = [
    1, 5, 0, 0, 0, 0, 0, 0, 1, 2, 0, 0, 0, 0, 0, 0, 0, 7, 0, 3, 0, 0, 0, 0, 0, 0, 0, 0, 0, 0, 0, 0,
    0, 0, 10, 27, 0, 3, 0, 0, 0, 7, 1, 0, 0, 0, 2, 0, 0, 0, 0, 0, 0, 0, 80, 0, 0, 0, 0, 0, 0, 0,
    17, 0, 0, 0, 0, 0, 0, 0, 0, 0, 0, 0, 0, 0, 0, 0, 5, 0, 0, 0, 0, 0, 0, 0, 1, 0, 0, 0, 0, 0, 0,
    0, 2, 0, 0, 0, 0, 0, 0, 0, 3, 0, 0, 0, 0, 0, 0, 0, 4, 0, 0, 0, 0, 0, 0, 0, 5, 0, 0, 0, 0, 0, 0,
    0, 6, 0, 0, 0, 0, 0, 0, 0, 7, 0, 0, 0, 0, 0, 0, 0, 8, 0, 0, 0, 0, 0, 0, 0, 9,
];

const DIGEST: [u8; 32] = [
    0, 1, 2, 3, 4, 5, 6, 7, 8, 9, 10, 11, 12, 13, 14, 15, 16, 17, 18, 19, 20, 21, 22, 23, 24, 25,
    26, 27, 28, 29, 30, 31,
];

/// The bytes of the page in `REPORTED`.
const PAGE: [u8; 43] = [
    0, 0, 0, 0, 0, 0, 0, 0, 0, 0, 0, 0, 0, 0, 0, 1, 0, 0, 0, 0, 0, 0, 0, 0, 0, 0, 0, 0, 0, 1, 0,
    35, 0, 1, 0, 0, 0, 0, 0, 0, 0, 5, 0xaa,
];

const LOSSES: Losses = Losses {
    null_pages: 1,
    full_points: 2,
    dry_points: 3,
    long_points: 4,
    refused_crumbs: 5,
    evicted_crumbs: 6,
    forgotten_crumbs: 7,
    evicted_pages: 8,
    abandoned_pages: 9,
};

fn head(epoch: u64, number: u64, node: u16) -> Head {
    Head {
        epoch,
        number,
        node: NodeId(node),
    }
}

pub(crate) fn group() -> Group {
    Group {
        id: GroupId { node: 3, number: 7 },
        trigger: TriggerId(2),
        lead: TraceId(0x0a1b),
    }
}

/// Whether a message is written to the front of a slice as these bytes, and no byte behind them changes.
fn is_written(message: &Message<'_>, bytes: &[u8]) -> bool {
    let mut out = [0xee; 152];
    let Ok(len) = write(&mut out, message) else {
        return false;
    };
    len == bytes.len()
        && out.get(..len) == Some(bytes)
        && (len == 152 || out.get(len) == Some(&0xee))
}

/// Whether a slice one byte too short is told the length, and stays as it is.
fn wants_more(message: &Message<'_>, bytes: &[u8]) -> bool {
    let mut out = [0xee; 152];
    let Some(short) = out.get_mut(1..bytes.len()) else {
        return false;
    };
    write(short, message) == Err(WriteFault::Short(bytes.len())) && out == [0xee; 152]
}

fn spells(message: &Message<'_>, bytes: &[u8]) -> bool {
    is_written(message, bytes) && wants_more(message, bytes)
}

fn hello_is_spelled() -> bool {
    let body = Body::Hello(Hello {
        digest: DIGEST,
        name: b"n3",
    });
    let head = head(258, 0, 3);
    spells(&Message { head, body }, &HELLO)
}

fn told_is_spelled() -> bool {
    let mut laterals = Laterals::none();
    laterals.push(TraceId(0xff));
    let body = Body::Told(Told {
        group: group(),
        laterals,
        crumbs: NodeSet(5),
        why: Why::Late,
    });
    let head = head(258, 5, 3);
    spells(&Message { head, body }, &TOLD)
}

fn ask_is_spelled() -> bool {
    let body = Body::Ask(Ask {
        group: group(),
        laterals: Laterals::none(),
    });
    let head = head(9, 1, 2);
    spells(&Message { head, body }, &ASK)
}

fn reported_is_spelled() -> bool {
    let body = Body::Reported(Reported {
        group: group(),
        client: 4,
        core: 1,
        page: &PAGE,
    });
    let head = head(258, 6, 3);
    spells(&Message { head, body }, &REPORTED)
}

fn standing() -> Standing {
    Standing {
        trace: TraceId(0x0a1b),
        group: GroupId { node: 3, number: 7 },
        wholeness: Wholeness::Lost,
        open_segments: 2,
        horizon: 80,
        pages: 17,
        crumbs: NodeSet(5),
        losses: LOSSES,
    }
}

fn standing_is_spelled() -> bool {
    let body = Body::Standing(standing());
    let head = head(258, 7, 3);
    spells(&Message { head, body }, &STANDING)
}

fn hello_is_read() -> bool {
    let Some(message) = read(&HELLO) else {
        return false;
    };
    let Body::Hello(hello) = message.body else {
        return false;
    };
    message.head == head(258, 0, 3) && hello.digest == DIGEST && hello.name == b"n3".as_slice()
}

fn is_told(told: &Told) -> bool {
    let laterals = &told.laterals;
    told.group == group()
        && told.crumbs == NodeSet(5)
        && told.why == Why::Late
        && laterals.len() == 1
        && laterals.get(0) == Some(TraceId(0xff))
}

fn told_is_read() -> bool {
    let Some(message) = read(&TOLD) else {
        return false;
    };
    match &message.body {
        Body::Told(told) => message.head == head(258, 5, 3) && is_told(told),
        _ => false,
    }
}

fn is_ask(ask: &Ask) -> bool {
    let laterals = &ask.laterals;
    ask.group == group() && laterals.is_empty()
}

fn ask_is_read() -> bool {
    let Some(message) = read(&ASK) else {
        return false;
    };
    match &message.body {
        Body::Ask(ask) => message.head == head(9, 1, 2) && is_ask(ask),
        _ => false,
    }
}

fn reported_is_read() -> bool {
    let Some(message) = read(&REPORTED) else {
        return false;
    };
    let Body::Reported(reported) = message.body else {
        return false;
    };
    message.head == head(258, 6, 3)
        && reported.group == group()
        && reported.client == 4
        && reported.core == 1
        && reported.page == PAGE.as_slice()
}

fn standing_is_read() -> bool {
    let Some(message) = read(&STANDING) else {
        return false;
    };
    let Body::Standing(found) = message.body else {
        return false;
    };
    message.head == head(258, 7, 3) && found == standing()
}

/// Bytes of `TOLD` that are changed, with which they spell no message: another version, no kind, the kind of a shorter message, nodes
/// from 128 on, no reason, and more and fewer laterals than there are.
const CHANGES: [(usize, u8); 11] = [
    (0, 0),
    (0, 2),
    (1, 0),
    (1, 3),
    (1, 6),
    (18, 1),
    (19, 128),
    (21, 128),
    (43, 3),
    (60, 2),
    (60, 0),
];

fn is_message(mut bytes: [u8; 77], place: usize, byte: u8) -> bool {
    if let Some(changed) = bytes.get_mut(place) {
        *changed = byte;
    }
    read(&bytes).is_some()
}

/// Whether none of these is a message, nor a message without its last byte or with one more.
fn others_are_refused() -> bool {
    let mut right = read(&TOLD[..76]).is_none() && read(&[]).is_none();
    for (place, byte) in CHANGES {
        right &= !is_message(TOLD, place, byte);
    }
    let mut longer = [0; 45];
    longer[..44].copy_from_slice(&ASK);
    right && read(&longer).is_none()
}

/// Whether so many bytes were written, and are read as a message.
fn comes_back(out: &[u8], written: Result<usize, WriteFault>, len: usize) -> bool {
    let Some(bytes) = out.get(..len) else {
        return false;
    };
    written == Ok(len) && read(bytes).is_some()
}

/// Reports a page.
fn report(out: &mut [u8], page: &[u8]) -> Result<usize, WriteFault> {
    let body = Body::Reported(Reported {
        group: group(),
        client: u16::MAX,
        core: u64::MAX,
        page,
    });
    let head = head(u64::MAX, u64::MAX, 127);
    write(out, &Message { head, body })
}

/// The longest page is reported, and one byte more is not.
fn the_longest_page(alloc: Global) -> Result<bool, Memory> {
    let page = vec![in alloc; 7; 32_777]?;
    let mut out = vec![in alloc; 0; 40_000]?;
    let longest = report(&mut out, &page[..32_776]);
    let right = comes_back(&out, longest, 32_831);
    Ok(right && report(&mut out, &page) == Err(WriteFault::NoSpelling))
}

/// Says a node's name.
fn say(out: &mut [u8], node: u16, name: &[u8]) -> Result<usize, WriteFault> {
    let body = Body::Hello(Hello {
        digest: DIGEST,
        name,
    });
    let head = head(1, 1, node);
    write(out, &Message { head, body })
}

/// A name of 64 bytes of the last node is said, one of 65 is not, and neither is one of a node 128.
fn the_longest_name() -> bool {
    let mut out = [0; 128];
    let name = [0xff; 65];
    let longest = say(&mut out, 127, &name[..64]);
    comes_back(&out, longest, 117)
        && say(&mut out, 127, &name) == Err(WriteFault::NoSpelling)
        && say(&mut out, 128, &name[..64]) == Err(WriteFault::NoSpelling)
}

fn most_laterals() -> Laterals {
    let mut laterals = Laterals::none();
    for number in 0..32u32 {
        laterals.push(TraceId(u128::MAX - u128::from(number)));
    }
    laterals
}

/// Tells of 32 laterals and 128 nodes.
fn tell(out: &mut [u8]) -> Result<usize, WriteFault> {
    let body = Body::Told(Told {
        group: group(),
        laterals: most_laterals(),
        crumbs: NodeSet(u128::MAX),
        why: Why::Fired,
    });
    let head = head(1, 1, 0);
    write(out, &Message { head, body })
}

fn the_most_laterals(alloc: Global) -> Result<bool, Memory> {
    let mut out = vec![in alloc; 0; 573]?;
    let told = tell(&mut out);
    Ok(comes_back(&out, told, 573))
}

#[test]
fn messages(rt: HostRuntime) {
    row(&rt, "a hello is spelled", Ok(hello_is_spelled()));
    row(&rt, "a tale is spelled", Ok(told_is_spelled()));
    row(&rt, "an ask is spelled", Ok(ask_is_spelled()));
    row(&rt, "a report is spelled", Ok(reported_is_spelled()));
    row(&rt, "a standing is spelled", Ok(standing_is_spelled()));
    row(&rt, "a hello is read", Ok(hello_is_read()));
    row(&rt, "a tale is read", Ok(told_is_read()));
    row(&rt, "an ask is read", Ok(ask_is_read()));
    row(&rt, "a report is read", Ok(reported_is_read()));
    row(&rt, "a standing is read", Ok(standing_is_read()));
    row(&rt, "others are refused", Ok(others_are_refused()));
    row(&rt, "the longest page", the_longest_page(rt.alloc()));
    row(&rt, "the longest name", Ok(the_longest_name()));
    row(&rt, "the most laterals", the_most_laterals(rt.alloc()));
}
