//! Messages of `docs/FORMATS.md` that are delivered to a hub, and a hub by the settings of a service.

use crate::hub::{LIMITS, made};
use crate::rows::row;
use hs_base::Memory;
use hs_hub::{Delivered, Hub, hub_limits};
use hs_settings::read_settings;
use std::alloc::Global;

/// Node 3 says who it is.
const HELLO: [u8; 55] = [
    1, 1, 0, 0, 0, 0, 0, 0, 1, 2, 0, 0, 0, 0, 0, 0, 0, 0, 0, 3, 0, 1, 2, 3, 4, 5, 6, 7, 8, 9, 10,
    11, 12, 13, 14, 15, 16, 17, 18, 19, 20, 21, 22, 23, 24, 25, 26, 27, 28, 29, 30, 31, 2, 0x6e,
    0x33,
];

/// Node 3 tells of its group 7, with crumbs to nodes 0 and 2.
const TOLD: [u8; 77] = [
    1, 2, 0, 0, 0, 0, 0, 0, 1, 2, 0, 0, 0, 0, 0, 0, 0, 5, 0, 3, 0, 3, 0, 0, 0, 7, 2, 0, 0, 0, 0, 0,
    0, 0, 0, 0, 0, 0, 0, 0, 0, 0x0a, 0x1b, 2, 0, 0, 0, 0, 0, 0, 0, 0, 0, 0, 0, 0, 0, 0, 0, 5, 1, 0,
    0, 0, 0, 0, 0, 0, 0, 0, 0, 0, 0, 0, 0, 0, 0xff,
];

/// Node 2 is asked.
const ASK: [u8; 44] = [
    1, 3, 0, 0, 0, 0, 0, 0, 0, 9, 0, 0, 0, 0, 0, 0, 0, 1, 0, 2, 0, 3, 0, 0, 0, 7, 2, 0, 0, 0, 0, 0,
    0, 0, 0, 0, 0, 0, 0, 0, 0, 0x0a, 0x1b, 0,
];

/// Node 3 reports a page that names another node.
const REPORTED: [u8; 98] = [
    1, 4, 0, 0, 0, 0, 0, 0, 1, 2, 0, 0, 0, 0, 0, 0, 0, 6, 0, 3, 0, 3, 0, 0, 0, 7, 2, 0, 0, 0, 0, 0,
    0, 0, 0, 0, 0, 0, 0, 0, 0, 0x0a, 0x1b, 0, 4, 0, 0, 0, 0, 0, 0, 0, 1, 0, 43, 0, 0, 0, 0, 0, 0,
    0, 0, 0, 0, 0, 0, 0, 0, 0, 1, 0, 0, 0, 0, 0, 0, 0, 0, 0, 0, 0, 0, 0, 1, 0, 35, 0, 1, 0, 0, 0,
    0, 0, 0, 0, 5, 0xaa,
];

fn deliver(hub: &mut Hub, bytes: &[u8]) -> Option<Delivered> {
    hub.deliver(bytes).ok()
}

fn messages_come(alloc: Global) -> Result<bool, Memory> {
    let mut hub = made(alloc, LIMITS)?;
    let hello = deliver(&mut hub, &HELLO);
    let told = deliver(&mut hub, &TOLD);
    Ok((hello, told) == (Some(Delivered::Done), Some(Delivered::Held)))
}

fn messages_are_refused(alloc: Global) -> Result<bool, Memory> {
    let mut hub = made(alloc, LIMITS)?;
    let ask = deliver(&mut hub, &ASK);
    let reported = deliver(&mut hub, &REPORTED);
    let none = deliver(&mut hub, &TOLD[1..]);
    let refused = Some(Delivered::Refused);
    Ok(ask == refused && reported == refused && none == refused)
}

/// The kind of the next message and the low byte of its node.
fn asked(hub: &mut Hub) -> Option<(u8, u8)> {
    let mut out = [0; 128];
    match hub.next(&mut out) {
        Ok(Some(_)) => Some((out[1], out[19])),
        Ok(None) | Err(_) => None,
    }
}

/// Node 0 is asked, then node 2.
fn both_are_asked(alloc: Global) -> Result<bool, Memory> {
    let mut hub = made(alloc, LIMITS)?;
    deliver(&mut hub, &TOLD);
    let both = (asked(&mut hub), asked(&mut hub));
    Ok(both == (Some((3, 0)), Some((3, 2))) && asked(&mut hub).is_none())
}

/// Two traces and four nodes, and what is said where no line says it.
fn settings_are_limits(alloc: Global) -> Result<bool, Memory> {
    let Ok(settings) = read_settings(alloc, b"nodes 4\nhold 2\n") else {
        return Err(Memory);
    };
    let limits = hub_limits(&settings);
    Ok(
        (limits.nodes, limits.groups, limits.hold) == (4, 16_384, 2)
            && (limits.bytes, limits.standings, limits.messages) == (268_435_456, 32, 64)
            && (limits.wait, limits.tries, limits.age) == (10, 5, 300),
    )
}

/// A hub of the settings of an empty text.
fn settings_make_a_hub(alloc: Global) -> Result<bool, Memory> {
    let Ok(settings) = read_settings(alloc, b"") else {
        return Err(Memory);
    };
    match Hub::by_settings(alloc, 1, true, &settings) {
        Ok(hub) => Ok(hub.counts().messages == 0),
        Err(_) => Err(Memory),
    }
}

#[test]
fn delivered(rt: HostRuntime) {
    let alloc = rt.alloc();
    row(&rt, "come", messages_come(alloc));
    row(&rt, "refused", messages_are_refused(alloc));
    row(&rt, "asked", both_are_asked(alloc));
    row(&rt, "settings", settings_are_limits(alloc));
    row(&rt, "hub", settings_make_a_hub(alloc));
}
