//! The messages of the tables, and what is looked at in those that are handed out. `docs/FORMATS.md` says which byte is which.

use hs_base::{Laterals, TraceId, Trigger, TriggerId};
use hs_node_client::{CallAnswer, NodeClient};

/// Two nodes with one client each, and eight buffers of 64 bytes. The bucket of the trigger id has one token, and a token comes back in a
/// second. `docs/FORMATS.md` says which settings are which.
pub const SETTINGS: &[u8] =
    b"nodes 2\nclients 1\nbuffers 8\nsize 64\nthreshold 2\npins 2\nbacklog 4\nclaims 4\nremember 16\ntriggerid 1 1 1 1\n";

/// The one trigger id.
pub const ID: TriggerId = TriggerId(1);

/// The trace of the tables.
pub const TRACE: TraceId = TraceId(7);

/// Node 0 is asked for group 5 of node 1, of trigger id 1, whose lead is trace 7. It has no laterals.
pub const ASK: [u8; 44] = [
    1, 3, 0, 0, 0, 0, 0, 0, 0, 9, 0, 0, 0, 0, 0, 0, 0, 1, 0, 0, 0, 1, 0, 0, 0, 5, 1, 0, 0, 0, 0, 0,
    0, 0, 0, 0, 0, 0, 0, 0, 0, 0, 7, 0,
];

/// The kinds of messages.
pub const HELLO: u8 = 1;

pub const TOLD: u8 = 2;

pub const REPORTED: u8 = 4;

pub const STANDING: u8 = 5;

/// Whether this is offered as the message of this number and this kind, with this byte at a place. The kind stands behind the version, the
/// number behind kind and epoch.
pub fn is_message(
    offered: Option<(u64, &[u8])>,
    number: u64,
    kind: u8,
    place: usize,
    byte: u8,
) -> bool {
    match offered {
        Some((found, bytes)) => {
            found == number
                && bytes.get(1) == Some(&kind)
                && bytes.get(17).map(|low| u64::from(*low)) == Some(number)
                && bytes.get(place) == Some(&byte)
        }
        None => false,
    }
}

/// A trace with one point of five bytes, which goes to the agent as one chunk.
pub fn records(client: &mut NodeClient) -> bool {
    let begun = client.begin(TRACE);
    let pointed = client.point(5, b"login");
    let ended = client.end();
    let waits = client.flush();
    begun == CallAnswer::Done
        && pointed == CallAnswer::Done
        && ended == CallAnswer::Done
        && waits == 0
}

/// A trigger whose lead is the trace.
pub fn fires(client: &mut NodeClient) -> bool {
    let fired = client.trigger(&Trigger {
        moment: 9,
        trigger: ID,
        lead: TRACE,
        laterals: Laterals::none(),
    });
    let waits = client.flush();
    fired == CallAnswer::Done && waits == 0
}
