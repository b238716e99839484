//! An intake of node 0 of two, with one client and eight buffers of 64 bytes: each part of a pass by itself.

use crate::bytes::{ASK, HELLO, ID, SETTINGS, STANDING, TOLD, TRACE, fires, is_message, records};
use crate::rows::row;
use hs_agent::Left;
use hs_base::{Group, GroupId, List, Memory, NodeId, NodeSet, Settings, TraceId};
use hs_inbox::AskDelivered;
use hs_intake::{
    Handed, Intake, MadeIntake, PartedChunk, Stated, Stop, Took, Turned, make_intake, receive_at,
};
use hs_link::Receiver;
use hs_mail::{Mail, Room};
use hs_node_client::{CallAnswer, ClientLimits, NodeClient, SegmentKey, SegmentNote, SegmentState};
use hs_settings::read_settings;
use hs_wire::{Hello, Losses, Standing, Wholeness};
use std::alloc::Global;

/// The intake, its client, and the end of the client's notes.
#[derive(Drop)]
struct Parts {
    intake: Intake,
    segments: List<Receiver<SegmentNote, SegmentKey>>,
    client: NodeClient,
}

/// A mail of node 0 in epoch 1, with two places for pages and four for words.
fn mail(alloc: Global) -> Result<Mail, Memory> {
    let pages = Room {
        places: 2,
        bytes: 127,
    };
    let words = Room {
        places: 4,
        bytes: 573,
    };
    Mail::make(alloc, NodeId(0), 1, pages, words)
}

/// An intake in which two asks may wait, and 40 traces may be claimed.
fn make_parts(alloc: Global) -> Result<Parts, Memory> {
    let mail = mail(alloc)?;
    let Ok(read) = read_settings(alloc, SETTINGS) else {
        return Err(Memory);
    };
    let limits = ClientLimits {
        node: 0,
        clients: read.clients,
        buffers: read.buffers,
        size: read.size,
        backlog: read.backlog,
        notes: read.backlog,
        calls: 8192,
    };
    let settings = Settings {
        nodes: read.nodes,
        clients: read.clients,
        buffers: read.buffers,
        size: read.size,
        threshold: read.threshold,
        traces: read.traces,
        pins: read.pins,
        stride: 1,
        triggers: read.triggers,
        autos: read.autos,
    };
    let Ok(made) = make_intake(alloc, &settings, &limits, mail, 2, 40) else {
        return Err(Memory);
    };
    parts_of(made)
}

/// The intake with its one client.
fn parts_of(made: MadeIntake) -> Result<Parts, Memory> {
    let MadeIntake {
        intake,
        segments,
        mut clients,
    } = made;
    match clients.pop() {
        Some(client) => Ok(Parts {
            intake,
            segments,
            client,
        }),
        None => Err(Memory),
    }
}

/// One was taken, and no more had come.
const ONE: Took = Took {
    count: 1,
    stop: Stop::Empty,
};

/// Two were taken, and no more had come.
const TWO: Took = Took {
    count: 2,
    stop: Stop::Empty,
};

/// The first group of node 0.
const GROUP: Group = Group {
    id: GroupId { node: 0, number: 0 },
    trigger: ID,
    lead: TRACE,
};

/// How a node may stand to the trace.
fn standing() -> Standing {
    Standing {
        trace: TRACE,
        group: GroupId { node: 0, number: 0 },
        wholeness: Wholeness::Unknown,
        open_segments: 0,
        horizon: 0,
        pages: 1,
        crumbs: NodeSet::none(),
        losses: Losses {
            null_pages: 0,
            full_points: 0,
            dry_points: 0,
            long_points: 0,
            refused_crumbs: 0,
            evicted_crumbs: 0,
            forgotten_crumbs: 0,
            evicted_pages: 0,
            abandoned_pages: 0,
        },
    }
}

/// Whether the message of this number and this kind is offered, with this byte at a place. Then it is handed out.
fn hands_out(intake: &mut Intake, number: u64, kind: u8, place: usize, byte: u8) -> bool {
    is_message(intake.next(), number, kind, place, byte) && intake.sent(number)
}

/// A crumb in a trace and one outside of any, both to node 1.
fn leaves_crumbs(client: &mut NodeClient) -> bool {
    let begun = client.begin(TRACE);
    let left = client.crumb(NodeId(1));
    let ended = client.end();
    let late = client.crumb_of(TraceId(8), NodeId(1));
    let waits = client.flush();
    begun == CallAnswer::Done
        && left == CallAnswer::Done
        && ended == CallAnswer::Done
        && late == CallAnswer::Done
        && waits == 0
}

/// A crumb by either line, and then the trigger of the crumb's trace. What is told names node 1: the low byte of the set is 2.
fn takes_crumbs(parts: &mut Parts) -> bool {
    let left = leaves_crumbs(&mut parts.client);
    let fired = fires(&mut parts.client);
    let crumbs = parts.intake.crumbs_of(0);
    let lates = parts.intake.late_crumbs_of(0);
    let triggers = parts.intake.triggers_of(0);
    left && fired
        && crumbs == ONE
        && lates == ONE
        && triggers.took == ONE
        && triggers.limited == 0
        && hands_out(&mut parts.intake, 0, TOLD, 59, 2)
}

/// The bucket of the id has one token: of two triggers of one moment the first is told, and the second is limited.
fn limits(parts: &mut Parts) -> bool {
    let fired = fires(&mut parts.client) && fires(&mut parts.client);
    let triggers = parts.intake.triggers_of(0);
    fired
        && triggers.took == TWO
        && triggers.limited == 1
        && hands_out(&mut parts.intake, 0, TOLD, 43, 0)
        && parts.intake.next().is_none()
}

/// The one chunk was pinned, and a turn puts it into the hand.
fn pins(parts: &mut Parts) -> bool {
    let recorded = records(&mut parts.client);
    let fired = fires(&mut parts.client);
    let chunks = parts.intake.chunks_of(0);
    let triggers = parts.intake.triggers_of(0);
    let turned = parts.intake.turn();
    recorded
        && fired
        && chunks == ONE
        && triggers.took == ONE
        && turned == Turned::Done
        && parts.intake.in_hand() == 1
}

/// It leaves as reported: page 0 of core 0 of client 0. Its page is posted, and the pool takes its buffer.
fn gives(parts: &mut Parts) -> bool {
    let pinned = pins(parts);
    let handed = parts.intake.hand_out();
    pinned
        && handed
            == Handed::Offered {
                parted: Some(PartedChunk {
                    trace: TRACE,
                    client: 0,
                    core: 0,
                    page: 0,
                    left: Left::Reported(GROUP),
                    unposted: None,
                }),
                is_given: true,
            }
        && parts.intake.hand_out() == Handed::Empty
        && parts.intake.in_hand() == 0
}

/// A standing is said once, and the group is forgotten when both of its messages are acknowledged.
fn states(parts: &mut Parts) -> bool {
    let fired = fires(&mut parts.client);
    let triggers = parts.intake.triggers_of(0);
    let said = parts.intake.state(&standing());
    let known = parts.intake.state(&standing());
    parts.intake.look_on();
    let claimed = parts.intake.claims().len() == 1;
    let early = parts.intake.forget_oldest();
    fired
        && triggers.took == ONE
        && said == Stated::Said
        && known == Stated::Known
        && claimed
        && !early
        && hands_out(&mut parts.intake, 0, TOLD, 43, 0)
        && hands_out(&mut parts.intake, 1, STANDING, 42, 3)
        && forgets(&mut parts.intake)
}

fn forgets(intake: &mut Intake) -> bool {
    let told = intake.acknowledged(0);
    let stated = intake.acknowledged(1);
    let forgotten = intake.forget_oldest();
    told && stated && forgotten && intake.claims().len() == 0
}

/// An ask waits, and is answered (why 1). Nothing waits at the front, and nothing waits to be said.
fn answers(parts: &mut Parts) -> bool {
    let delivered = parts.intake.deliver(&ASK);
    let free = parts.intake.take_back();
    let took = parts.intake.take_asks();
    parts.intake.say();
    delivered == AskDelivered::Taken
        && free
        && took == ONE
        && hands_out(&mut parts.intake, 0, TOLD, 43, 1)
        && parts.intake.next().is_none()
}

/// A hello has the number 0, and the length of its name at place 52. It is offered again until it is acknowledged.
fn carries(parts: &mut Parts) -> bool {
    let said = parts.intake.hello(&Hello {
        digest: [7; 32],
        name: b"n0",
    });
    let handed = hands_out(&mut parts.intake, 0, HELLO, 52, 2);
    parts.intake.again();
    let again = hands_out(&mut parts.intake, 0, HELLO, 52, 2);
    let gone = parts.intake.acknowledged(0);
    parts.intake.again();
    said == Ok(0) && handed && again && gone && parts.intake.next().is_none()
}

/// The note of a begin is received by the number of its client, once.
fn receives(parts: &mut Parts) -> bool {
    let begun = parts.client.begin(TRACE);
    let waits = parts.client.flush();
    let note = next_note(&mut parts.segments);
    let none = next_note(&mut parts.segments).is_none();
    begun == CallAnswer::Done && waits == 0 && none && is_begin(&note)
}

/// The next note of client 0.
fn next_note(segments: &mut List<Receiver<SegmentNote, SegmentKey>>) -> Option<SegmentNote> {
    if segments.len() == 0 {
        return None;
    }
    receive_at(segments, 0)
}

fn is_begin(note: &Option<SegmentNote>) -> bool {
    match note {
        Some(segment) => {
            segment.number == 0
                && segment.trace == TRACE
                && matches!(segment.state, SegmentState::Opened)
        }
        None => false,
    }
}

/// What is looked at.
#[derive(Clone, Copy)]
enum Row {
    TakesCrumbs,
    Limits,
    Gives,
    States,
    Answers,
    Carries,
    Receives,
}

/// Makes an intake for a row. One function makes those of all rows, since its proof grows with what it lets go.
fn with_intake(alloc: Global, row: Row) -> Result<bool, Memory> {
    let mut parts = make_parts(alloc)?;
    Ok(match row {
        Row::TakesCrumbs => takes_crumbs(&mut parts),
        Row::Limits => limits(&mut parts),
        Row::Gives => gives(&mut parts),
        Row::States => states(&mut parts),
        Row::Answers => answers(&mut parts),
        Row::Carries => carries(&mut parts),
        Row::Receives => receives(&mut parts),
    })
}

#[test]
fn an_intake(rt: HostRuntime) {
    let alloc = rt.alloc();
    row(&rt, "takes crumbs", with_intake(alloc, Row::TakesCrumbs));
    row(&rt, "limits", with_intake(alloc, Row::Limits));
    row(&rt, "gives", with_intake(alloc, Row::Gives));
    row(&rt, "states", with_intake(alloc, Row::States));
    row(&rt, "answers", with_intake(alloc, Row::Answers));
    row(&rt, "carries", with_intake(alloc, Row::Carries));
    row(&rt, "receives", with_intake(alloc, Row::Receives));
}
