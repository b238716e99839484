//! Rows of the calls of a client.

use crate::made::{Ends, ID, LEAST, make_ends};
use crate::rows::row;
use hs_base::{Crumb, Laterals, NodeId, NodeSet, TraceId, Trigger, TriggerId};
use hs_node_client::{CallAnswer, ClientLimits, MakeFault, NodeClient, PointAnswer, SegmentState};
use std::alloc::Global;

/// As much as a page of 64 bytes holds.
const FULL: [u8; 30] = [7; 30];

/// More than two pieces of pages of 64 bytes.
const THREE_PIECES: [u8; 61] = [7; 61];

/// A trigger of this id.
fn trigger_of(id: TriggerId) -> Trigger {
    Trigger {
        moment: 9,
        trigger: id,
        lead: TraceId(1),
        laterals: Laterals::none(),
    }
}

/// Whether the answers of a trace with one of everything are all `Done`.
fn does_all(client: &mut NodeClient) -> bool {
    let begun = client.begin(TraceId(1));
    let pointed = client.point(5, b"login");
    let left = client.crumb(NodeId(1));
    let late = client.crumb_of(TraceId(7), NodeId(0));
    let fired = client.trigger(&trigger_of(ID));
    let sampled = client.sample(6, 0, 1);
    let ended = client.end();
    is_done(begun)
        && is_done(pointed)
        && is_done(left)
        && is_done(late)
        && is_done(fired)
        && is_done(sampled)
        && is_done(ended)
}

fn is_done(called: CallAnswer) -> bool {
    matches!(called, CallAnswer::Done)
}

/// Whether the late crumb came, and the notes that the segment begins, and where that crumb led. The note of the end found no place.
fn comes(ends: &mut Ends) -> bool {
    let late = ends.late.receive();
    let opened = next_note(ends);
    let led = next_led(ends);
    late == Some(Crumb {
        trace: TraceId(7),
        node: NodeId(0),
    }) && opened == Some((0, None))
        && led == Some((1, TraceId(7), NodeSet(1)))
        && ends.client.counts().dropped_notes == 1
}

/// The number and the trace of the next note, and the nodes, if it is that of a crumb that led on: bit n stands for node n.
fn next_led(ends: &mut Ends) -> Option<(u64, TraceId, NodeSet)> {
    ends.client.flush();
    let note = ends.segments.receive()?;
    match note.state {
        SegmentState::Opened | SegmentState::Closed(_) | SegmentState::Refused => None,
        SegmentState::Led(nodes) => Some((note.number, note.trace, nodes)),
    }
}

/// The nodes to which crumbs of a segment led, of which the next note says that it ends.
fn next_nodes(ends: &mut Ends) -> Option<NodeSet> {
    ends.client.flush();
    match ends.segments.receive()?.state {
        SegmentState::Opened | SegmentState::Refused | SegmentState::Led(_) => None,
        SegmentState::Closed(counts) => Some(counts.crumbs),
    }
}

/// The number of the next note, with its points if it is that of an end.
fn next_note(ends: &mut Ends) -> Option<(u64, Option<u32>)> {
    ends.client.flush();
    let note = ends.segments.receive()?;
    match note.state {
        SegmentState::Opened => Some((note.number, None)),
        SegmentState::Closed(counts) => Some((note.number, Some(counts.points))),
        SegmentState::Refused | SegmentState::Led(_) => Some((note.number, None)),
    }
}

/// The number of the next note, and the trace of which a crumb was refused, if it is of one.
fn next_refused(ends: &mut Ends) -> Option<(u64, Option<TraceId>)> {
    ends.client.flush();
    let note = ends.segments.receive()?;
    match note.state {
        SegmentState::Opened | SegmentState::Closed(_) | SegmentState::Led(_) => {
            Some((note.number, None))
        }
        SegmentState::Refused => Some((note.number, Some(note.trace))),
    }
}

/// The core and the page that the next note names.
fn next_place(ends: &mut Ends) -> Option<(u64, u32)> {
    ends.client.flush();
    let note = ends.segments.receive()?;
    Some((note.core, note.page))
}

/// What is looked at.
#[derive(Clone, Copy)]
enum Row {
    Everything,
    NoTrace,
    Unknown,
    Open,
    ThreePieces,
    ThirdTrigger,
    Renewals,
    Gap,
    Pages,
    NextCore,
    ThirdCrumb,
    Nodes,
    Told,
    Dry,
}

/// Whether a row comes out as wanted with a client that did nothing.
fn comes_out(ends: &mut Ends, row: Row) -> bool {
    match row {
        Row::Everything => does_all(&mut ends.client) && comes(ends),
        Row::NoTrace => finds_no_trace(&mut ends.client),
        Row::Unknown => finds_nothing(&mut ends.client),
        Row::Open => finds_a_trace(&mut ends.client),
        Row::ThreePieces => finds_no_place(&mut ends.client),
        Row::ThirdTrigger => drops_a_trigger(&mut ends.client),
        Row::Renewals => traces(&mut ends.client, 10_000) == 0,
        Row::Gap => leaves_a_gap(ends),
        Row::Pages => names_pages(ends),
        Row::NextCore => names_the_next_core(ends),
        Row::ThirdCrumb => notes_a_refused_crumb(ends),
        Row::Nodes => names_its_nodes(ends),
        Row::Told => tells_of_no_point(&mut ends.client),
        Row::Dry => finds_the_pool_dry(&mut ends.client),
    }
}

/// Makes a client for a row. One function makes those of all rows, since its proof grows with what it lets go.
fn with_client(alloc: Global, row: Row) -> Result<bool, MakeFault> {
    let mut ends = make_ends(alloc, &LEAST)?;
    Ok(comes_out(&mut ends, row))
}

fn finds_no_trace(client: &mut NodeClient) -> bool {
    let pointed = client.point(5, b"login");
    let left = client.crumb(NodeId(1));
    let sampled = client.sample(6, 0, 1);
    let ended = client.end();
    pointed == CallAnswer::NoTrace
        && left == CallAnswer::NoTrace
        && sampled == CallAnswer::NoTrace
        && ended == CallAnswer::NoTrace
        && client.counts().stray_points == 1
}

fn finds_nothing(client: &mut NodeClient) -> bool {
    let left = client.crumb(NodeId(2));
    let late = client.crumb_of(TraceId(7), NodeId(2));
    let fired = client.trigger(&trigger_of(TriggerId(4)));
    let sampled = client.sample(6, 1, 1);
    left == CallAnswer::Unknown
        && late == CallAnswer::Unknown
        && fired == CallAnswer::Unknown
        && sampled == CallAnswer::Unknown
}

fn finds_a_trace(client: &mut NodeClient) -> bool {
    let first = client.begin(TraceId(1));
    let second = client.begin(TraceId(2));
    is_done(first) && second == CallAnswer::AlreadyOpen && client.trace() == Some(TraceId(1))
}

/// The outbox has one place, and the point asks for three.
fn finds_no_place(client: &mut NodeClient) -> bool {
    let begun = client.begin(TraceId(1));
    let full = client.point(1, &THREE_PIECES);
    let counts = client.counts();
    is_done(begun) && full == CallAnswer::Full && counts.full_points == 1 && counts.points == 0
}

/// A point that is not done tells why.
fn tells_of_no_point(client: &mut NodeClient) -> bool {
    let stray = client.point_told(1, b"login");
    let begun = client.begin(TraceId(1));
    let full = client.point_told(1, &THREE_PIECES);
    is_done(begun) && stray == PointAnswer::NoTrace && full == PointAnswer::Full
}

/// So many points of five bytes, of which each page of 64 bytes takes two: its header has 24, and each piece 10 beside its payload. How many were
/// not done with a buffer.
fn points(client: &mut NodeClient, count: u32) -> u32 {
    let mut others = 0u32;
    for _ in 0..count {
        let pointed = client.point_told(5, b"login");
        if pointed != PointAnswer::Done {
            others = others.saturating_add(1);
        }
    }
    others
}

/// The pool has two buffers, which four points fill. The fifth begins the third page and finds it empty. The sixth goes to the same page.
fn finds_the_pool_dry(client: &mut NodeClient) -> bool {
    let begun = client.begin(TraceId(1));
    let others = points(client, 4);
    let fifth = client.point_told(5, b"login");
    let sixth = client.point_told(5, b"login");
    let counts = client.counts();
    is_done(begun)
        && others == 0
        && fifth == PointAnswer::Dry
        && sixth == PointAnswer::Done
        && counts.points == 6
        && counts.null_pages == 1
}

/// With places for its chunks, a point of three pieces finds two buffers, and none for the third. Who does not ask is answered that it was done.
fn lacks_the_last(client: &mut NodeClient) -> bool {
    let begun = client.begin(TraceId(1));
    let pointed = client.point_told(1, &THREE_PIECES);
    let more = client.point(2, &FULL);
    is_done(begun)
        && pointed == PointAnswer::Dry
        && is_done(more)
        && client.counts().null_pages == 2
}

fn with_places(alloc: Global) -> Result<bool, MakeFault> {
    let limits = ClientLimits {
        backlog: 4,
        ..LEAST
    };
    let mut ends = make_ends(alloc, &limits)?;
    Ok(lacks_the_last(&mut ends.client))
}

/// One trigger lies in the ring and one waits.
fn drops_a_trigger(client: &mut NodeClient) -> bool {
    let first = client.trigger(&trigger_of(ID));
    let second = client.trigger(&trigger_of(ID));
    let third = client.trigger(&trigger_of(ID));
    is_done(first)
        && is_done(second)
        && third == CallAnswer::Full
        && client.counts().refused_triggers == 1
}

/// How many of so many traces without a point were not begun and ended. A core counts 8,192 calls, and 10,000 traces are 20,000.
fn traces(client: &mut NodeClient, count: u32) -> u32 {
    let mut others = 0u32;
    for number in 0..count {
        let begun = client.begin(TraceId(u128::from(number)));
        let ended = client.end();
        if !is_done(begun) || !is_done(ended) {
            others = others.saturating_add(1);
        }
    }
    others
}

/// The notes 0 and 1 find a place. Those of the second trace are dropped, and the third trace begins with the number 4.
fn leaves_a_gap(ends: &mut Ends) -> bool {
    let others = traces(&mut ends.client, 2);
    let first = next_note(ends);
    let second = next_note(ends);
    let begun = ends.client.begin(TraceId(9));
    let third = next_note(ends);
    others == 0
        && is_done(begun)
        && first == Some((0, None))
        && second == Some((1, Some(0)))
        && third == Some((4, None))
        && ends.client.counts().dropped_notes == 2
}

/// Whether the answers of a trace with so many points, each of which fills a page, are all `Done`.
fn fills(client: &mut NodeClient, pages: u32) -> bool {
    let mut done = is_done(client.begin(TraceId(1)));
    for _ in 0..pages {
        let pointed = client.point(5, &FULL);
        done = done && is_done(pointed);
    }
    let ended = client.end();
    done && is_done(ended)
}

/// The first segment has the pages 0 and 1, and the second begins behind them.
fn names_pages(ends: &mut Ends) -> bool {
    let done = fills(&mut ends.client, 2);
    let opened = next_place(ends);
    let closed = next_place(ends);
    let begun = ends.client.begin(TraceId(2));
    let behind = next_place(ends);
    done && is_done(begun)
        && opened == Some((0, 0))
        && closed == Some((0, 2))
        && behind == Some((0, 2))
}

/// A core counts 8,192 calls, and a begin renews it where fewer than half are left. The first trace takes three calls, and 2,047 more take
/// 4,094. So the next begin brings the core 1, whose pages count from 0.
fn names_the_next_core(ends: &mut Ends) -> bool {
    let done = fills(&mut ends.client, 1);
    let opened = next_place(ends);
    let closed = next_place(ends);
    let others = traces(&mut ends.client, 2047);
    let third = next_place(ends);
    let fourth = next_place(ends);
    let begun = ends.client.begin(TraceId(9));
    let renewed = next_place(ends);
    done && others == 0
        && is_done(begun)
        && opened == Some((0, 0))
        && closed == Some((0, 1))
        && third == Some((0, 1))
        && fourth == Some((0, 1))
        && renewed == Some((1, 0))
}

/// A crumb leads to the node 1 and one to the node 0, which are the bits 1 and 0 of the set. The note of the end has it.
fn names_its_nodes(ends: &mut Ends) -> bool {
    let begun = ends.client.begin(TraceId(1));
    let first = ends.client.crumb(NodeId(1));
    let second = ends.client.crumb(NodeId(0));
    let ended = ends.client.end();
    let opened = next_note(ends);
    let nodes = next_nodes(ends);
    is_done(begun)
        && is_done(first)
        && is_done(second)
        && is_done(ended)
        && opened == Some((0, None))
        && nodes == Some(NodeSet(3))
}

/// One crumb lies in the ring and one waits, and it is noted where each led. The third is refused, and this is noted with the next number.
fn notes_a_refused_crumb(ends: &mut Ends) -> bool {
    let first = ends.client.crumb_of(TraceId(7), NodeId(0));
    let second = ends.client.crumb_of(TraceId(8), NodeId(1));
    let led = next_led(ends);
    let too = next_led(ends);
    let third = ends.client.crumb_of(TraceId(9), NodeId(1));
    let noted = next_refused(ends);
    let begun = ends.client.begin(TraceId(1));
    let opened = next_refused(ends);
    is_done(first)
        && is_done(second)
        && third == CallAnswer::Full
        && is_done(begun)
        && led == Some((0, TraceId(7), NodeSet(1)))
        && too == Some((1, TraceId(8), NodeSet(2)))
        && noted == Some((2, Some(TraceId(9))))
        && opened == Some((3, None))
        && ends.client.counts().refused_crumbs == 1
}

/// A pool without a buffer is a fault.
fn no_buffer(alloc: Global) -> Result<bool, MakeFault> {
    let limits = ClientLimits {
        buffers: 0,
        ..LEAST
    };
    match make_ends(alloc, &limits) {
        Ok(_) => Ok(false),
        Err(fault) => Ok(fault == MakeFault::Buffers),
    }
}

#[test]
fn calls(rt: HostRuntime) {
    let alloc = rt.alloc();
    row(&rt, "everything", with_client(alloc, Row::Everything));
    row(&rt, "no trace", with_client(alloc, Row::NoTrace));
    row(&rt, "unknown", with_client(alloc, Row::Unknown));
    row(&rt, "open", with_client(alloc, Row::Open));
    row(&rt, "three pieces", with_client(alloc, Row::ThreePieces));
    row(&rt, "third trigger", with_client(alloc, Row::ThirdTrigger));
    row(&rt, "renewals", with_client(alloc, Row::Renewals));
    row(&rt, "gap", with_client(alloc, Row::Gap));
    row(&rt, "pages", with_client(alloc, Row::Pages));
    row(&rt, "next core", with_client(alloc, Row::NextCore));
    row(&rt, "third crumb", with_client(alloc, Row::ThirdCrumb));
    row(&rt, "nodes", with_client(alloc, Row::Nodes));
    row(&rt, "told", with_client(alloc, Row::Told));
    row(&rt, "dry", with_client(alloc, Row::Dry));
    row(&rt, "three pieces, two buffers", with_places(alloc));
    row(&rt, "no buffer", no_buffer(alloc));
}
