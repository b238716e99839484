//! What a node says of how whole a trace is: with two clients and two traces at a time, over segments that end or do not, gaps, losses,
//! and traces that are forgotten.

use crate::rows::row;
use hs_base::{GroupId, Memory, NodeSet, TraceId};
use hs_whole::{Loss, MakeFault, NoteLimits, NoteOutcome, PageName, SegmentNotes, SegmentReport};
use hs_wire::{Losses, Standing, Wholeness};
use std::alloc::Global;

const SEVEN: TraceId = TraceId(7);

const EIGHT: TraceId = TraceId(8);

const NINE: TraceId = TraceId(9);

/// A segment that sent so many pages.
fn sent(pages: u32) -> SegmentReport {
    SegmentReport {
        pages,
        null_pages: 0,
        full_points: 0,
        dry_points: 0,
        long_points: 0,
        spent_points: 0,
        refused_crumbs: 0,
        crumbs: NodeSet(0),
    }
}

/// A page of core 0.
fn page(page: u32) -> PageName {
    PageName { core: 0, page }
}

/// No notes, of two clients and two traces at a time.
fn none(alloc: Global) -> Result<SegmentNotes, Memory> {
    match SegmentNotes::make(
        alloc,
        NoteLimits {
            clients: 2,
            traces: 2,
        },
    ) {
        Ok(notes) => Ok(notes),
        Err(_) => Err(Memory),
    }
}

fn standing(notes: &SegmentNotes, trace: TraceId) -> Standing {
    notes.standing(trace, GroupId { node: 3, number: 4 })
}

/// Whether this is said of the trace, with so many open segments and this horizon.
fn says(
    notes: &SegmentNotes,
    trace: TraceId,
    wholeness: Wholeness,
    segments: u32,
    horizon: u64,
) -> bool {
    let standing = standing(notes, trace);
    standing.trace == trace
        && standing.group == GroupId { node: 3, number: 4 }
        && standing.wholeness == wholeness
        && standing.open_segments == segments
        && standing.horizon == horizon
}

/// Client 0's segment of trace 9 sent two pages, and both are handed out.
fn whole_nine(alloc: Global) -> Result<SegmentNotes, Memory> {
    let mut notes = none(alloc)?;
    notes.opened(0, 0, NINE, page(0))?;
    notes.closed(0, 1, NINE, page(2), &sent(2))?;
    notes.handed_out(NINE, 0, page(0));
    notes.handed_out(NINE, 0, page(1));
    Ok(notes)
}

fn in_order(alloc: Global) -> Result<bool, Memory> {
    let mut notes = none(alloc)?;
    let unheard = says(&notes, NINE, Wholeness::UnheardSince, 0, 0);
    let opened = notes.opened(0, 0, NINE, page(0))?;
    let open = says(&notes, NINE, Wholeness::Open, 1, 0);
    let closed = notes.closed(0, 1, NINE, page(2), &sent(2))?;
    let unknown = says(&notes, NINE, Wholeness::Unknown, 0, 0);
    notes.handed_out(NINE, 0, page(1));
    notes.handed_out(EIGHT, 0, page(0));
    let one_out = says(&notes, NINE, Wholeness::Unknown, 0, 0);
    notes.handed_out(NINE, 0, page(0));
    Ok(
        unheard
            && opened == NoteOutcome::Kept
            && open
            && closed == NoteOutcome::Kept
            && unknown
            && one_out
            && standing(&notes, NINE).pages == 2
            && says(&notes, NINE, Wholeness::WholeSince, 0, 0)
            && notes.heard() == 1
            && notes.len() == 1,
    )
}

/// Client 1's first note has number 3, so the horizon moves to the one segment that was heard before.
fn gap_elsewhere(alloc: Global) -> Result<bool, Memory> {
    let mut notes = whole_nine(alloc)?;
    notes.opened(1, 3, EIGHT, page(4))?;
    Ok(
        says(&notes, NINE, Wholeness::WholeSince, 0, 1)
            && says(&notes, EIGHT, Wholeness::Open, 1, 1)
            && notes.heard() == 2,
    )
}

/// Client 0's note 1 is missed: the end of its segment of trace 9 may have been.
fn gap_here(alloc: Global) -> Result<bool, Memory> {
    let mut notes = none(alloc)?;
    notes.opened(0, 0, NINE, page(0))?;
    notes.opened(0, 2, EIGHT, page(2))?;
    let unknown = says(&notes, NINE, Wholeness::Unknown, 0, 1);
    notes.closed(0, 3, EIGHT, page(2), &sent(0))?;
    Ok(unknown && says(&notes, EIGHT, Wholeness::WholeSince, 0, 1))
}

/// Both clients have a segment of trace 9, and only one ends. The end of the other comes with the greatest number.
fn two_clients(alloc: Global) -> Result<bool, Memory> {
    let mut notes = none(alloc)?;
    notes.opened(0, 0, NINE, page(0))?;
    notes.opened(1, 0, NINE, page(0))?;
    let both = says(&notes, NINE, Wholeness::Open, 2, 0);
    notes.closed(0, 1, NINE, page(0), &sent(0))?;
    let one = says(&notes, NINE, Wholeness::Open, 1, 0);
    notes.closed(1, u64::MAX, NINE, page(0), &sent(0))?;
    Ok(both && one && says(&notes, NINE, Wholeness::Unknown, 0, 2))
}

/// With a third trace the one whose note is oldest is forgotten, and the horizon moves behind its one segment. Then trace 8 is
/// forgotten behind its segment, the second that was heard, since the one of trace 7 is open.
fn forgotten(alloc: Global) -> Result<bool, Memory> {
    let mut notes = whole_nine(alloc)?;
    notes.opened(1, 0, EIGHT, page(0))?;
    notes.opened(0, 2, SEVEN, page(2))?;
    let gone = says(&notes, NINE, Wholeness::UnheardSince, 0, 1) && notes.kept(NINE).is_none();
    notes.closed(1, 1, EIGHT, page(0), &sent(0))?;
    notes.opened(1, 2, NINE, page(0))?;
    Ok(
        gone && says(&notes, SEVEN, Wholeness::Open, 1, 2)
            && says(&notes, EIGHT, Wholeness::UnheardSince, 0, 2)
            && says(&notes, NINE, Wholeness::Open, 1, 2)
            && notes.heard() == 4
            && notes.len() == 2,
    )
}

/// Client 0's segment of trace 9 sent two pages, one of which is handed out, and client 1 has a segment of trace 8.
fn full(alloc: Global) -> Result<SegmentNotes, Memory> {
    let mut notes = none(alloc)?;
    notes.opened(0, 0, NINE, page(0))?;
    notes.closed(0, 1, NINE, page(2), &sent(2))?;
    notes.handed_out(NINE, 0, page(0));
    notes.opened(1, 0, EIGHT, page(0))?;
    Ok(notes)
}

/// A page of trace 9 is to come and a segment of trace 8 is open, so that a third trace finds no place: its note is missed.
fn no_place(alloc: Global) -> Result<bool, Memory> {
    let mut notes = full(alloc)?;
    let answer = notes.opened(0, 2, SEVEN, page(2))?;
    Ok(
        answer == NoteOutcome::Full
            && says(&notes, NINE, Wholeness::Unknown, 0, 2)
            && says(&notes, EIGHT, Wholeness::Open, 1, 2)
            && says(&notes, SEVEN, Wholeness::UnheardSince, 0, 2)
            && notes.heard() == 2,
    )
}

/// Once the page has left, the trace finds a place.
fn place_again(alloc: Global) -> Result<bool, Memory> {
    let mut notes = full(alloc)?;
    notes.opened(0, 2, SEVEN, page(2))?;
    notes.lost(NINE, Loss::EvictedPages, 1);
    let answer = notes.opened(0, 2, SEVEN, page(2))?;
    Ok(
        answer == NoteOutcome::Kept
            && says(&notes, NINE, Wholeness::UnheardSince, 0, 2)
            && says(&notes, EIGHT, Wholeness::Open, 1, 2)
            && says(&notes, SEVEN, Wholeness::Open, 1, 2),
    )
}

/// The end of a segment whose begin was missed: its trace is doubtful, and its pages count for nothing.
fn ends_unheard(alloc: Global) -> Result<bool, Memory> {
    let mut notes = none(alloc)?;
    notes.closed(0, 1, NINE, page(3), &sent(3))?;
    let doubtful = says(&notes, NINE, Wholeness::Unknown, 0, 0);
    notes.opened(1, 0, EIGHT, page(0))?;
    let answer = notes.opened(0, 2, SEVEN, page(3))?;
    Ok(doubtful && answer == NoteOutcome::Kept && notes.kept(NINE).is_none())
}

/// Nothing lost but what is named.
const NONE_LOST: Losses = Losses {
    null_pages: 0,
    full_points: 0,
    dry_points: 0,
    long_points: 0,
    refused_crumbs: 0,
    evicted_crumbs: 0,
    forgotten_crumbs: 0,
    evicted_pages: 0,
    abandoned_pages: 0,
};

const LOST_BY_AGENT: Losses = Losses {
    evicted_crumbs: u64::MAX,
    forgotten_crumbs: 2,
    evicted_pages: 1,
    abandoned_pages: 1,
    ..NONE_LOST
};

const LOST_BY_CLIENT: Losses = Losses {
    null_pages: 1,
    full_points: 2,
    dry_points: 3,
    long_points: 4,
    refused_crumbs: 6,
    ..NONE_LOST
};

/// A loss of no page, and one of a trace that is not kept, change nothing.
fn lost_nothing(alloc: Global) -> Result<bool, Memory> {
    let mut notes = whole_nine(alloc)?;
    notes.lost(NINE, Loss::EvictedPages, 0);
    notes.lost(EIGHT, Loss::EvictedPages, 1);
    Ok(says(&notes, NINE, Wholeness::WholeSince, 0, 0) && notes.len() == 1)
}

/// Two pages and crumbs go.
fn lost(alloc: Global) -> Result<bool, Memory> {
    let mut notes = whole_nine(alloc)?;
    notes.lost(NINE, Loss::EvictedPages, 1);
    notes.lost(NINE, Loss::AbandonedPages, 1);
    notes.lost(NINE, Loss::EvictedCrumbs, u64::MAX);
    notes.lost(NINE, Loss::EvictedCrumbs, 1);
    notes.lost(NINE, Loss::ForgottenCrumbs, 2);
    let said = standing(&notes, NINE);
    Ok(said.wholeness == Wholeness::Lost && said.losses == LOST_BY_AGENT && said.pages == 2)
}

/// What a segment says of its losses.
const REPORT: SegmentReport = SegmentReport {
    pages: 0,
    null_pages: 1,
    full_points: 2,
    dry_points: 3,
    long_points: 4,
    spent_points: 5,
    refused_crumbs: 6,
    crumbs: NodeSet(0),
};

/// A segment's own losses are counted by cause.
fn reported(alloc: Global) -> Result<bool, Memory> {
    let mut notes = none(alloc)?;
    notes.opened(0, 0, NINE, page(0))?;
    notes.closed(0, 1, NINE, page(1), &REPORT)?;
    let said = standing(&notes, NINE);
    Ok(said.wholeness == Wholeness::Lost && said.losses == LOST_BY_CLIENT && said.pages == 0)
}

/// Points that were refused since numbers ended are a loss that has no count.
fn spent(alloc: Global) -> Result<bool, Memory> {
    let mut notes = none(alloc)?;
    let report = SegmentReport {
        spent_points: 1,
        ..sent(0)
    };
    notes.opened(0, 0, NINE, page(0))?;
    notes.closed(0, 1, NINE, page(0), &report)?;
    let said = standing(&notes, NINE);
    Ok(said.wholeness == Wholeness::Lost && said.losses == NONE_LOST)
}

/// Crumbs of the segment led to the nodes 0 and 2, which are the bits 0 and 2 of the set, and one outside of it to node 1. Nothing is lost.
fn led(alloc: Global) -> Result<bool, Memory> {
    let mut notes = none(alloc)?;
    let report = SegmentReport {
        crumbs: NodeSet(5),
        ..sent(0)
    };
    notes.opened(0, 0, NINE, page(0))?;
    notes.closed(0, 1, NINE, page(0), &report)?;
    notes.led(0, 2, NINE, NodeSet(2))?;
    let whole = says(&notes, NINE, Wholeness::WholeSince, 0, 0);
    let said = (
        standing(&notes, NINE).crumbs,
        standing(&notes, EIGHT).crumbs,
    );
    Ok(whole && notes.crumbs(NINE) == NodeSet(7) && said == (NodeSet(7), NodeSet(0)))
}

/// Where a crumb of trace 8 led to node 1 no segment of it was heard. Then it has one.
fn led_before(alloc: Global) -> Result<bool, Memory> {
    let mut notes = none(alloc)?;
    let kept = notes.led(0, 0, EIGHT, NodeSet(2))?;
    let unheard = says(&notes, EIGHT, Wholeness::UnheardSince, 0, 0);
    notes.opened(0, 1, EIGHT, page(0))?;
    notes.closed(0, 2, EIGHT, page(0), &sent(0))?;
    let whole = says(&notes, EIGHT, Wholeness::WholeSince, 0, 0);
    Ok(kept == NoteOutcome::Kept && unheard && whole && notes.crumbs(EIGHT) == NodeSet(2))
}

/// There is no client 2, so that a note of it is a missed one.
fn refused(alloc: Global) -> Result<bool, Memory> {
    let mut notes = whole_nine(alloc)?;
    let opened = notes.opened(2, 0, EIGHT, page(0))?;
    let closed = notes.closed(u16::MAX, 1, EIGHT, page(0), &sent(0))?;
    Ok(
        opened == NoteOutcome::Refused
            && closed == NoteOutcome::Refused
            && says(&notes, NINE, Wholeness::WholeSince, 0, 1)
            && notes.kept(EIGHT).is_none(),
    )
}

/// Notes of so many clients and traces.
fn with_limits(alloc: Global, clients: u16, traces: u32) -> Result<SegmentNotes, MakeFault> {
    SegmentNotes::make(alloc, NoteLimits { clients, traces })
}

/// No trace, and one client more than there may be.
fn limits(alloc: Global) -> bool {
    matches!(with_limits(alloc, 2, 0), Err(MakeFault::Limits))
        && matches!(with_limits(alloc, 257, 1), Err(MakeFault::Limits))
}

/// What the last client's first note becomes, where there are so many clients.
fn first_note(alloc: Global, clients: u16, client: u16) -> Result<NoteOutcome, Memory> {
    let Ok(mut notes) = with_limits(alloc, clients, 1) else {
        return Err(Memory);
    };
    notes.opened(client, 0, NINE, page(0))
}

/// As many clients as there may be, and none.
fn at_limits(alloc: Global) -> Result<bool, Memory> {
    let most = first_note(alloc, 256, 255)?;
    let least = first_note(alloc, 0, 0)?;
    Ok(most == NoteOutcome::Kept && least == NoteOutcome::Refused)
}

/// Pages that are handed out while their segment is open count.
fn while_open(alloc: Global) -> Result<bool, Memory> {
    let mut notes = none(alloc)?;
    notes.opened(0, 0, NINE, page(0))?;
    notes.handed_out(NINE, 0, page(1));
    notes.handed_out(NINE, 0, page(0));
    let open = says(&notes, NINE, Wholeness::Open, 1, 0);
    notes.closed(0, 1, NINE, page(2), &sent(2))?;
    Ok(open && says(&notes, NINE, Wholeness::WholeSince, 0, 0))
}

/// Page 2 is handed out while the segment is open, so that it cannot end behind page 1.
fn beyond_the_end(alloc: Global) -> Result<bool, Memory> {
    let mut notes = none(alloc)?;
    notes.opened(0, 0, NINE, page(0))?;
    notes.handed_out(NINE, 0, page(2));
    notes.handed_out(NINE, 0, page(0));
    notes.closed(0, 1, NINE, page(2), &sent(2))?;
    Ok(says(&notes, NINE, Wholeness::Unknown, 0, 1) && standing(&notes, NINE).pages == 2)
}

/// A page behind the end of the last segment, and one of the open segment of another trace, were not heard of.
fn not_heard_of(alloc: Global) -> Result<bool, Memory> {
    let mut notes = whole_nine(alloc)?;
    notes.opened(0, 2, EIGHT, page(2))?;
    notes.handed_out(NINE, 0, page(2));
    notes.closed(0, 3, EIGHT, page(2), &sent(0))?;
    let nine = says(&notes, NINE, Wholeness::Unknown, 0, 0) && standing(&notes, NINE).pages == 3;
    notes.handed_out(EIGHT, 0, page(2));
    Ok(nine && says(&notes, EIGHT, Wholeness::Unknown, 0, 0) && standing(&notes, EIGHT).pages == 1)
}

/// The next core numbers its pages from 0 again, and pages of both count.
fn next_core(alloc: Global) -> Result<bool, Memory> {
    let mut notes = full(alloc)?;
    notes.closed(1, 1, EIGHT, page(0), &sent(0))?;
    let first = PageName { core: 1, page: 0 };
    notes.opened(0, 2, NINE, first)?;
    notes.handed_out(NINE, 0, first);
    notes.handed_out(NINE, 0, page(1));
    notes.closed(0, 3, NINE, PageName { core: 1, page: 1 }, &sent(1))?;
    Ok(says(&notes, NINE, Wholeness::WholeSince, 0, 0) && standing(&notes, NINE).pages == 3)
}

/// Two notes of client 0 are missed, so that its pages before that are not heard of any more; those of the next segment are.
fn before_a_gap(alloc: Global) -> Result<bool, Memory> {
    let mut notes = full(alloc)?;
    notes.closed(1, 1, EIGHT, page(0), &sent(0))?;
    notes.opened(0, 4, EIGHT, page(6))?;
    notes.handed_out(NINE, 0, page(1));
    notes.handed_out(EIGHT, 0, page(6));
    notes.closed(0, 5, EIGHT, page(7), &sent(1))?;
    let nine = says(&notes, NINE, Wholeness::Unknown, 0, 2) && standing(&notes, NINE).pages == 2;
    Ok(nine && says(&notes, EIGHT, Wholeness::WholeSince, 0, 2))
}

/// A page of a client that is not there was not heard of.
fn no_client(alloc: Global) -> Result<bool, Memory> {
    let mut notes = whole_nine(alloc)?;
    notes.handed_out(NINE, 2, page(0));
    Ok(says(&notes, NINE, Wholeness::Unknown, 0, 0) && standing(&notes, NINE).pages == 3)
}

/// So many pages of trace 9 are handed out, from the first on.
fn hand_out(notes: &mut SegmentNotes, client: u16, pages: u32) {
    for number in 0..pages {
        notes.handed_out(NINE, client, page(number));
    }
}

/// A client has so many segments of trace 8, one after another, and sends no page.
fn segments(notes: &mut SegmentNotes, client: u16, count: u32) -> Result<(), Memory> {
    for segment in 0..count {
        let number = 2 * u64::from(segment);
        notes.opened(client, number, EIGHT, page(0))?;
        notes.closed(client, number + 1, EIGHT, page(0), &sent(0))?;
    }
    Ok(())
}

/// Client 0's segment of trace 9 sent 65 pages, of which 64 are handed out. Of client 1, 64 notes were heard; then its page of trace 9 comes
/// before the note of its segment, so that it does not stand for client 0's last page.
fn late_notes(alloc: Global) -> Result<SegmentNotes, Memory> {
    let mut notes = none(alloc)?;
    notes.opened(0, 0, NINE, page(0))?;
    notes.closed(0, 1, NINE, page(65), &sent(65))?;
    segments(&mut notes, 1, 32)?;
    hand_out(&mut notes, 0, 64);
    notes.handed_out(NINE, 1, page(0));
    Ok(notes)
}

fn before_its_notes(alloc: Global) -> Result<bool, Memory> {
    let mut notes = late_notes(alloc)?;
    let early = says(&notes, NINE, Wholeness::Unknown, 0, 0) && standing(&notes, NINE).pages == 65;
    notes.handed_out(NINE, 0, page(64));
    notes.opened(1, 64, NINE, page(0))?;
    notes.closed(1, 65, NINE, page(1), &sent(1))?;
    Ok(early && says(&notes, NINE, Wholeness::Unknown, 0, 0) && standing(&notes, NINE).pages == 66)
}

/// Client 0's note that a segment of trace 9 begins was dropped, and a page of it is handed out; client 1's segment of trace 9 sent 65 pages, of
/// which 64 are handed out.
fn dropped_note(alloc: Global) -> Result<SegmentNotes, Memory> {
    let mut notes = none(alloc)?;
    segments(&mut notes, 0, 64)?;
    notes.opened(1, 0, NINE, page(0))?;
    notes.closed(1, 1, NINE, page(65), &sent(65))?;
    hand_out(&mut notes, 1, 64);
    notes.handed_out(NINE, 0, page(0));
    Ok(notes)
}

/// The next note of client 0 shows that one was missed, when 65 segments had been heard.
fn without_its_note(alloc: Global) -> Result<bool, Memory> {
    let mut notes = dropped_note(alloc)?;
    let early = says(&notes, NINE, Wholeness::Unknown, 0, 0) && standing(&notes, NINE).pages == 65;
    notes.handed_out(NINE, 1, page(64));
    notes.closed(0, 129, NINE, page(2), &sent(2))?;
    Ok(early && says(&notes, NINE, Wholeness::Unknown, 0, 65) && standing(&notes, NINE).pages == 66)
}

/// One crumb refused.
const LOST_CRUMB: Losses = Losses {
    refused_crumbs: 1,
    ..NONE_LOST
};

/// A crumb of trace 9 was refused between two segments of client 0, whose next note comes next.
fn refused_crumb(alloc: Global) -> Result<bool, Memory> {
    let mut notes = whole_nine(alloc)?;
    let answer = notes.refused(0, 2, NINE)?;
    let said = standing(&notes, NINE);
    notes.opened(0, 3, EIGHT, page(2))?;
    let lost = answer == NoteOutcome::Kept
        && said.wholeness == Wholeness::Lost
        && said.losses == LOST_CRUMB;
    Ok(lost && says(&notes, NINE, Wholeness::Lost, 0, 0))
}

/// A crumb of trace 8, of which nothing was heard, was refused while a segment of trace 9 was open.
fn unheard_crumb(alloc: Global) -> Result<bool, Memory> {
    let mut notes = none(alloc)?;
    notes.opened(0, 0, NINE, page(0))?;
    let answer = notes.refused(0, 1, EIGHT)?;
    notes.handed_out(NINE, 0, page(0));
    notes.closed(0, 2, NINE, page(1), &sent(1))?;
    let lost = says(&notes, EIGHT, Wholeness::Lost, 0, 0)
        && standing(&notes, EIGHT).losses == LOST_CRUMB;
    Ok(answer == NoteOutcome::Kept && lost && says(&notes, NINE, Wholeness::WholeSince, 0, 0))
}

/// Note 1 of client 0 was missed before it refused a crumb: it may have ended the segment of trace 9.
fn crumb_behind_a_gap(alloc: Global) -> Result<bool, Memory> {
    let mut notes = none(alloc)?;
    notes.opened(0, 0, NINE, page(0))?;
    notes.refused(0, 2, EIGHT)?;
    notes.handed_out(NINE, 0, page(0));
    let nine = says(&notes, NINE, Wholeness::Unknown, 0, 1) && standing(&notes, NINE).pages == 1;
    notes.opened(0, 3, EIGHT, page(4))?;
    Ok(nine && says(&notes, EIGHT, Wholeness::Open, 1, 1))
}

/// A refused crumb of a client that is not there, and one of a trace that finds no place.
fn crumb_missed(alloc: Global) -> Result<bool, Memory> {
    let mut notes = full(alloc)?;
    let nobody = notes.refused(2, 0, NINE)?;
    let answer = notes.refused(0, 2, SEVEN)?;
    Ok(
        nobody == NoteOutcome::Refused
            && answer == NoteOutcome::Full
            && says(&notes, SEVEN, Wholeness::UnheardSince, 0, 2),
    )
}

#[test]
fn pages(rt: HostRuntime) {
    row(&rt, "while open", while_open(rt.alloc()));
    row(&rt, "beyond the end", beyond_the_end(rt.alloc()));
    row(&rt, "not heard of", not_heard_of(rt.alloc()));
    row(&rt, "the next core", next_core(rt.alloc()));
    row(&rt, "before a gap", before_a_gap(rt.alloc()));
    row(&rt, "no client", no_client(rt.alloc()));
    row(&rt, "before its notes", before_its_notes(rt.alloc()));
    row(&rt, "without its note", without_its_note(rt.alloc()));
    row(&rt, "a refused crumb", refused_crumb(rt.alloc()));
    row(
        &rt,
        "a crumb of an unheard trace",
        unheard_crumb(rt.alloc()),
    );
    row(&rt, "a crumb behind a gap", crumb_behind_a_gap(rt.alloc()));
    row(&rt, "a crumb that is missed", crumb_missed(rt.alloc()));
    row(&rt, "crumbs that led on", led(rt.alloc()));
    row(&rt, "a crumb before a segment", led_before(rt.alloc()));
}

#[test]
fn whole(rt: HostRuntime) {
    row(&rt, "in order", in_order(rt.alloc()));
    row(&rt, "a gap elsewhere", gap_elsewhere(rt.alloc()));
    row(&rt, "a gap here", gap_here(rt.alloc()));
    row(&rt, "two clients", two_clients(rt.alloc()));
    row(&rt, "forgotten", forgotten(rt.alloc()));
    row(&rt, "no place", no_place(rt.alloc()));
    row(&rt, "a place again", place_again(rt.alloc()));
    row(&rt, "ends unheard", ends_unheard(rt.alloc()));
    row(&rt, "lost nothing", lost_nothing(rt.alloc()));
    row(&rt, "lost", lost(rt.alloc()));
    row(&rt, "reported", reported(rt.alloc()));
    row(&rt, "spent", spent(rt.alloc()));
    row(&rt, "refused", refused(rt.alloc()));
    row(&rt, "limits", Ok(limits(rt.alloc())));
    row(&rt, "at limits", at_limits(rt.alloc()));
}
