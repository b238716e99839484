//! What a node hears of its segments, and of what became of their pages.

ghost use Rattle.std.specs.Prelude.{◌≡◌, map, fold};
ghost use Rattle.std.specs.Option.{option_to_list};
ghost use Rattle.hs_whole.specs.History.{after};
ghost use Rattle.hs_node.specs.Nodes.{NotesIt, report_of, place_of, page_named, deed_for};

use hs_agent::Left;
use hs_intake::PartedChunk;
use hs_node_client::{SegmentCounts, SegmentNote, SegmentState};
use hs_whole::{Loss, PageName, SegmentNotes, SegmentReport};

/// What a client says of a segment at its end. No point is refused for want of a buffer.
fn report_of(counts: &SegmentCounts) -> SegmentReport
    ensures { result ≡ report_of counts.now }
{
    SegmentReport {
        pages: counts.pages,
        null_pages: counts.null_pages,
        full_points: counts.full_points,
        dry_points: 0,
        long_points: counts.long_points,
        spent_points: counts.spent_points,
        refused_crumbs: counts.refused_crumbs,
        crumbs: counts.crumbs,
    }
}

/// Where the pages of a segment begin, or behind which it ends.
fn place_of(segment: &SegmentNote) -> PageName
    ensures { result ≡ place_of segment.now }
{
    PageName {
        core: segment.core,
        page: segment.page,
    }
}

/// The page of a chunk that left.
fn page_of(parted: &PartedChunk) -> PageName
    ensures { result ≡ page_named parted.now }
{
    PageName {
        core: parted.core,
        page: parted.page,
    }
}

/// Hears a note of a client, or that it was missed, where there was no memory for it.
pub(crate) fn note(notes: &mut SegmentNotes, client: u16, segment: &SegmentNote)
    ensures { NotesIt notes.old client segment.now notes.new }
{
    let place = place_of(segment);
    match segment.state {
        SegmentState::Opened => {
            let _ = notes.opened(client, segment.number, segment.trace, place);
        }
        SegmentState::Closed(counts) => {
            let report = report_of(&counts);
            let _ = notes.closed(client, segment.number, segment.trace, place, &report);
        }
        SegmentState::Refused => {
            let _ = notes.refused(client, segment.number, segment.trace);
        }
        SegmentState::Led(nodes) => {
            let _ = notes.led(client, segment.number, segment.trace, nodes);
        }
    }
}

/// Hears what became of a chunk that left, if this is its first offer.
pub(crate) fn part(notes: &mut SegmentNotes, parted: &Option<PartedChunk>)
    ensures { notes.new ≡ fold after notes.old (map deed_for (option_to_list parted.now)) }
{
    let Some(parted) = parted else {
        return;
    };
    match (parted.left, parted.unposted) {
        (Left::Reported(_), None) => {
            notes.handed_out(parted.trace, parted.client, page_of(parted));
        }
        (Left::Evicted { .. }, _) => notes.lost(parted.trace, Loss::EvictedPages, 1),
        _ => notes.lost(parted.trace, Loss::AbandonedPages, 1),
    }
}
