//! Laws of a client's notes and of its pages. Each is the contract of a function that does nothing.

ghost use Rattle.std.specs.Prelude.{Bool};
ghost use Rattle.hs_base.specs.declared.ids.TraceId.{TraceId};
ghost use Rattle.hs_node_client.specs.Notes.{AreNumbered, Notes, PutsOn};
ghost use Rattle.hs_node_client.specs.Paging.{PointsTakePages, EndsTakeNone};
ghost use Rattle.hs_node_client.specs.Segments.{SegmentsHaveTheirPages};
ghost use Rattle.hs_node_client.specs.declared.paged.NextPage.{NextPage};
ghost use Rattle.hs_node_client.specs.declared.notebook.Notebook.{Notebook};
ghost use Rattle.hs_node_client.specs.declared.segment.SegmentState.{SegmentState};

use hs_client::any_steps_make_the_book;
use hs_live::what_was_done_was_sent;
use hs_records::{payloads_are_cut_from_the_front, pieces_are_counted};
use hs_ring::Lease;

/// The numbers of the notes that were sent rise, and lie below the next one. So where two numbers that come one after the other differ by
/// more than one, those between them are of notes that were dropped.
pub fn notes_are_numbered()
    ensures { (place : NextPage) (trace : TraceId) (state : SegmentState) (old : Notebook) (was_sent : Bool) (new : Notebook) → Notes place trace state old was_sent new → AreNumbered old → AreNumbered new }
{}

/// The pages of a segment are those of its core with numbers between the ones that its notes name. Of what was sent until its end, a page of
/// that core whose number is not below that of the begin is a page of its trace, with a number below that of the end. What was sent before
/// the segment lies below.
pub fn segments_name_their_pages()
    ensures { SegmentsHaveTheirPages }
{
    any_steps_make_the_book::<Lease>();
    what_was_done_was_sent();
}

/// A point that needs a page takes a page for each of its pieces.
pub(crate) fn points_take_pages()
    ensures { PointsTakePages }
{
    any_steps_make_the_book::<Lease>();
    what_was_done_was_sent();
    payloads_are_cut_from_the_front();
    pieces_are_counted();
}

/// An end takes no page.
pub(crate) fn ends_take_none()
    ensures { EndsTakeNone }
{
    any_steps_make_the_book::<Lease>();
    what_was_done_was_sent();
}
