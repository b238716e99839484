//! How a client notes its segments.

ghost use Rattle.std.specs.Prelude.{◌≡◌, ◌+◌, ◌<◌, ◌≤◌, ◌^◌, IsTrue, length};
ghost use Rattle.hs_node_client.specs.Notes.{Notes, PutsOn};

use crate::paged::NextPage;
use crate::segment::{SegmentKey, SegmentNote, SegmentState};
use hs_base::TraceId;
use hs_link::Sender;

/// The end of a client's link of notes that sends, and the number of the next note.
#[derive(Drop)]
pub(crate) struct Notebook {
    pub(crate) link: Sender<SegmentNote, SegmentKey>,
    pub(crate) number: u64,
}

impl Notebook {
    /// Notes what becomes of a trace, where the client's next page comes at this place. The answer is whether the note was sent. Where the outbox has no place it is dropped, and its number with it.
    #[inline(always)]
    pub(crate) fn note(&mut self, place: NextPage, trace: TraceId, state: SegmentState) -> bool
        requires { self.old.number + 1 < 2 ^ 64 }
        ensures { Notes place trace state self.old result self.new }
    {
        let number = self.number;
        self.number += 1;
        self.link.send_or_drop(SegmentNote {
            number,
            trace,
            core: place.core,
            page: place.page,
            state,
        })
    }

    /// Puts what waits into the ring, as far as there is room, and answers how much still waits.
    pub(crate) fn flush(&mut self) -> u32
        ensures left { result ≡ length self.new.link.outbox }
        ensures puts { PutsOn self.old.link self.new.link }
        ensures number { self.new.number ≡ self.old.number }
    {
        self.link.flush()
    }
}
