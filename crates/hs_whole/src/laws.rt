//! What holds over all that a node hears. Each law is the contract of a function that does nothing.

ghost use Rattle.std.specs.Prelude.{◌≡◌, ℕ, ◌<◌, ◌^◌, List, length};
ghost use Rattle.hs_base.specs.declared.ids.TraceId.{TraceId};
ghost use Rattle.hs_whole.specs.declared.answers.NoteLimits.{NoteLimits};
ghost use Rattle.hs_wire.specs.declared.message.Wholeness.TheVariants.{WholeSince};
ghost use Rattle.hs_whole.specs.Notes.{AreOut, wholeness_of, crumbs_of};
ghost use Rattle.hs_whole.specs.History.{NoteDeed, AreOfClients, HavePlaces, IsWholeSince, AreLed, notes_after};
ghost use Rattle.hs_whole.specs.Segments.{IsHonest, SegmentsAre};

/// Whatever a node hears, it says of a trace that it is whole since the horizon only where a later part of the deeds shows it:
/// each segment of the trace behind the horizon began there, and one did; each is closed by its client's next note; as many pages
/// were handed out there as the segments sent; and nothing is lost there. Of the segments before that part nothing was to come, so
/// these pages are all that its segments sent. Each node to which a crumb of the trace led in that part, as the end of a segment says or a
/// note of its own, is among those that are kept of the trace.
pub fn whole_is_said_of_what_was_handed_out()
    ensures whole { (limits : NoteLimits) (trace : TraceId) (deeds : List NoteDeed)
        → (AreOut limits → ⊥) → AreOfClients limits.clients deeds → HavePlaces limits deeds → length deeds < 2 ^ 63
        → wholeness_of (notes_after limits deeds) trace ≡ WholeSince
        → IsWholeSince (notes_after limits deeds).horizon limits.clients trace deeds }
    ensures led { (limits : NoteLimits) (trace : TraceId) (deeds : List NoteDeed)
        → (AreOut limits → ⊥) → AreOfClients limits.clients deeds → HavePlaces limits deeds → length deeds < 2 ^ 63
        → wholeness_of (notes_after limits deeds) trace ≡ WholeSince
        → (whole : IsWholeSince (notes_after limits deeds).horizon limits.clients trace deeds)
        × AreLed (crumbs_of (notes_after limits deeds) trace) trace whole.later }
{}

/// Where a later part of the deeds shows that a trace is whole, as many pages of each of its segments there, by their names, were handed
/// out in it as the segment sent. That rests on honest clients: between the end of a segment and the begin of the next one a client
/// writes no page, a page that lies in a segment's stretch is of the segment's trace, and of no segment more pages are handed out than it
/// sent; and no page of a segment before that part is handed out in it.
pub fn each_segment_of_a_whole_trace_is_out()
    ensures each { (horizon clients : ℕ) (trace : TraceId) (deeds : List NoteDeed) → AreOfClients clients deeds
        → (part : IsWholeSince horizon clients trace deeds) → IsHonest trace part.later part.earlier
        → SegmentsAre (λ out sent. out ≡ sent) trace part.later part.later part.earlier }
{}
