//! Laws of the held pages. Each is the contract of a function that does nothing.

ghost use Rattle.std.specs.Prelude.{◌≡◌, List};
ghost use Rattle.hs_base.specs.declared.ids.TraceId.{TraceId};
ghost use Rattle.hs_traces.specs.Traces.{PlainTraces, part_of};
ghost use Rattle.hs_traces.specs.History.{TraceDeed, HoldsNothing, HearsAll, AreSamePages, after_all, pages_of};

/// What waits of a trace depends on which pages of it came, and on nothing else: not on their order, nor on repeats, nor on the
/// pages and givings out of other traces, nor on what was held of these before. That holds while the trace is not given out and
/// none of its pages is too much.
pub fn pages_decide_the_part()
    ensures { (trace : TraceId) (one other : PlainTraces) (deeds others : List TraceDeed)
        → HoldsNothing trace one → HoldsNothing trace other
        → HearsAll trace one deeds → HearsAll trace other others
        → AreSamePages (pages_of trace deeds) (pages_of trace others)
        → part_of (after_all one deeds).waiting trace ≡ part_of (after_all other others).waiting trace }
{}
