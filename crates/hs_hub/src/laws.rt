//! Laws of a hub. Each is the contract of a function that does nothing.

ghost use Rattle.std.specs.Prelude.{◌≡◌, ◌⊎◌, ℕ, Bool, true, false, List, [], Some};
ghost use Rattle.hs_base.specs.declared.ids.TraceId.{TraceId};
ghost use Rattle.hs_traces.specs.Traces.{part_of};
ghost use Rattle.hs_traces.specs.History.{HoldsNothing, HearsAll, AreSamePages, after_all, pages_of};
ghost use Rattle.hs_hub.specs.declared.answers.HubLimits.{HubLimits};
ghost use Rattle.hs_hub.specs.Hub.{PlainHub, no_hub, answer_to_page, after_page, is_whole_out};
ghost use Rattle.hs_hub.specs.Life.{HubAct, life, all_deeds};
ghost use Rattle.hs_hub.specs.RowsOut.{AllBringPages, GivesRows};
ghost use Rattle.hs_hub.specs.SureLives.{IsOfSureLives};
ghost use Rattle.hs_hub.specs.Kept.{AreKept};
ghost use Rattle.hs_hub.specs.Named.{NoneAgain, AreNotNamed, all_named};
ghost use Rattle.hs_receipts.specs.Receipts.{is_message};
ghost use Rattle.std.specs.List.{list_any};
ghost use Rattle.hs_hub.specs.Restart.{HearsAgain, HoldsAgain};
ghost use Rattle.hs_hub.specs.Fate.{SayThis, IsHeldBy, WasSaved};
ghost use Rattle.hs_hub.specs.declared.answers.Delivered.TheVariants.{Held};
ghost use Rattle.hs_receipts.specs.declared.answers.MessageId.{MessageId};
ghost use Rattle.hs_traces.specs.declared.key.PageKey.{PageKey};

/// Whatever calls a hub has had: its pages are those that came, less what was given out and saved.
pub fn pages_come_and_go()
    ensures { (hub : PlainHub) (acts : List HubAct) → (life hub acts).traces ≡ after_all hub.traces (all_deeds hub acts) }
{}

/// What waits of a trace in two hubs is the same, if the same pages of it came to both: whatever their order and repeats, what else
/// came, and what the hubs held before. That holds while the trace is not given out and none of its pages is too much. So a hub that
/// is made anew and hears all that was not acknowledged holds the same pages again.
pub fn messages_decide_the_part()
    ensures { (trace : TraceId) (one other : PlainHub) (acts others : List HubAct)
        → HoldsNothing trace one.traces → HoldsNothing trace other.traces
        → HearsAll trace one.traces (all_deeds one acts) → HearsAll trace other.traces (all_deeds other others)
        → AreSamePages (pages_of trace (all_deeds one acts)) (pages_of trace (all_deeds other others))
        → part_of (life one acts).traces.waiting trace ≡ part_of (life other others).traces.waiting trace }
{}

/// Where each page that came is one, as `reported` takes no other: whatever calls a hub has had, what is out are pages, and the steps of
/// a cursor answer their rows one by one in their order, each once, and then none.
pub fn rows_are_of_what_came()
    ensures { (epoch : ℕ) (is_fresh : Bool) (limits : HubLimits) (acts : List HubAct) → AllBringPages acts → GivesRows (life (no_hub epoch is_fresh limits) acts) }
{}

/// Whatever calls a hub has had: a trace is called whole only in its first part, and where the latest life of each node that a group which
/// claims it reached was sure when the trace's first message came. That is `age` passes after the life was heard first, or from the start
/// on for the first life that a fresh hub hears of a node.
pub fn whole_is_said_of_sure_lives()
    ensures { (epoch : ℕ) (is_fresh : Bool) (limits : HubLimits) (acts : List HubAct) (trace : TraceId)
        → (life (no_hub epoch is_fresh limits) acts).receipts.out ≡ Some trace
        → is_whole_out (life (no_hub epoch is_fresh limits) acts) ≡ true
        → IsOfSureLives (no_hub epoch is_fresh limits) acts trace }
{}

/// Whatever calls a hub has had, each page that it holds came by a message that is kept: it waits for the page's trace, or the trace is out
/// and was served by it. So a hub that is made anew and hears all that was not acknowledged hears of each of these pages again.
pub fn held_pages_are_unacknowledged()
    ensures { (epoch : ℕ) (is_fresh : Bool) (limits : HubLimits) (acts : List HubAct) → AreKept (life (no_hub epoch is_fresh limits) acts) acts }
{}

/// Where no message comes again that a hub has named, or may name, each message that it keeps is none of these, whatever calls the hub has
/// had: so the broker still has it.
pub fn kept_messages_are_not_named()
    ensures { (epoch : ℕ) (is_fresh : Bool) (limits : HubLimits) (acts : List HubAct)
        → NoneAgain (no_hub epoch is_fresh limits) [] acts → AreNotNamed (no_hub epoch is_fresh limits) acts }
{}

/// Whatever calls a hub has had: another one that hears again what the first keeps of a trace holds each page of it that the first held, with
/// the same bytes, be it waiting or out there. That holds while the trace is not given out and none of its pages is too much.
pub fn held_pages_come_again()
    ensures { (epoch : ℕ) (is_fresh : Bool) (limits : HubLimits) (acts : List HubAct) (trace : TraceId) (new : PlainHub) (others : List HubAct)
        → HearsAgain trace (life (no_hub epoch is_fresh limits) acts) acts new others
        → HoldsAgain trace (life (no_hub epoch is_fresh limits) acts) (life new others) }
{}

/// Whatever calls a hub has had before and has later: a page of which it said that it holds it is held, and the message that brought it is
/// kept for it, or the page was saved. That holds where the message said nothing else before. So a message that is kept no more, and may be
/// acknowledged, brought nothing that was not saved.
pub fn held_pages_stay_until_they_are_saved()
    ensures { (epoch : ℕ) (is_fresh : Bool) (limits : HubLimits) (before later : List HubAct) (message : MessageId) (trace : TraceId) (key : PageKey) (bytes : List ℕ)
        → SayThis message trace key before
        → answer_to_page (life (no_hub epoch is_fresh limits) before) message trace key bytes ≡ Held
        → IsHeldBy (life (after_page (life (no_hub epoch is_fresh limits) before) message trace key bytes) later) message trace key
        ⊎ WasSaved (after_page (life (no_hub epoch is_fresh limits) before) message trace key bytes) later trace key }
{}

/// Whatever calls a hub has had before and has later: if a message is named, the page that it brought was saved. That holds of a page of
/// which the hub said that it holds it, where the message said nothing else before and was not to be named already.
pub fn named_messages_brought_what_was_saved()
    ensures { (epoch : ℕ) (is_fresh : Bool) (limits : HubLimits) (before later : List HubAct) (message : MessageId) (trace : TraceId) (key : PageKey) (bytes : List ℕ)
        → SayThis message trace key before
        → answer_to_page (life (no_hub epoch is_fresh limits) before) message trace key bytes ≡ Held
        → list_any (is_message message) (life (no_hub epoch is_fresh limits) before).receipts.done ≡ false
        → list_any (is_message message) (all_named (after_page (life (no_hub epoch is_fresh limits) before) message trace key bytes) later) ≡ true
        → WasSaved (after_page (life (no_hub epoch is_fresh limits) before) message trace key bytes) later trace key }
{}
