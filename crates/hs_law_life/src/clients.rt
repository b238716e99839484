//! Laws of clients. Each is the contract of a function that does nothing.

ghost use Rattle.std.specs.Prelude.{◌≡◌, ℕ, List, [], ◌∷◌, ◌++◌, length};
ghost use Rattle.std.specs.Option.{option_to_list};
ghost use Rattle.hs_base.specs.declared.ids.ClientId.{ClientId};
ghost use Rattle.hs_base.specs.declared.ids.NodeId.{NodeId};
ghost use Rattle.hs_base.specs.declared.ids.TraceId.{TraceId};
ghost use Rattle.hs_base.specs.declared.told.Trigger.{Trigger};
ghost use Rattle.hs_client.specs.Core.{handed};
ghost use Rattle.hs_link.specs.Contents.{Incoming, Contains, sent};
ghost use Rattle.hs_live.specs.Calls.{made_of};
ghost use Rattle.hs_live.specs.Keys.{Key};
ghost use Rattle.hs_live.specs.Live.{PlainClient};
ghost use Rattle.hs_records.specs.Plain.{Operation, Begin, Point, Crumb, End, Fire, Sample};
ghost use Rattle.hs_ring.specs.Parts.{Drawing, Leased};
ghost use Rattle.hs_words.specs.Buffers.{Buffer};
ghost use Rattle.hs_node_client.specs.Answers as answers;
ghost use Rattle.hs_node_client.specs.Clients.{PlainNodeClient, KeepsEnds, NotesIt, NotesEnd, NotesLate, tally_at_begin};
ghost use Rattle.hs_node_client.specs.Counting.{with_point, with_crumb_called, with_refused_late, with_refused_trigger, if_full};
ghost use Rattle.hs_node_client.specs.Fitting.{AreSizes};
ghost use Rattle.hs_node_client.specs.Lives.{ClientLife, HasLife, Turns, with_op};
ghost use Rattle.hs_node_client.specs.Making.{IsNewClient, PlainRules};
ghost use Rattle.hs_node_client.specs.Paging.{place_in};
ghost use Rattle.hs_node_client.specs.declared.answers.CallAnswer.{CallAnswer};
ghost use Rattle.hs_node_client.specs.declared.answers.CallAnswer.TheVariants.{Done};
ghost use Rattle.hs_node_client.specs.declared.limits.ClientLimits.{ClientLimits};
ghost use Rattle.hs_node_client.specs.declared.segment.SegmentState.{SegmentState};
ghost use Rattle.hs_node_client.specs.declared.segment.SegmentState.TheVariants.{Opened};
ghost use Rattle.hs_law_life.specs.ClientLives.{IsInOrder, IsOnItsWay, MayDo, AllStand};
ghost use Rattle.hs_law_life.specs.NullPages.{HasCounted, KeepsNulls, NullsAreCounted};

use hs_client::any_steps_make_the_book;
use hs_live::what_was_done_was_sent;
use hs_records::pages_hold_the_pieces;
use hs_ring::Lease;

/// A call that is answered Done did an operation that had its place.
pub fn done_operations_had_their_place()
    ensures begin { (trace : TraceId) (old : PlainNodeClient) → answers.BeginsBy old Done → MayDo (Begin trace) old.live.core.trace }
    ensures point { (moment : ℕ) (payload : List ℕ) (old new : PlainClient) → answers.PointsBy old (length payload) Done new → MayDo (Point moment payload) old.core.trace }
    ensures crumb { (node : NodeId) (old new : PlainClient) → answers.CrumbsBy old node Done new → MayDo (Crumb node) old.core.trace }
    ensures trigger { (trigger : Trigger) (old new : PlainClient) → answers.TriggersBy old trigger Done new → MayDo (Fire trigger) old.core.trace }
    ensures sample { (moment auto value : ℕ) (old new : PlainClient) → answers.SamplesBy old auto Done new → MayDo (Sample moment auto value) old.core.trace }
    ensures end { (old new : PlainClient) → answers.EndsBy old Done new → MayDo End old.core.trace }
{}

/// A life is in order from the start, and stays so with each operation that had its place: one more of the last core, or a begin with which a
/// new core may come.
pub fn lives_stay_in_order()
    ensures new { (limits : ClientLimits) (rules : PlainRules) (id : ClientId) (drawer : Drawing) (client : PlainNodeClient) → AreSizes limits
        → IsNewClient limits rules id drawer client → IsInOrder (record { made = made_of client.live; ops = [] } ∷ []) }
    ensures does { (op : Operation) (client : PlainClient) (life : ClientLife) → HasLife life client → IsInOrder life
        → MayDo op client.core.trace → IsInOrder (with_op op life) }
    ensures begins { (trace : TraceId) (old new : PlainClient) (life life' : ClientLife) → HasLife life old → IsInOrder life
        → MayDo (Begin trace) old.core.trace → Turns old.core life life' → HasLife (with_op (Begin trace) life') new → IsInOrder (with_op (Begin trace) life') }
{}

/// Over any number of renewals: each point of a client was cut into pieces that stand on its pages, once and in order. Each page got a buffer,
/// and was sent in it or is the one that is written now; or it is null.
pub fn points_stand_on_pages()
    ensures pages { (life : ClientLife) (client : PlainClient) → HasLife life client → IsInOrder life
        → AllStand life client.drawer.answers (sent client.chunks ++ option_to_list (handed client.core)) }

    // What was sent was received, or lies in the link's ring, or waits in the client's outbox: each chunk once, in order, and the one that is
    // written comes last.
    ensures way { (life : ClientLife) (client : PlainClient) (port : Incoming (Buffer Leased) Key) → HasLife life client → IsInOrder life
        → Contains client.chunks port → IsOnItsWay life client port }
{
    any_steps_make_the_book::<Lease>();
    what_was_done_was_sent();
    pages_hold_the_pieces();
}

/// No call but a begin changes the sum of the null pages of a client's earlier cores.
pub fn other_calls_keep_the_sum_of_null_pages()
    ensures point { (by : CallAnswer) (old new : PlainNodeClient) → new.tally ≡ with_point by old.tally → KeepsNulls old new }
    ensures crumb { (node : NodeId) (by : CallAnswer) (old new : PlainNodeClient) → new.tally ≡ with_crumb_called node by old.tally → KeepsNulls old new }
    ensures late { (trace : TraceId) (state : SegmentState) (old new : PlainNodeClient) → NotesLate trace state old old.tally new → KeepsNulls old new }
    ensures refused { (trace : TraceId) (state : SegmentState) (old new : PlainNodeClient) → NotesLate trace state old (with_refused_late old.tally) new → KeepsNulls old new }
    ensures trigger { (by : CallAnswer) (old new : PlainNodeClient) → new.tally ≡ if_full by with_refused_trigger old.tally → KeepsNulls old new }
    ensures end { (old new : PlainNodeClient) → answers.EndsBy old.live Done new.live → NotesEnd old new → KeepsNulls old new }
{}

/// Over any number of renewals: the null pages of a client's life are summed up, and its counts say how many they are.
pub fn null_pages_are_counted()
    ensures new { (limits : ClientLimits) (rules : PlainRules) (id : ClientId) (drawer : Drawing) (client : PlainNodeClient) → drawer.answers ≡ [] → IsNewClient limits rules id drawer client
        → HasCounted (record { made = made_of client.live; ops = [] } ∷ []) client }
    ensures does { (op : Operation) (old new : PlainNodeClient) (life : ClientLife) → HasCounted life old → HasLife (with_op op life) new.live → KeepsNulls old new → HasCounted (with_op op life) new }
    ensures none { (old new : PlainNodeClient) (life : ClientLife) → HasCounted life old → HasLife life new.live → KeepsNulls old new → HasCounted life new }
    ensures begins { (trace : TraceId) (old new : PlainNodeClient) (life life' : ClientLife) → HasCounted life old → KeepsEnds old.live new.live → Turns old.live.core life life'
        → HasLife (with_op (Begin trace) life') new.live → NotesIt trace Opened (place_in new.live.core) old.notebook (tally_at_begin old) new.notebook new.tally → HasCounted (with_op (Begin trace) life') new }
    ensures counted { (life : ClientLife) (client : PlainNodeClient) → HasCounted life client → IsInOrder life → NullsAreCounted life client }
{
    any_steps_make_the_book::<Lease>();
    what_was_done_was_sent();
    points_stand_on_pages();
}
