//! Why what is done in a run is lawful, and why a story of it is. These functions do nothing: their contracts say it.

ghost use Rattle.hs_law_run.specs.Unread.{UnreadCouldBe, NoneIsUnread};
ghost use Rattle.hs_law_run.specs.Pools.{ClosedPoolsKeep};
ghost use Rattle.hs_law_run.specs.Playing.{DoingsAreFollowed, CanBeFollowed, HaveShape, AreWholePasses, AreEnough, AreBare, MakeTheirOffers, AreInPace, AreStamped, AreHistories, GivesAnswer, DoingsAreLawful};
ghost use Rattle.hs_law_run.specs.Laws.{StoriesAreLawful};

use hs_client::sending_laws::{
    all_is_sent_in_the_end, timed_pages_are_the_pages, timed_pages_are_timely,
};
use hs_law_agent::laws::{events_add_this, events_go_on, steps_say_what_they_tell};
use hs_law_journal::laws::{done_is_at_rest, orders_agree};

/// What may be told pass by pass, as far as it has come, is what its journal leads to when it is followed.
pub fn doings_are_followed()
    ensures { DoingsAreFollowed }
{
    events_add_this();
    events_go_on();
    steps_say_what_they_tell();
    done_is_at_rest();
    orders_agree();
}

/// L8: the journal can be followed.
pub fn doings_can_be_followed()
    ensures { CanBeFollowed }
{
    doings_are_followed();
}

/// L1: where each client notes a draw for each of its pages, the journal has the workload's shape.
pub fn doings_have_shape()
    ensures { HaveShape }
{}

/// L5: where each pass is one of the loop, every log is one whole pass after another.
pub fn doings_are_whole_passes()
    ensures { AreWholePasses }
{}

/// L9: all agents made as many passes, and enough.
pub fn doings_are_enough()
    ensures { AreEnough }
{}

/// L10: where all was taken and heard in the end and nothing is pinned, nothing is left over.
pub fn doings_are_bare()
    ensures { AreBare }
{
    doings_are_followed();
    events_add_this();
}

/// L6: where each pass offers until the hand is empty or an offer is unread, all offers are made.
pub fn doings_make_their_offers()
    ensures { MakeTheirOffers }
{
    doings_are_followed();
    events_add_this();
}

/// L11: where meetings tell behind each round what happened, agents and coordinator keep pace.
pub fn doings_are_in_pace()
    ensures { AreInPace }
{
    doings_are_followed();
    events_add_this();
}

/// What closing the pools tells keeps the promise of each pool.
pub fn closed_pools_keep()
    ensures { ClosedPoolsKeep }
{
    events_add_this();
}

/// L2: by the promise of the pools, stamps number the events of each node.
pub fn doings_are_stamped()
    ensures { AreStamped }
{}

/// L3: by the promise of the pools, the events of each node are a history of its pool.
pub fn doings_are_histories()
    ensures { AreHistories }
{
    doings_are_followed();
}

/// L4: by the promise of the pools, each give answers the draw of its chunk.
pub fn doings_answer_draws()
    ensures { GivesAnswer }
{
    doings_are_followed();
}

/// All that the parts of a run promise makes its journal lawful, if what is unread could be.
pub fn doings_are_lawful()
    ensures { DoingsAreLawful }
{
    doings_have_shape();
    doings_are_stamped();
    doings_are_histories();
    doings_answer_draws();
    doings_are_whole_passes();
    doings_make_their_offers();
    doings_can_be_followed();
    doings_are_enough();
    doings_are_bare();
    doings_are_in_pace();
}

/// L7: where no offer is unread, nothing has to be shown of unread offers.
pub fn none_is_unread()
    ensures { NoneIsUnread }
{
    doings_are_followed();
    events_add_this();
}

/// L7: by what the ring tells of an offer that was unread, what is unread could be.
pub fn unread_could_be()
    ensures { UnreadCouldBe }
{
    doings_are_followed();
    events_add_this();
}

/// Where each part keeps its promises in every pass, the journal of what was done is lawful, and to follow it leads to where the agents
/// stand.
pub fn stories_are_lawful()
    ensures { StoriesAreLawful }
{
    doings_are_followed();
    doings_are_lawful();
    closed_pools_keep();
    unread_could_be();
    events_add_this();
    all_is_sent_in_the_end();
    timed_pages_are_the_pages();
    timed_pages_are_timely();
}
