//! What holds of journals that are followed, and of lawful ones. These functions do nothing: their contracts say it.

ghost use Rattle.hs_law_journal.specs.Laws.{HistoriesAreDecided, LawfulIsDecided, AgentsComeByEvents};
ghost use Rattle.hs_law_journal.specs.Orders.{FollowingPlaysOut, OrdersAgree, DoneIsAtRest};
ghost use Rattle.hs_law_journal.specs.Extending.{JournalsGoOn, RunsAreOfTheJournal, StepsAreNoted};
ghost use Rattle.hs_law_journal.specs.Gives.{GivesAreNoted};
ghost use Rattle.hs_law_journal.specs.Supply.{NothingIsTakenUnsent};
ghost use Rattle.hs_law_journal.specs.Taking.{ChunksAreTakenInOrder, TakenPagesRise};
ghost use Rattle.hs_law_journal.specs.Known.{Known};
ghost use Rattle.hs_law_journal.specs.Fitting.{RunsFit};
ghost use Rattle.hs_law_journal.specs.Performing.{StepByStep};

use hs_client::sending_laws::{pages_fit, timed_pages_are_the_pages, timed_pages_are_timely};
use hs_law_agent::laws::{
    chunks_stand_by_their_claim, crumbs_lead_below, events_add_few, events_add_this, events_go_on,
    lists_have_their_chunks, steps_say_what_they_tell, turns_report,
};
use hs_records::pieces_are_counted;

/// The test of a pool's history answers yes exactly for histories.
pub fn histories_are_decided()
    ensures { HistoriesAreDecided }
{}

/// A journal is lawful exactly where no clause fails.
pub fn lawful_is_decided()
    ensures { LawfulIsDecided }
{}

/// Each agent of a journal that is followed stands as its events lead to.
pub fn agents_come_by_events()
    ensures { AgentsComeByEvents }
{
    events_go_on();
}

/// Following a journal, the lowest node first, performs its steps as far as that is possible, each when it is
/// ready.
pub fn following_plays_out()
    ensures { FollowingPlaysOut }
{
    steps_say_what_they_tell();
}

/// In whatever order the steps of a journal are performed, each when it is ready and until none is, they come
/// to the same: a journal has one outcome.
pub fn orders_agree()
    ensures { OrdersAgree }
{
    steps_say_what_they_tell();
}

/// Where no step is left, none is ready.
pub fn done_is_at_rest()
    ensures { DoneIsAtRest }
{}

/// What was performed of a journal is performed of one that goes on behind it, with more left.
pub fn journals_go_on()
    ensures { JournalsGoOn }
{
    following_plays_out();
}

/// The nodes of a run are those of its journal: what was performed of a log and what is left are that log.
pub fn runs_are_of_the_journal()
    ensures { RunsAreOfTheJournal }
{
    events_add_this();
}

/// A step is noted in the log of its agent, and leaves what the clients of its node send.
pub fn steps_are_noted()
    ensures { StepsAreNoted }
{
    events_add_this();
}

/// No agent has taken more than was sent to it, and the coordinator has heard no more than was said.
pub fn nothing_is_taken_unsent()
    ensures { NothingIsTakenUnsent }
{
    steps_say_what_they_tell();
    events_add_this();
}

/// The buffers that an agent gave back bear the stamps of the gives in its log.
pub fn gives_are_noted()
    ensures { GivesAreNoted }
{
    events_add_this();
}

/// Of each client an agent has taken the first chunks that it sent, in their order.
pub fn chunks_are_taken_in_order()
    ensures { ChunksAreTakenInOrder }
{
    events_add_this();
}

/// Among the chunks that an agent took each client's pages rise, so no page is there twice.
pub fn taken_pages_rise()
    ensures { TakenPagesRise }
{
    events_add_this();
}

/// Laws of journals, of agents and of what clients send, on which others rest.
pub fn known()
    ensures { Known }
{
    following_plays_out();
    orders_agree();
    done_is_at_rest();
    journals_go_on();
    runs_are_of_the_journal();
    steps_are_noted();
    nothing_is_taken_unsent();
    agents_come_by_events();
    events_add_this();
    events_go_on();
    lists_have_their_chunks();
    events_add_few();
    steps_say_what_they_tell();
    turns_report();
    chunks_stand_by_their_claim();
    timed_pages_are_the_pages();
    timed_pages_are_timely();
    pages_fit();
    pieces_are_counted();
}

/// Whatever journal is followed for a valid workload, and in whatever order: what is ready may be taken, and what is told leads
/// to nodes that there are.
pub fn runs_fit()
    ensures { RunsFit }
{
    known();
    crumbs_lead_below();
}

/// Steps and messages may be performed one after another, some first and the others behind them.
pub fn step_by_step()
    ensures { StepByStep }
{}
