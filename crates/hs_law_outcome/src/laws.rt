//! What holds of the outcomes of lawful journals, of the messages that the coordinator hears, and of what is abandoned; and all of it in
//! the headline. These functions do nothing: their contracts say it.

ghost use Rattle.hs_law_outcome.specs.Records.{EachRecordHasOneEntry, TotalsCountTheRecords, ReportsShowTheirTraces};
ghost use Rattle.hs_law_outcome.specs.Causes.{AgentsKeepTheirModel, EvictedOnlyWhereOver, GivenWereLetGo, NothingClaimedWasEvicted, NoBufferIsOutTwice, EmptyOnlyWhereEmpty};
ghost use Rattle.hs_law_outcome.specs.Origins.{EachFateHasItsCause, TakenPagesWereDrawn};
ghost use Rattle.hs_law_outcome.specs.Nulls.{EmptyDrawsFoundNothing};
ghost use Rattle.hs_law_outcome.specs.Readable.{JournalsHaveTheShape, LawfulJournalsAreJournals};
ghost use Rattle.hs_law_outcome.specs.ClientBooks.{BooksOfClientsFit, StandingsAreOfGotPages};
ghost use Rattle.hs_law_outcome.specs.Books.{EachGotPageHasOneStanding, BooksFitTogether};
ghost use Rattle.hs_law_outcome.specs.Versions.{VersionsHaveOneOutcome};
ghost use Rattle.hs_law_outcome.specs.CollectedReports.{TakenPagesAreOfClients, ReportedPagesAreOfClients, ReportedRecordsHaveAllPages, ReportedPagesCanBeCollected, CollectedRecordsAreWhole};
ghost use Rattle.hs_law_outcome.specs.Speaking.{MessagesAreOrderly, AskedSetsAreLeast, AnswersComeFromAsked, AnswersAreToAsks};
ghost use Rattle.hs_law_outcome.specs.Abandonment.{OnlyTheLeastIsAbandoned};
ghost use Rattle.hs_law_outcome.specs.Asking.{NobodyIsAskedTwice};
ghost use Rattle.hs_law_outcome.specs.Headline.{HeadlineHolds};

use hs_client::sending_laws::timed_pages_are_the_pages;
use hs_collect::runs_decide_the_records;
use hs_coord::{answers_follow_asks, asked_set_is_least};
use hs_law_agent::laws::{
    chunks_stand_by_their_claim, claims_hold_for_good, clients_pages_rise, events_add_few,
    events_add_this, events_go_on, evicted_were_over, limits_hold, lists_have_their_chunks,
    nothing_claimed_is_evicted, steps_say_what_they_tell, the_least_goes, traces_are_claimed_once,
};
use hs_law_journal::laws::{
    agents_come_by_events, chunks_are_taken_in_order, following_plays_out, gives_are_noted,
    runs_are_of_the_journal, taken_pages_rise,
};
use hs_records::{
    pages_carry_the_records, pages_hold_the_pieces, pieces_are_counted, pieces_join_to_the_payload,
};

/// A ledger has the records of the workload, each once and in their order.
pub fn each_record_has_one_entry()
    ensures { EachRecordHasOneEntry }
{
    pages_carry_the_records();
}

/// The five totals sum to the number of records.
pub fn totals_count_the_records()
    ensures { TotalsCountTheRecords }
{
    each_record_has_one_entry();
}

/// A report shows each record of its trace once, whole or as a gap, and both in order.
pub fn reports_show_their_traces()
    ensures { ReportsShowTheirTraces }
{
    each_record_has_one_entry();
}

/// The laws of the agent's model hold of each agent of a journal.
pub fn agents_keep_their_model()
    ensures { AgentsKeepTheirModel }
{
    lists_have_their_chunks();
    limits_hold();
    traces_are_claimed_once();
    chunks_stand_by_their_claim();
    agents_come_by_events();
}

/// No agent evicts at or below both limits.
pub fn evicted_only_where_over()
    ensures { EvictedOnlyWhereOver }
{
    evicted_were_over();
    agents_come_by_events();
}

/// A buffer that is got was given back as often as it was got before.
pub fn no_buffer_is_out_twice()
    ensures { NoBufferIsOutTwice }
{}

/// A draw finds nothing only where no buffer waits.
pub fn empty_only_where_empty()
    ensures { EmptyOnlyWhereEmpty }
{}

/// A workload comes to the same in either version.
pub fn versions_have_one_outcome()
    ensures { VersionsHaveOneOutcome }
{}

/// The fate of each record of a lawful journal is that of one of its pages: of the draw, or of the chunk that the
/// agent took.
pub fn each_fate_has_its_cause()
    ensures { EachFateHasItsCause }
{
    following_plays_out();
    runs_are_of_the_journal();
    chunks_are_taken_in_order();
    timed_pages_are_the_pages();
}

/// Of a lawful journal each draw that found nothing stands in its node's history at its stamp, and no buffer
/// waited there.
pub fn empty_draws_found_nothing()
    ensures { EmptyDrawsFoundNothing }
{
    following_plays_out();
    runs_are_of_the_journal();
    gives_are_noted();
    timed_pages_are_the_pages();
    empty_only_where_empty();
}

/// What was given back was evicted, abandoned or reported, and is given back once.
pub fn given_were_let_go()
    ensures { GivenWereLetGo }
{
    agents_keep_their_model();
}

/// What is claimed is not evicted later.
pub fn nothing_claimed_was_evicted()
    ensures { NothingClaimedWasEvicted }
{
    events_add_this();
    events_go_on();
    claims_hold_for_good();
    nothing_claimed_is_evicted();
    agents_come_by_events();
}

/// An agent has no chunk but those of pages that its clients drew.
pub fn taken_pages_were_drawn()
    ensures { TakenPagesWereDrawn }
{
    following_plays_out();
    runs_are_of_the_journal();
    chunks_are_taken_in_order();
}

/// The books of the clients come in order, and each holds its client's records without a gap.
pub fn books_of_clients_fit()
    ensures { BooksOfClientsFit }
{
    pages_carry_the_records();
}

/// Each standing of an agent is that of a page for which a client of its node got a buffer.
pub fn standings_are_of_got_pages()
    ensures { StandingsAreOfGotPages }
{
    following_plays_out();
    runs_are_of_the_journal();
    taken_pages_were_drawn();
}

/// Each page for which a client got a buffer has one standing at its node.
pub fn each_got_page_has_one_standing()
    ensures { EachGotPageHasOneStanding }
{
    following_plays_out();
    runs_are_of_the_journal();
    chunks_are_taken_in_order();
    timed_pages_are_the_pages();
}

/// The books of a lawful journal fit together: a ledger can be made of them.
pub fn books_fit()
    ensures { BooksFitTogether }
{
    books_of_clients_fit();
    standings_are_of_got_pages();
    each_got_page_has_one_standing();
}

/// What agents take, and so what they report, are pages of their clients.
pub fn reported_pages_are_of_clients()
    ensures taken { TakenPagesAreOfClients }
    ensures reported { ReportedPagesAreOfClients }
{
    following_plays_out();
    runs_are_of_the_journal();
    timed_pages_are_the_pages();
    taken_pages_were_drawn();
}

/// Each page with a piece of a record that was reported is among the reported pages.
pub fn reported_records_have_all_pages()
    ensures { ReportedRecordsHaveAllPages }
{
    following_plays_out();
    runs_are_of_the_journal();
    chunks_are_taken_in_order();
    timed_pages_are_the_pages();
    agents_keep_their_model();
    taken_pages_were_drawn();
    pages_carry_the_records();
}

/// The reported pages can be added to a collector, in any order that keeps that of the pages of each client and trace.
pub fn reported_pages_can_be_collected()
    ensures { ReportedPagesCanBeCollected }
{
    following_plays_out();
    runs_are_of_the_journal();
    timed_pages_are_the_pages();
    taken_pages_were_drawn();
    taken_pages_rise();
    clients_pages_rise();
    agents_come_by_events();
    pages_carry_the_records();
    pages_hold_the_pieces();
    runs_decide_the_records();
}

/// What is collected of a trace, without the parts of records that were lost, are the records of its report.
pub fn collected_records_are_whole()
    ensures { CollectedRecordsAreWhole }
{
    each_record_has_one_entry();
    reported_records_have_all_pages();
    following_plays_out();
    runs_are_of_the_journal();
    timed_pages_are_the_pages();
    taken_pages_were_drawn();
    taken_pages_rise();
    clients_pages_rise();
    agents_come_by_events();
    pages_carry_the_records();
    pages_hold_the_pieces();
    pieces_join_to_the_payload();
    pieces_are_counted();
    runs_decide_the_records();
}

/// A journal whose lists are counted as the first clause asks has the shape of its workload.
pub fn journals_have_the_shape()
    ensures { JournalsHaveTheShape }
{}

/// A lawful journal is valid: all its numbers are in their ranges.
pub fn lawful_journals_are_journals()
    ensures { LawfulJournalsAreJournals }
{
    following_plays_out();
    runs_are_of_the_journal();
    gives_are_noted();
    timed_pages_are_the_pages();
}

/// In whatever order the steps of a journal come, no node speaks of a group before it admitted the group's
/// trigger or was asked.
pub fn messages_are_orderly()
    ensures { MessagesAreOrderly }
{
    events_add_few();
    steps_say_what_they_tell();
}

/// In a journal that is followed the asked set of a group that was heard of is the least set that no crumb of
/// the group leads out of.
pub fn asked_sets_are_least()
    ensures { AskedSetsAreLeast }
{
    following_plays_out();
    messages_are_orderly();
    asked_set_is_least();
}

/// In whatever order the steps of a journal come, a node that told an `Answer` of a group has an ask for it.
pub fn answers_come_from_asked()
    ensures { AnswersComeFromAsked }
{
    events_add_few();
    steps_say_what_they_tell();
}

/// In a journal that is followed a node has an ask that was answered exactly where some message of the group
/// is an `Answer` from the node.
pub fn answers_are_to_asks()
    ensures { AnswersAreToAsks }
{
    following_plays_out();
    messages_are_orderly();
    answers_come_from_asked();
    answers_follow_asks();
}

/// At each node of a journal groups are abandoned only while more is pinned than may be, each time the one that is
/// next to go, with all its pinned chunks.
pub fn only_the_least_is_abandoned()
    ensures { OnlyTheLeastIsAbandoned }
{
    the_least_goes();
    limits_hold();
    events_go_on();
    agents_come_by_events();
}

/// Whatever messages were heard, a node that has an ask for a group was sent one, and no other node was sent any.
pub fn nobody_is_asked_twice()
    ensures { NobodyIsAskedTwice }
{}

/// If a workload is valid and a journal lawful for it, all sentences of the headline hold: of the ledger, the
/// reports, what agents keep and let go, who is asked, the buffers, and the books.
pub fn headline_holds()
    ensures { HeadlineHolds }
{
    each_record_has_one_entry();
    totals_count_the_records();
    each_fate_has_its_cause();
    empty_draws_found_nothing();
    reports_show_their_traces();
    reported_records_have_all_pages();
    reported_pages_are_of_clients();
    collected_records_are_whole();
    agents_keep_their_model();
    evicted_only_where_over();
    nothing_claimed_was_evicted();
    only_the_least_is_abandoned();
    asked_sets_are_least();
    nobody_is_asked_twice();
    answers_are_to_asks();
    no_buffer_is_out_twice();
    given_were_let_go();
    following_plays_out();
    runs_are_of_the_journal();
    books_of_clients_fit();
    each_got_page_has_one_standing();
    standings_are_of_got_pages();
}
