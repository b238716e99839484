//! Laws of how far a run has come, and that its closing ends. These functions do nothing: their contracts say it.

ghost use Rattle.hs_run.specs.Closings.{WhatIsSentFits, AllIsPaidFor, PassesPay, PassesAreFew};
ghost use Rattle.hs_run.specs.CountLaws.{CountsAreProgress, TheseAreAllRounds};
ghost use Rattle.hs_run.specs.Seen.{ShownIsSeen};
ghost use Rattle.hs_run.specs.ProgressExamples.{Examples};
ghost use Rattle.hs_run.specs.FirstPasses.{FirstPassesAreNoted};

use hs_client::sending_laws::{pages_fit, timed_pages_are_the_pages};
use hs_law_agent::laws::{
    chunks_stand_by_their_claim, events_add_few, events_add_this, events_go_on,
    lists_have_their_chunks, steps_say_what_they_tell, turns_report,
};
use hs_law_run::lockstep_laws::valid_workloads_run;
use hs_records::pieces_are_counted;
use hs_run_actors::callers_have_sent;

/// Behind each round the sums of what is counted are those of the workload and of the journal that notes the rounds.
pub fn counts_are_progress()
    ensures { CountsAreProgress }
{}

/// Watchers to whom the totals behind the rounds were shown saw progress.
pub fn shown_is_seen()
    ensures { ShownIsSeen }
{}

/// Rounds in which all operations are done, each of which some client needs, are those of the workload.
pub fn these_are_all_rounds()
    ensures { TheseAreAllRounds }
{}

/// For two workloads with journals worked out by hand, the totals after some rounds are those that the examples in
/// `specs/ProgressExamples.antt` say.
pub fn examples_hold()
    ensures { Examples }
{}

/// The first passes of a log that notes passes are what these note.
pub fn first_passes_are_noted()
    ensures { FirstPassesAreNoted }
{}

/// What the clients of a run sent is no more than a workload has, and its pages fit.
pub fn what_is_sent_fits()
    ensures { WhatIsSentFits }
{
    callers_have_sent();
    valid_workloads_run();
    pieces_are_counted();
    timed_pages_are_the_pages();
    pages_fit();
}

/// What was done in the rounds pays for all that the agents hold and told, while no pass was made behind them.
pub fn all_is_paid_for()
    ensures { AllIsPaidFor }
{
    events_add_few();
    steps_say_what_they_tell();
}

/// A pass behind the rounds is paid for, if anything was left before it.
pub fn passes_pay()
    ensures { PassesPay }
{
    events_add_this();
    events_add_few();
    events_go_on();
    steps_say_what_they_tell();
    turns_report();
    lists_have_their_chunks();
    chunks_stand_by_their_claim();
    valid_workloads_run();
}

/// The closing of a run ends: where each pass behind the rounds is paid for by what was done before, at most `most_passes` of
/// them are made.
pub fn passes_are_few()
    ensures { PassesAreFew }
{
    events_add_few();
    events_go_on();
    steps_say_what_they_tell();
}
