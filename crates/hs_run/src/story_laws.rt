//! Laws of rounds, and why the journal of a run in threads is lawful. These functions do nothing: their contracts say it.

ghost use Rattle.hs_run.specs.Coming.{NoRoundsCome, RoundsGoOn, RoundsKeepWhatCame};
ghost use Rattle.hs_run.specs.Noting.{JournalsNoteRounds};
ghost use Rattle.hs_run.specs.Laws.{ClosingBegins, ClosingGoesOn, AgentsAreBetweenPasses, PoolsAreKept, RunsAreLawful, RoundsAreNoted};

use hs_law_agent::laws::events_add_this;
use hs_law_run::laws::stories_are_lawful;
use hs_run_actors::{callers_have_sent, callers_sent_all};

/// A moment where nothing was done is one to which no round led.
pub fn no_rounds_come()
    ensures { NoRoundsCome }
{}

/// A moment to which rounds led, and then one round more, in which all act, meet and move, leads to the moment behind that round.
pub fn rounds_go_on()
    ensures { RoundsGoOn }
{}

/// A round more keeps the moments of the run behind all rounds before it: what stood behind an earlier round is not told anew.
pub fn rounds_keep_what_came()
    ensures { RoundsKeepWhatCame }
{}

/// Rounds keep the sizes of the pools and the numbers of their drawers.
pub fn pools_are_kept()
    ensures { PoolsAreKept }
{}

/// An agent whose messages were all fetched stands between two passes.
pub fn agents_are_between_passes()
    ensures { AgentsAreBetweenPasses }
{}

/// The closing begins where the rounds end: there no pass was made behind them.
pub fn closing_begins()
    ensures { ClosingBegins }
{}

/// A pass more behind the rounds leads to where it leads each node.
pub fn closing_goes_on()
    ensures { ClosingGoesOn }
{}

/// When all is over, some journal of the run is lawful, and all books are those of it.
pub fn runs_are_lawful()
    ensures { RunsAreLawful }
{
    callers_have_sent();
    callers_sent_all();
    events_add_this();
    stories_are_lawful();
}

/// Behind each round a node's log has noted what was done by then.
pub fn rounds_are_noted()
    ensures { RoundsAreNoted }
{}

/// The journal of a run notes where all stood behind each round.
pub fn journals_note_rounds()
    ensures { JournalsNoteRounds }
{
    callers_have_sent();
    rounds_are_noted();
}
