//! The run of a workload under two watchers, to whom its totals are shown while it goes on.

ghost use Rattle.std.specs.Prelude.{◌≡◌, [], ◌∷◌, IfOk};
ghost use Rattle.hs_board.specs.Shown.{first};
ghost use Rattle.hs_run.specs.Ended.{items_of};
ghost use Rattle.hs_run.specs.Seen.{AreSeen};
ghost use Rattle.hs_records.specs.Journals.{PlainJournal};
ghost use Rattle.hs_law_journal.specs.Lawful.{IsLawful};
ghost use Rattle.hs_outcome.specs.Outcomes.{AreBooksOf, IsOutcome};
ghost use Rattle.hs_board.specs.Watching.{HaveLookedInAll, WatchStands};
ghost use Rattle.hs_records.specs.Validity.{IsValid};
ghost use Rattle.hs_records.specs.Views.{workload_of};
ghost use Rattle.hs_run.specs.Watched.{HaveShown};

use crate::finishing::finish;
use crate::laws::shown_is_seen;
use crate::making::make_all;
use crate::watched_rounds::watch_rounds;
use hs_base::{Gate, List, Memory};
use hs_board::{Progress, Watch};
use hs_outcome::{Books, Outcome, gather};
use hs_records::Workload;
use std::alloc::Global;
use std::sync::Wait;
use std::thread::Threads;

/// The outcome of a run, and of each of the two watchers what it saw of the totals: its first look, and each later one that found
/// more rounds over.
#[derive(Drop)]
pub struct Watched {
    pub outcome: Outcome,
    pub seen: List<List<Progress>>,
}

/// Runs a workload as `run` does, while two watchers look at its totals: each is an actor of its own in every round, and so is,
/// from the second round on, the one that publishes the totals behind the round before. None of these passes the gate. The
/// publisher may wait for a look. What a watcher saw are totals of the workload and of the journal of the outcome, of more and
/// more rounds, and at last of all. The one error is want of memory.
pub fn run_watched<R: Threads + Wait + Sync, G: Gate>(
    rt: &R,
    alloc: Global,
    workload: &Workload,
    gate: &G,
) -> Result<Watched, Memory>
    requires { IsValid (workload_of workload.now) }
    ensures { IfOk result (λ watched. (J : PlainJournal) × IsLawful (workload_of workload.now) J × IsOutcome (workload_of workload.now) J watched.outcome
        × AreSeen (workload_of workload.now) J (items_of watched.seen.items)) }
{
    let mut watch = Watch::make(rt, alloc)?;
    let played = play_watched(rt, alloc, workload, gate, &mut watch);
    let closed = watch.close(rt, alloc);
    let books = played?;
    let seen = closed?;
    let outcome = gather(alloc, books)?;
    Ok(Watched { outcome, seen })
}

/// Runs a workload to its end under the watchers, and answers what all noted.
fn play_watched<R: Threads + Wait + Sync, G: Gate>(
    rt: &R,
    alloc: Global,
    workload: &Workload,
    gate: &G,
    watch: &mut Watch,
) -> Result<Books, Memory>
    requires valid { IsValid (workload_of workload.now) }
    requires begins { (watch.old.shown ≡ first ∷ []) × WatchStands watch.old × HaveLookedInAll 0 watch.old }
    ensures { IfOk result (λ books. (J : PlainJournal) × AreBooksOf (workload_of workload.now) J books × HaveShown (workload_of workload.now) J watch.new) }
{
    shown_is_seen();
    let (mut nodes, mut coordinator) = make_all(alloc, workload)?;
    watch_rounds(
        rt,
        alloc,
        gate,
        workload,
        &mut nodes,
        &mut coordinator,
        watch,
    )?;
    finish(alloc, workload, nodes, coordinator)
}
