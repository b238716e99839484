//! The rounds of a run under watchers: all act beside two watchers and, from the second round on, beside one that publishes totals.

ghost use Rattle.std.specs.Thread.{IsSync};
ghost use Rattle.std.specs.Prelude.{◌≡◌, ◌≤◌, suc, [], ◌∷◌, ◌++◌, true, OnOk, OnErr};
ghost use Rattle.hs_board.specs.Shown.{first};
ghost use Rattle.hs_run.specs.RunStates.{RunState};
ghost use Rattle.hs_board.specs.Watching.{BothMayLook, BothLookTimes, HaveLookedInAll, IsLater, KnowLast, WatchStands};
ghost use Rattle.hs_records.specs.Validity.{IsValid};
ghost use Rattle.hs_records.specs.Views.{workload_of};
ghost use Rattle.hs_run.specs.Moments.{IsHere, AreFew, CanAct, ActedTo, CanBegin};
ghost use Rattle.hs_run.specs.Nodes.{TellsLeft};
ghost use Rattle.hs_run.specs.Watched.{shown_on, MayShow, StillStands, RoundsWatched, AllWatched, WatchEnded};

use crate::laws::these_are_all_rounds;
use crate::meeting::{meet_all, move_all};
use crate::node::ActingNode;
use crate::rounds::{act, has_left};
use crate::story_laws::{no_rounds_come, rounds_keep_what_came};
use crate::tallying::RunTally;
use hs_base::{Gate, List, Memory};
use hs_board::{Progress, Watch};
use hs_records::Workload;
use hs_run_actors::{CoordinatorActor, callers_have_sent};
use std::alloc::Global;
use std::sync::Wait;
use std::thread::{Threads, join_mut};

/// All rounds, as long as a client has operations left, under the watchers.
pub(crate) fn watch_rounds<R: Threads + Wait + Sync, G: Gate>(
    rt: &R,
    alloc: Global,
    gate: &G,
    workload: &Workload,
    nodes: &mut List<ActingNode>,
    coordinator: &mut CoordinatorActor,
    watch: &mut Watch,
) -> Result<(), Memory>
    requires valid { IsValid (workload_of workload.now) }
    requires all { CanBegin (workload_of workload.now) nodes.old.items coordinator.old }
    requires begins { (watch.old.shown ≡ first ∷ []) × WatchStands watch.old × HaveLookedInAll 0 watch.old }
    ensures { OnOk result (AllWatched (workload_of workload.now) nodes.new.items coordinator.new watch.new) }
{
    no_rounds_come();
    these_are_all_rounds();
    let mut tally = RunTally::make(alloc, workload)?;
    let mut made = 0u32;
    'rounds: while has_left(nodes, workload) {
        watch_round(
            rt,
            gate,
            workload,
            nodes,
            coordinator,
            watch,
            &mut tally,
            made,
        )?;
        made += 1;
    }
    end_watch(rt, watch, &tally, made)
}

/// A round behind so many others: all act beside the watchers, all meet, what was told is moved, and all is counted.
fn watch_round<R: Threads + Wait + Sync, G: Gate>(
    rt: &R,
    gate: &G,
    workload: &Workload,
    nodes: &mut List<ActingNode>,
    coordinator: &mut CoordinatorActor,
    watch: &mut Watch,
    tally: &mut RunTally,
    made: u32,
) -> Result<(), Memory>
    requires left { TellsLeft (workload_of workload.now) nodes.old.items true }
    requires watched { RoundsWatched (workload_of workload.now) made nodes.old.items coordinator.old tally.old watch.old }
    ensures { OnOk result (RoundsWatched (workload_of workload.now) (suc made) nodes.new.items coordinator.new tally.new watch.new) }
{
    rounds_keep_what_came();
    callers_have_sent();
    watch.make_room()?;
    act_watched(rt, gate, workload, nodes, coordinator, watch, tally, made)?;
    meet_all(nodes);
    move_all(nodes, coordinator)?;
    tally.count(workload, nodes);
    tell(watch, made);
    Ok(())
}

/// From the second round on both watchers are told of what is published.
fn tell(watch: &mut Watch, made: u32)
    ensures shown { watch.new.shown ≡ watch.old.shown }
    ensures stands { WatchStands watch.old → WatchStands watch.new }
    ensures last { 1 ≤ made → KnowLast watch.new }
    ensures looks { BothLookTimes 0 watch.old watch.new }
{
    if made > 0 {
        watch.tell();
    }
}

/// All act while the watchers look, and from the second round on the totals behind the round before are published.
fn act_watched<R: Threads + Wait + Sync, G: Gate>(
    rt: &R,
    gate: &G,
    workload: &Workload,
    nodes: &mut List<ActingNode>,
    coordinator: &mut CoordinatorActor,
    watch: &mut Watch,
    tally: &RunTally,
    made: u32,
) -> Result<(), Memory>
    requires act { CanAct (workload_of workload.now) nodes.old.items coordinator.old }
    requires room { BothMayLook watch.old }
    requires show { MayShow made tally.now watch.old.shown }
    ensures acted { (m : RunState) → IsHere (workload_of workload.now) m nodes.old.items coordinator.old → AreFew (workload_of workload.now) m
        → OnOk result (ActedTo (workload_of workload.now) m nodes.new.items coordinator.new) }
    ensures shown { OnOk result (watch.new.shown ≡ shown_on made tally.now watch.old.shown) }
    ensures stands { StillStands watch.old watch.new }
{
    if made == 0 {
        return act_and_look(rt, gate, workload, nodes, coordinator, watch);
    }
    let progress = tally.progress(made);
    act_and_publish(rt, gate, workload, nodes, coordinator, watch, progress)
}

/// All act while the watchers look.
fn act_and_look<R: Threads + Sync, G: Gate>(
    rt: &R,
    gate: &G,
    workload: &Workload,
    nodes: &mut List<ActingNode>,
    coordinator: &mut CoordinatorActor,
    watch: &mut Watch,
) -> Result<(), Memory>
    requires act { CanAct (workload_of workload.now) nodes.old.items coordinator.old }
    requires room { BothMayLook watch.old }
    ensures acted { (m : RunState) → IsHere (workload_of workload.now) m nodes.old.items coordinator.old → AreFew (workload_of workload.now) m
        → OnOk result (ActedTo (workload_of workload.now) m nodes.new.items coordinator.new) }
    ensures shown { watch.new.shown ≡ watch.old.shown }
    ensures stands { StillStands watch.old watch.new }
{
    let (acted, _) = join_mut(
        rt,
        &mut || -> Result<(), Memory>
            requires { IsSync R.row × CanAct (workload_of workload.now) nodes.now.items coordinator.now }
            ensures { (m : RunState) → IsHere (workload_of workload.entry.now) m nodes.entry.now.items coordinator.entry.now → AreFew (workload_of workload.entry.now) m
                → OnOk result (ActedTo (workload_of workload.entry.now) m nodes.exit.now.items coordinator.exit.now) }
        { act(rt, gate, workload, nodes, coordinator) },
        &mut ||
            requires { IsSync R.row × BothMayLook watch.now }
            ensures { (watch.exit.now.shown ≡ watch.entry.now.shown) × StillStands watch.entry.now watch.exit.now }
        { look(rt, watch) },
    );
    acted
}

/// All act while the watchers look and these totals are published.
fn act_and_publish<R: Threads + Wait + Sync, G: Gate>(
    rt: &R,
    gate: &G,
    workload: &Workload,
    nodes: &mut List<ActingNode>,
    coordinator: &mut CoordinatorActor,
    watch: &mut Watch,
    progress: Progress,
) -> Result<(), Memory>
    requires act { CanAct (workload_of workload.now) nodes.old.items coordinator.old }
    requires room { BothMayLook watch.old }
    requires later { IsLater progress watch.old.shown }
    ensures acted { (m : RunState) → IsHere (workload_of workload.now) m nodes.old.items coordinator.old → AreFew (workload_of workload.now) m
        → OnOk result (ActedTo (workload_of workload.now) m nodes.new.items coordinator.new) }
    ensures shown { OnOk result (watch.new.shown ≡ watch.old.shown ++ progress ∷ []) }
    ensures stands { StillStands watch.old watch.new }
{
    let (acted, published) = join_mut(
        rt,
        &mut || -> Result<(), Memory>
            requires { IsSync R.row × CanAct (workload_of workload.now) nodes.now.items coordinator.now }
            ensures { (m : RunState) → IsHere (workload_of workload.entry.now) m nodes.entry.now.items coordinator.entry.now → AreFew (workload_of workload.entry.now) m
                → OnOk result (ActedTo (workload_of workload.entry.now) m nodes.exit.now.items coordinator.exit.now) }
        { act(rt, gate, workload, nodes, coordinator) },
        &mut || -> Result<(), Memory>
            requires { IsSync R.row × IsLater progress watch.now.shown × BothMayLook watch.now }
            ensures { OnOk result (watch.exit.now.shown ≡ watch.entry.now.shown ++ progress ∷ []) × StillStands watch.entry.now watch.exit.now }
        { publish(rt, watch, progress) },
    );
    acted?;
    published
}

/// The watchers look.
fn look<R: Threads + Sync>(rt: &R, watch: &mut Watch)
    requires { BothMayLook watch.old }
    ensures shown { watch.new.shown ≡ watch.old.shown }
    ensures stands { StillStands watch.old watch.new }
{
    watch.look(rt);
}

/// The watchers look while these totals are published.
fn publish<R: Threads + Wait + Sync>(
    rt: &R,
    watch: &mut Watch,
    progress: Progress,
) -> Result<(), Memory>
    requires later { IsLater progress watch.old.shown }
    requires room { BothMayLook watch.old }
    ensures shown { OnOk result (watch.new.shown ≡ watch.old.shown ++ progress ∷ []) }
    ensures stands { StillStands watch.old watch.new }
{
    watch.publish_beside(rt, progress)
}

/// Behind the last of so many rounds their totals are published, the watchers are told, and each looks once more.
fn end_watch<R: Wait>(rt: &R, watch: &mut Watch, tally: &RunTally, made: u32) -> Result<(), Memory>
    requires show { MayShow made tally.now watch.old.shown }
    requires stands { WatchStands watch.old }
    ensures shown { OnOk result (watch.new.shown ≡ shown_on made tally.now watch.old.shown) }
    ensures ended { OnOk result (WatchEnded watch.new) }
    ensures looks { OnOk result (BothLookTimes 1 watch.old watch.new) }
{
    publish_last(rt, watch, tally, made)?;
    watch.make_room()?;
    watch.tell();
    watch.look_once();
    Ok(())
}

/// The totals behind so many rounds are published, if there were any.
fn publish_last<R: Wait>(
    rt: &R,
    watch: &mut Watch,
    tally: &RunTally,
    made: u32,
) -> Result<(), Memory>
    requires show { MayShow made tally.now watch.old.shown }
    ensures shown { OnOk result (watch.new.shown ≡ shown_on made tally.now watch.old.shown) }
    ensures stands { WatchStands watch.old → WatchStands watch.new }
    ensures looks { BothLookTimes 0 watch.old watch.new }
    ensures none { made ≡ 0 → OnErr result ⊥ }
{
    if made == 0 {
        return Ok(());
    }
    let progress = tally.progress(made);
    watch.publish(rt, progress)
}
