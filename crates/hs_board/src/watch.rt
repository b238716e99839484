//! Two watchers and the writer of their board.

ghost use Rattle.std.specs.Thread.{IsSync};
ghost use Rattle.std.specs.Prelude.{◌≡◌, ◌≤◌, false, [], ◌∷◌, ◌++◌, length, map, IfOk, OnOk, OnErr};
ghost use Rattle.std.specs.List.{AllByRecursion};
ghost use Rattle.hs_base.specs.Listing.{Listing};
ghost use Rattle.hs_board.specs.declared.progress.Progress.{Progress as Totalled};
ghost use Rattle.hs_board.specs.Looking.{Looking};
ghost use Rattle.hs_board.specs.Shown.{first, IsFront, IsLast};
ghost use Rattle.hs_board.specs.Watching.{MayLook, HasLooked, WatchStands, BothMayLook, BothLookTimes, BothKnowLastSeen, NoneMissed, HaveLookedInAll, BothKeepNotes, IsLater, KnowLast, EndsAtLatest, IsSeenOf};

use crate::making::board;
use crate::progress::Progress;
use crate::reader::BoardReader;
use crate::watcher::Watcher;
use crate::writer::BoardWriter;
use hs_base::{List, Memory};
use std::alloc::Global;
use std::marker::Model;
use std::sync::Wait;
use std::thread::{Threads, join_mut};

/// Two watchers of a board, and its writer. It ends by `close`.
pub struct Watch {
    writer: BoardWriter,
    one: Watcher,
    other: Watcher,
}

impl Model for Watch {
    ghost use Rattle.hs_board.specs.Watching.{Showing};
    ghost use Rattle.hs_board.specs.WatchLayout.{showing_of};

    ghost Value = { Showing };

    ghost view = { showing_of };
}

impl Watch {
    /// A new board, which shows the first totals, with two watchers that have not looked.
    pub fn make<R: Wait>(rt: &R, alloc: Global) -> Result<Watch, Memory>
        ensures shown { IfOk result (λ watch. watch.shown ≡ first ∷ []) }
        ensures none { IfOk result (λ watch. (watch.one.seen ≡ []) × (watch.other.seen ≡ [])) }
        ensures stands { IfOk result (λ watch. WatchStands watch) }
        ensures looks { IfOk result (λ watch. HaveLookedInAll 0 watch × NoneMissed watch) }
    {
        let (writer, mut readers) = board(rt, alloc, 2)?;
        match (readers.pop(), readers.pop()) {
            (Some(other), Some(one)) => Ok(Watch {
                writer,
                one: Watcher::of(alloc, one),
                other: Watcher::of(alloc, other),
            }),
            _ => unreachable!(),
        }
    }

    /// Makes room for four looks of each watcher.
    pub fn make_room(&mut self) -> Result<(), Memory>
        ensures ok { OnOk result (BothMayLook self.new) }
        ensures full { OnErr result (BothMayLook self.old → ⊥) }
        ensures shown { self.new.shown ≡ self.old.shown }
        ensures stands { WatchStands self.old → WatchStands self.new }
        ensures keeps { BothKeepNotes self.old self.new }
        ensures last { KnowLast self.old → KnowLast self.new }
        ensures looks { BothLookTimes 0 self.old self.new }
    {
        self.one.make_room()?;
        self.other.make_room()
    }

    /// Each watcher looks four times, both at once where threads can be made.
    pub fn look<R: Threads + Sync>(&mut self, rt: &R)
        requires { BothMayLook self.old }
        ensures shown { self.new.shown ≡ self.old.shown }
        ensures stands { WatchStands self.old → WatchStands self.new }
        ensures keeps { BothKeepNotes self.old self.new }
        ensures looks { BothLookTimes 4 self.old self.new }
        ensures seen { BothKnowLastSeen self.new }
    {
        look_both(rt, &mut self.one, &mut self.other);
    }

    /// These totals are published while each watcher looks four times, all at once where threads can be made. At `Memory` nothing is
    /// published.
    pub fn publish_beside<R: Threads + Wait + Sync>(
        &mut self,
        rt: &R,
        progress: Progress,
    ) -> Result<(), Memory>
        requires later { IsLater progress self.old.shown }
        requires room { BothMayLook self.old }
        ensures ok { OnOk result (self.new.shown ≡ self.old.shown ++ progress ∷ []) }
        ensures err { OnErr result (self.new.shown ≡ self.old.shown) }
        ensures stands { WatchStands self.old → WatchStands self.new }
        ensures keeps { BothKeepNotes self.old self.new }
        ensures looks { BothLookTimes 4 self.old self.new }
        ensures seen { BothKnowLastSeen self.new }
    {
        publish_and_look(
            rt,
            &mut self.writer,
            progress,
            &mut self.one,
            &mut self.other,
        )
    }

    /// These totals are published. At `Memory` nothing is.
    pub fn publish<R: Wait>(&mut self, rt: &R, progress: Progress) -> Result<(), Memory>
        requires { IsLater progress self.old.shown }
        ensures ok { OnOk result (self.new.shown ≡ self.old.shown ++ progress ∷ []) }
        ensures err { OnErr result (self.new.shown ≡ self.old.shown) }
        ensures stands { WatchStands self.old → WatchStands self.new }
        ensures keeps { BothKeepNotes self.old self.new }
        ensures looks { BothLookTimes 0 self.old self.new }
    {
        publish(rt, &mut self.writer, progress)
    }

    /// Both watchers are told of what is published.
    pub fn tell(&mut self)
        ensures shown { self.new.shown ≡ self.old.shown }
        ensures stands { WatchStands self.old → WatchStands self.new }
        ensures keeps { BothKeepNotes self.old self.new }
        ensures last { KnowLast self.new }
        ensures room { BothMayLook self.old → BothMayLook self.new }
        ensures looks { BothLookTimes 0 self.old self.new }
    {
        self.one.hear(&mut self.writer);
        self.other.hear(&mut self.writer);
    }

    /// Both watchers look once more.
    pub fn look_once(&mut self)
        requires { BothMayLook self.old }
        ensures shown { self.new.shown ≡ self.old.shown }
        ensures stands { WatchStands self.old → WatchStands self.new }
        ensures keeps { BothKeepNotes self.old self.new }
        ensures last { KnowLast self.old → KnowLast self.new }
        ensures ends { EndsAtLatest self.new.one × EndsAtLatest self.new.other }
        ensures looks { BothLookTimes 1 self.old self.new }
        ensures seen { BothKnowLastSeen self.new }
    {
        self.one.look();
        self.other.look();
    }

    /// Ends the board, at `Memory` too. Answers what each watcher noted; `Memory` also if a look of either was handed back.
    pub fn close<R: Wait>(self, rt: &R, alloc: Global) -> Result<List<List<Progress>>, Memory>
        ensures count { IfOk result (λ seen. length seen.items ≡ 2) }
        ensures lists { IfOk result (λ seen. map (λ (list : Listing Totalled). list.items) seen.items ≡ self.one.seen ∷ self.other.seen ∷ []) }
        ensures looks { IfOk result (λ _. NoneMissed self) }
        ensures seen { WatchStands self → KnowLast self → EndsAtLatest self.one × EndsAtLatest self.other
            → IfOk result (λ seen. AllByRecursion (λ (list : Listing Totalled). IsSeenOf self.shown list.items) seen.items) }
    {
        let Watch { writer, one, other } = self;
        let (first, some) = one.parts();
        let (second, others) = other.parts();
        close(rt, writer, first, second)?;
        two_lists(alloc, some, others)
    }
}

/// Both watchers look four times.
fn look_both<R: Threads + Sync>(rt: &R, one: &mut Watcher, other: &mut Watcher)
    requires { MayLook one.old × MayLook other.old }
    ensures { HasLooked one.old one.new × HasLooked other.old other.new }
{
    join_mut(
        rt,
        &mut ||
            requires { MayLook one.now }
            ensures { HasLooked one.entry.now one.exit.now }
        { one.look_round() },
        &mut ||
            requires { MayLook other.now }
            ensures { HasLooked other.entry.now other.exit.now }
        { other.look_round() },
    );
}

/// The totals are published.
fn publish<R: Wait>(rt: &R, writer: &mut BoardWriter, progress: Progress) -> Result<(), Memory>
    requires { IsLater progress writer.old }
    ensures ok { OnOk result (writer.new ≡ writer.old ++ progress ∷ []) }
    ensures err { OnErr result (writer.new ≡ writer.old) }
{
    writer.publish(rt, progress)
}

/// These totals are published while the watchers look.
fn publish_and_look<R: Threads + Wait + Sync>(
    rt: &R,
    writer: &mut BoardWriter,
    progress: Progress,
    one: &mut Watcher,
    other: &mut Watcher,
) -> Result<(), Memory>
    requires later { IsLater progress writer.old }
    requires room { MayLook one.old × MayLook other.old }
    ensures ok { OnOk result (writer.new ≡ writer.old ++ progress ∷ []) }
    ensures err { OnErr result (writer.new ≡ writer.old) }
    ensures looked { HasLooked one.old one.new × HasLooked other.old other.new }
{
    let (published, _) = join_mut(
        rt,
        &mut || -> Result<(), Memory>
            requires { IsSync R.row × IsLater progress writer.now }
            ensures { OnOk result (writer.exit.now ≡ writer.entry.now ++ progress ∷ []) × OnErr result (writer.exit.now ≡ writer.entry.now) }
        { publish(rt, writer, progress) },
        &mut ||
            requires { IsSync R.row × MayLook one.now × MayLook other.now }
            ensures { HasLooked one.entry.now one.exit.now × HasLooked other.entry.now other.exit.now }
        { look_both(rt, one, other) },
    );
    published
}

/// The two readers and their board end.
fn close<R: Wait>(
    rt: &R,
    writer: BoardWriter,
    one: BoardReader,
    other: BoardReader,
) -> Result<(), Memory>
    ensures fronts { OnOk result (IsFront one.known writer × IsFront other.known writer) }
    ensures looks { OnOk result ((one.missed ≡ false) × (other.missed ≡ false)) }
{
    let missed = one.has_missed() || other.has_missed();
    let mut readers = [one, other];
    writer.close(rt, &mut readers)?;
    if missed {
        return Err(Memory);
    }
    Ok(())
}

/// The two lists as a list.
fn two_lists(
    alloc: Global,
    one: List<Progress>,
    other: List<Progress>,
) -> Result<List<List<Progress>>, Memory>
    ensures { IfOk result (λ list. list.items ≡ one ∷ other ∷ []) }
{
    let mut list = List::with_room(alloc, 2)?;
    list.push(one);
    list.push(other);
    Ok(list)
}
