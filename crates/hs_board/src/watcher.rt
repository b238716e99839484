//! A watcher.

ghost use Rattle.std.specs.Prelude.{◌≡◌, ◌+◌, ◌<◌, ◌≤◌, [], true, false, length, OnOk, OnErr};
ghost use Rattle.hs_board.specs.declared.progress.Progress.{Progress as Totalled};
ghost use Rattle.hs_board.specs.Shown.{IsLast};
ghost use Rattle.hs_board.specs.Watching.{ShownTotals, Watches, MayLook, HasLooked, KeepsNotes, LooksTimes, KnowsLastSeen, EndsAtLatest};

use crate::progress::Progress;
use crate::reader::BoardReader;
use crate::writer::BoardWriter;
use hs_base::{List, Memory};
use std::alloc::Global;
use std::marker::Model;

/// A reader of the board, with its first look and each later one that found more rounds over.
#[derive(Drop)]
pub(crate) struct Watcher {
    reader: BoardReader,
    seen: List<Progress>,
}

impl Model for Watcher {
    ghost use Rattle.hs_board.specs.Watching.{Watching};
    ghost use Rattle.hs_board.specs.Layout.{watching_of};

    ghost Value = { Watching };

    ghost view = { watching_of };
}

impl Watcher {
    /// A watcher that has not looked.
    pub(crate) fn of(alloc: Global, reader: BoardReader) -> Watcher
        ensures { (result.looking ≡ reader) × (result.seen ≡ []) }
    {
        Watcher {
            reader,
            seen: List::new(alloc),
        }
    }

    /// Its reader, and what it noted.
    pub(crate) fn parts(self) -> (BoardReader, List<Progress>)
        ensures { (result.0 ≡ self.looking) × (result.1.items ≡ self.seen) }
    {
        let Watcher { reader, seen } = self;
        (reader, seen)
    }

    /// Looks once, and notes what it saw if more rounds are over than it last saw.
    pub(crate) fn look(&mut self)
        requires { length self.old.seen < self.old.room }
        ensures watches { (shown : ShownTotals) → Watches shown self.old → Watches shown self.new }
        ensures keeps { KeepsNotes self.old self.new }
        ensures ends { EndsAtLatest self.new }
        ensures rises { self.old.looking.latest.rounds ≤ self.new.looking.latest.rounds }
        ensures room { (self.old.room ≤ self.new.room) × (length self.new.seen ≤ length self.old.seen + 1) }
        ensures looks { LooksTimes 1 self.old self.new }
        ensures last { KnowsLastSeen self.new }
    {
        let now = self.reader.look();
        if is_new(self.seen.as_slice(), &now) {
            self.seen.push(now);
        }
    }

    /// Looks four times.
    pub(crate) fn look_round(&mut self)
        requires { MayLook self.old }
        ensures { HasLooked self.old self.new }
    {
        self.look();
        self.look();
        self.look();
        self.look();
    }

    /// Makes room for four looks.
    pub(crate) fn make_room(&mut self) -> Result<(), Memory>
        ensures ok { OnOk result (MayLook self.new) }
        ensures full { OnErr result (MayLook self.old → ⊥) }
        ensures same { (self.new.seen ≡ self.old.seen) × (self.new.looking ≡ self.old.looking) }
        ensures room { self.old.room ≤ self.new.room }
    {
        self.seen.reserve(4)
    }

    /// Is told of what is published.
    pub(crate) fn hear(&mut self, writer: &mut BoardWriter)
        ensures writer { writer.new ≡ writer.old }
        ensures watches { Watches writer.old self.old → Watches writer.old self.new }
        ensures told { (last : Totalled) → IsLast last writer.old → last.rounds ≤ self.new.looking.latest.rounds }
        ensures room { (self.new.seen ≡ self.old.seen) × (self.new.room ≡ self.old.room) }
        ensures looks { LooksTimes 0 self.old self.new }
    {
        writer.tell(&mut self.reader);
    }
}

/// Whether the rounds differ from those of the last that was noted, or none was.
fn is_new(seen: &[Progress], now: &Progress) -> bool
    ensures new { result ≡ true → (last : Totalled) → IsLast last seen.now → last.rounds ≡ now.now.rounds → ⊥ }
    ensures old { result ≡ false → (last : Totalled) × IsLast last seen.now × (last.rounds ≡ now.now.rounds) }
{
    match seen.last() {
        None => true,
        Some(last) => last.rounds != now.rounds,
    }
}
