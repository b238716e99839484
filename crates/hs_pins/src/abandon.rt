//! Groups give way where too much is pinned (`docs/RULES.md`, "Pins").

ghost use Rattle.std.specs.Prelude.{◌≡◌, ◌+◌, ◌<◌, ◌≤◌, ◌++◌, length, map};
ghost use Rattle.indexmap.specs.IndexSet.{spare};
ghost use Rattle.hs_words.specs.Buffers.{buffer_of};
ghost use Rattle.hs_pins.specs.Queues.{total_of};
ghost use Rattle.hs_pins.specs.Remembered.{Remembered, pin_for, pin_of};
ghost use Rattle.hs_pins.specs.Abandoning.{drops, relieved};
ghost use Rattle.hs_pins.specs.PinsLayout.{HasPinned, GroupGoes, with_mark};
ghost use Rattle.hs_pins.specs.Priorities.{mark_of};

use crate::claim::Dropped;
use crate::priority::Mark;
use crate::queues::TriggerQueues;
use hs_base::{Group, List};
use hs_words::{Held, Token};
use indexmap::IndexSet;

/// Abandons groups while more than `most` chunks are pinned. What was pinned for them joins the dropped
/// chunks, for which there is room.
pub fn abandon_over<L: Token>(
    queues: &mut TriggerQueues<L>,
    abandoned: &mut IndexSet<Mark>,
    most: u32,
    dropped: &mut List<Dropped<L>>,
)
    requires chunks { length dropped.old.items + total_of queues.old ≤ dropped.old.room }
    requires groups { total_of queues.old ≤ spare abandoned.old + most }
    ensures after { (memory : Remembered L) → most ≡ memory.most
        → HasPinned queues.old abandoned.old.keys memory
        → HasPinned queues.new abandoned.new.keys (relieved memory) }
    ensures drops { (memory : Remembered L) → most ≡ memory.most
        → HasPinned queues.old abandoned.old.keys memory
        → map pin_of dropped.new.items ≡ map pin_of dropped.old.items ++ drops memory }
{
    while queues.chunks() > most {
        abandon_next(queues, abandoned, dropped);
    }
}

/// Abandons the group that is next to go. Something is pinned, and there is room.
fn abandon_next<L: Token>(
    queues: &mut TriggerQueues<L>,
    abandoned: &mut IndexSet<Mark>,
    dropped: &mut List<Dropped<L>>,
)
    requires pinned { 0 < total_of queues.old }
    requires chunks { length dropped.old.items + total_of queues.old ≤ dropped.old.room }
    requires groups { 1 ≤ spare abandoned.old }
    ensures goes { (memory : Remembered L) → HasPinned queues.old abandoned.old.keys memory
        → GroupGoes memory queues.new abandoned.new.keys (map pin_of dropped.old.items) (map pin_of dropped.new.items) }
    ensures fewer { total_of queues.new < total_of queues.old }
    ensures chunks { length dropped.new.items + total_of queues.new
        ≡ length dropped.old.items + total_of queues.old }
    ensures room { dropped.old.room ≤ dropped.new.room }
    ensures groups { spare abandoned.old ≤ spare abandoned.new + 1 }
{
    let Some(trigger) = queues.fullest() else {
        unreachable!()
    };
    let Some((priority, chunks)) = queues.take_least(trigger) else {
        unreachable!()
    };
    let group = priority.group(trigger);
    mark(abandoned, &group);
    drop_chunks(dropped, group, chunks);
}

/// Notes that a group was abandoned. There is room.
fn mark(abandoned: &mut IndexSet<Mark>, group: &Group)
    requires { 1 ≤ spare abandoned.old }
    ensures marks { abandoned.new.keys ≡ with_mark abandoned.old.keys (mark_of group.now) }
    ensures room { spare abandoned.old ≤ spare abandoned.new + 1 }
{
    match abandoned.insert(Mark::of(group)) {
        Ok(_) => {}
        Err(_) => unreachable!(),
    }
}

/// Adds the chunks of a group to the dropped ones, for which there is room.
fn drop_chunks<L: Token>(dropped: &mut List<Dropped<L>>, group: Group, chunks: List<Held<L>>)
    requires { length dropped.old.items + length chunks.items ≤ dropped.old.room }
    ensures items { map pin_of dropped.new.items
        ≡ map pin_of dropped.old.items ++ map (pin_for group) (map buffer_of chunks.items) }
    ensures room { dropped.old.room ≤ dropped.new.room }
{
    for held in chunks.into_vec() {
        dropped.push(Dropped { held, group });
    }
}
