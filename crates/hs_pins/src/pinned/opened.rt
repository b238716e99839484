//! The pinned chunks of one trigger id, while more become pinned for one group.

ghost use Rattle.std.specs.Prelude.{◌≡◌, ◌+◌, ◌≤◌, ◌<◌, ◌^◌, [], ◌++◌, length, map, IsSome, OnOk, OnErr, IfOk};
ghost use Rattle.std.specs.List.Sorted.{IsStrictlySortedBy};
ghost use Rattle.std.specs.Map.{lookup, keys_of};
ghost use Rattle.std.specs.VecDeque.{deque_len, deque_capacity};
ghost use Rattle.hs_words.specs.Buffers.{buffer_of};
ghost use Rattle.hs_pins.specs.Priorities.{priority_cmp, same_priority};
ghost use Rattle.hs_pins.specs.Groups.{count_of, pinned};
ghost use Rattle.hs_pins.specs.Counting.{HaveChunks};
ghost use Rattle.hs_pins.specs.Opening.{with_pile};

use super::{Pinned, add_pile};
use crate::pile::Pile;
use crate::priority::Priority;
use hs_base::{List, Memory};
use hs_words::{Held, Token};
use std::alloc::Global;
use std::collections::{BTreeMap, VecDeque};
use std::marker::Model;
use std::mem::replace;

/// The pinned chunks of one trigger id, of which one group is open: its chunks stand apart, with room for more. Contracts
/// see all groups that have a chunk, which group is open, and for how many chunks there is room.
#[derive(Drop)]
pub struct Opened<L: Token> {
    /// The open group has a place here.
    groups: BTreeMap<Priority, Pile<L>>,
    chunks: u32,
    priority: Priority,
    /// The chunks of the open group.
    pile: VecDeque<Held<L>>,
}

impl<L: Token> Model for Opened<L> {
    ghost use Rattle.hs_pins.specs.Opening.{OpenGroups};

    ghost Value = { OpenGroups L };

    ghost use Rattle.hs_pins.specs.OpeningLayout.{opened_in, IsOpened};

    ghost view = { opened_in };

    ghost invariant = { IsOpened };
}

impl<L: Token> Pinned<L> {
    /// Takes all groups out, with the one of this priority open and room for so many of its chunks. For want of memory
    /// nothing changes.
    pub fn open(
        &mut self,
        alloc: Global,
        priority: Priority,
        room: usize,
    ) -> Result<Opened<L>, Memory>
        ensures groups { IfOk result (λ opened. opened.groups ≡ self.old) }
        ensures priority { IfOk result (λ opened. opened.priority ≡ priority) }
        ensures room { IfOk result (λ opened. room ≤ opened.room) }
        ensures none { OnOk result (self.new ≡ []) }
        ensures err { OnErr result (self.new ≡ self.old) }
    {
        let pile = open_pile(alloc, &mut self.groups, priority, room)?;
        Ok(Opened {
            groups: replace(&mut self.groups, BTreeMap::new(alloc)),
            chunks: replace(&mut self.chunks, 0),
            priority,
            pile,
        })
    }
}

impl<L: Token> Opened<L> {
    /// How many chunks are pinned.
    pub fn chunks(&self) -> u32
        ensures { result ≡ count_of self.now.groups }
    {
        self.chunks
    }

    /// Pins chunks for the open group. There is room.
    pub fn pin(&mut self, chunks: List<Held<L>>)
        requires room { length chunks.items ≤ self.old.room }
        requires few { count_of self.old.groups + length chunks.items < 2 ^ 32 }
        ensures groups { self.new.groups ≡ pinned self.old.groups self.old.priority (map buffer_of chunks.items) }
        ensures priority { self.new.priority ≡ self.old.priority }
        ensures room { self.old.room ≤ self.new.room + length chunks.items }
        ensures count { count_of self.new.groups ≡ count_of self.old.groups + length chunks.items }
    {
        let count = chunks.len() as u32;
        join(&mut self.pile, chunks);
        self.chunks += count;
    }

    /// The groups, with what is pinned for the open one among them. Room that it did not use is given back.
    pub fn close(self) -> Pinned<L>
        ensures { result ≡ self.groups }
    {
        let Opened {
            mut groups,
            chunks,
            priority,
            mut pile,
        } = self;
        pile.shrink_to_fit();
        put_pile(&mut groups, priority, Pile::from_deque(pile));
        Pinned { groups, chunks }
    }
}

/// Takes the chunks of a group out, with room for so many more. A place is left for them.
fn open_pile<L: Token>(
    alloc: Global,
    groups: &mut BTreeMap<Priority, Pile<L>>,
    priority: Priority,
    room: usize,
) -> Result<VecDeque<Held<L>>, Memory>
    requires some { HaveChunks groups.old.entries }
    requires rising { IsStrictlySortedBy priority_cmp (keys_of groups.old.entries) }
    ensures pile { IfOk result (λ pile. with_pile groups.new.entries priority (map buffer_of pile.items) ≡ groups.old.entries) }
    ensures room { IfOk result (λ pile. deque_len pile + room ≤ deque_capacity pile) }
    ensures found { OnOk result (IsSome (lookup (same_priority priority) groups.new.entries)) }
    ensures rising { OnOk result (IsStrictlySortedBy priority_cmp (keys_of groups.new.entries)) }
    ensures err { OnErr result (groups.new.entries ≡ groups.old.entries) }
{
    if let Some(pile) = groups.get_mut(&priority) {
        return pile.take_all(alloc, room);
    }
    let pile = VecDeque::with_capacity(alloc, room)?;
    match add_pile(groups, priority, List::new(alloc)) {
        Ok(()) => Ok(pile),
        Err(_) => Err(Memory),
    }
}

/// Puts the chunks of a group, for which there is a place, among the others. A group without a chunk goes.
fn put_pile<L: Token>(groups: &mut BTreeMap<Priority, Pile<L>>, priority: Priority, pile: Pile<L>)
    requires { IsSome (lookup (same_priority priority) groups.old.entries) }
    ensures { groups.new.entries ≡ with_pile groups.old.entries priority pile }
{
    if pile.is_empty() {
        groups.remove(&priority);
        return;
    }
    let Some(place) = groups.get_mut(&priority) else {
        unreachable!()
    };
    *place = pile;
}

/// Puts chunks behind others, where there is room for them.
fn join<L: Token>(pile: &mut VecDeque<Held<L>>, chunks: List<Held<L>>)
    requires { deque_len pile.old + length chunks.items ≤ deque_capacity pile.old }
    ensures items { map buffer_of pile.new.items ≡ map buffer_of pile.old.items ++ map buffer_of chunks.items }
    ensures len { deque_len pile.new ≡ deque_len pile.old + length chunks.items }
    ensures capacity { deque_capacity pile.new ≡ deque_capacity pile.old }
{
    for held in chunks.into_vec() {
        pile.push_back_reserved(held);
    }
}
