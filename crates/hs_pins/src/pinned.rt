//! The pinned chunks of one trigger id (`docs/RULES.md`, "Pins").

ghost use Rattle.std.specs.Prelude.{◌≡◌, ◌≢◌, ◌+◌, ◌<◌, ◌^◌, [], ◌∷◌, length, map, drop, slice_get, Some, OnOk, OnErr, IfErr, IfSome, OnSome, IfNone, IsSome, is_some, option_map};
ghost use Rattle.std.specs.Map.{lookup};
ghost use Rattle.std.specs.BTreeMap.{insert_entry};
ghost use Rattle.hs_words.specs.Buffers.{buffer_of};
ghost use Rattle.hs_pins.specs.Waiting.{used_bytes};
ghost use Rattle.hs_base.specs.declared.ids.TriggerId.{TriggerId};
ghost use Rattle.hs_pins.specs.PinsLayout.{in_order};
ghost use Rattle.hs_pins.specs.Priorities.{priority_cmp, same_priority, group_at};
ghost use Rattle.hs_pins.specs.Remembered.{pin_for};
ghost use Rattle.hs_pins.specs.Groups.{count_of, chunks_of, pinned, greatest_of, next_of, without_first, without_next};
ghost use Rattle.hs_pins.specs.Counting.{HaveChunks};

mod opened;

use crate::pile::Pile;
use crate::priority::Priority;
use hs_base::List;
use hs_words::{Held, Token};
pub use opened::Opened;
use std::alloc::Global;
use std::collections::BTreeMap;
use std::marker::Model;

/// The pinned chunks of one trigger id, by group. Contracts see the groups that have a chunk, in
/// rising priority, each with its chunks in order.
#[derive(Drop)]
pub struct Pinned<L: Token> {
    groups: BTreeMap<Priority, Pile<L>>,
    chunks: u32,
}

impl<L: Token> Model for Pinned<L> {
    ghost use Rattle.hs_pins.specs.Groups.{Groups};
    ghost use Rattle.hs_pins.specs.Counting.{IsKept};

    ghost Value = { Groups L };

    ghost view = { λ a. a.groups.entries };

    ghost invariant = { λ a. IsKept a.groups.entries a.chunks };
}

impl<L: Token> Pinned<L> {
    /// No chunk is pinned. It takes no memory.
    pub fn new(alloc: Global) -> Pinned<L>
        ensures { result ≡ [] }
    {
        Pinned {
            groups: BTreeMap::new(alloc),
            chunks: 0,
        }
    }

    /// How many chunks are pinned.
    pub fn chunks(&self) -> u32
        ensures { result ≡ count_of self.now }
    {
        self.chunks
    }

    /// Whether a chunk is pinned for the group of this priority.
    pub fn has(&self, priority: Priority) -> bool
        ensures { result ≡ is_some (lookup (same_priority priority) self.now) }
    {
        self.groups.get(&priority).is_some()
    }

    /// Pins chunks for the group of this priority. For want of memory they come back, and nothing
    /// changes. Pinning none takes no memory.
    pub fn pin(&mut self, priority: Priority, chunks: List<Held<L>>) -> Result<(), List<Held<L>>>
        requires { count_of self.old + length chunks.items < 2 ^ 32 }
        ensures ok { OnOk result (self.new ≡ pinned self.old priority (map buffer_of chunks.items)) }
        ensures count { OnOk result (count_of self.new ≡ count_of self.old + length chunks.items) }
        ensures err { OnErr result (self.new ≡ self.old) }
        ensures back { IfErr result (λ back. map buffer_of back.items ≡ map buffer_of chunks.items) }
        ensures some { OnErr result (0 < length chunks.items) }
    {
        let count = chunks.len() as u32;
        if count == 0 {
            return Ok(());
        }
        add_chunks(&mut self.groups, priority, chunks)?;
        self.chunks += count;
        Ok(())
    }

    /// Pins one chunk for the group of this priority. For want of memory it comes back, and nothing
    /// changes.
    pub fn pin_one(
        &mut self,
        alloc: Global,
        priority: Priority,
        held: Held<L>,
    ) -> Result<(), Held<L>>
        requires { count_of self.old + 1 < 2 ^ 32 }
        ensures ok { OnOk result (self.new ≡ pinned self.old priority (buffer_of held ∷ [])) }
        ensures count { OnOk result (count_of self.new ≡ count_of self.old + 1) }
        ensures err { OnErr result (self.new ≡ self.old) }
        ensures back { IfErr result (λ back. buffer_of back ≡ buffer_of held) }
    {
        add_chunk(alloc, &mut self.groups, priority, held)?;
        self.chunks += 1;
        Ok(())
    }

    /// The used bytes of the next chunk, or `None` where none is pinned.
    pub fn next_used(&self) -> Option<u32>
        ensures { (id : TriggerId) → result
            ≡ option_map (λ pin. used_bytes pin.chunk) (slice_get (in_order id self.now) 0) }
    {
        match self.groups.last_key_value() {
            Some((_, pile)) => pile.first_used(),
            None => None,
        }
    }

    /// Takes the next chunk out: the first of the group of greatest priority. `None` where none is
    /// pinned.
    pub fn take_next(&mut self) -> Option<(Priority, Held<L>)>
        ensures next { option_map (λ next. (next.0, buffer_of next.1)) result ≡ next_of self.old }
        ensures rest { self.new ≡ without_next self.old (greatest_of self.old) }
        ensures first { (id : TriggerId) → option_map (λ next. pin_for (group_at id next.0) (buffer_of next.1)) result
            ≡ slice_get (in_order id self.old) 0 }
        ensures left { (id : TriggerId) → in_order id self.new ≡ drop 1 (in_order id self.old) }
        ensures count { OnSome result (count_of self.new + 1 ≡ count_of self.old) }
        ensures none { IfNone result (self.new ≡ self.old) }
    {
        let priority = greatest(&self.groups)?;
        let held = take_first(&mut self.groups, priority);
        self.chunks -= 1;
        Some((priority, held))
    }

    /// Takes all chunks of the group of least priority out, in their order. `None` where none is
    /// pinned.
    pub fn take_least(&mut self) -> Option<(Priority, List<Held<L>>)>
        ensures least { option_map (λ least. (least.0, map buffer_of least.1.items)) result ≡ slice_get self.old 0 }
        ensures rest { self.new ≡ drop 1 self.old }
        ensures count { IfSome result (λ least.
            count_of self.new + length least.1.items ≡ count_of self.old) }
        ensures some { IfSome result (λ least. 0 < length least.1.items) }
        ensures none { IfNone result (self.new ≡ self.old) }
    {
        let (priority, pile) = self.groups.pop_first()?;
        self.chunks -= pile.len() as u32;
        Some((priority, pile.into_list()))
    }
}

/// The greatest priority of a map, or `None` where it is empty.
fn greatest<L: Token>(groups: &BTreeMap<Priority, Pile<L>>) -> Option<Priority>
    ensures value { result ≡ greatest_of groups.now.entries }
    ensures found { IfSome result (λ p. IsSome (lookup (same_priority p) groups.now.entries)) }
{
    match groups.last_key_value() {
        Some((priority, _)) => Some(*priority),
        None => None,
    }
}

/// Takes the first chunk of a group out. A group without a chunk goes.
fn take_first<L: Token>(groups: &mut BTreeMap<Priority, Pile<L>>, priority: Priority) -> Held<L>
    requires found { IsSome (lookup (same_priority priority) groups.old.entries) }
    requires some { HaveChunks groups.old.entries }
    ensures first { slice_get (chunks_of groups.old.entries priority) 0 ≡ Some (buffer_of result) }
    ensures rest { groups.new.entries
        ≡ without_first groups.old.entries priority (drop 1 (chunks_of groups.old.entries priority)) }
{
    let Some(pile) = groups.get_mut(&priority) else {
        unreachable!()
    };
    let Some(held) = pile.take_first() else {
        unreachable!()
    };
    let emptied = pile.is_empty();
    if !emptied {
        return held;
    }
    groups.remove(&priority);
    held
}

/// Pins chunks for the group of this priority. For want of memory they come back, and nothing changes.
fn add_chunks<L: Token>(
    groups: &mut BTreeMap<Priority, Pile<L>>,
    priority: Priority,
    chunks: List<Held<L>>,
) -> Result<(), List<Held<L>>>
    requires { 0 < length chunks.items }
    ensures ok { OnOk result (groups.new.entries
        ≡ pinned groups.old.entries priority (map buffer_of chunks.items)) }
    ensures err { OnErr result (groups.new.entries ≡ groups.old.entries) }
    ensures back { IfErr result (λ back. map buffer_of back.items ≡ map buffer_of chunks.items) }
{
    if let Some(pile) = groups.get_mut(&priority) {
        return pile.append(chunks);
    }
    add_pile(groups, priority, chunks)
}

/// Pins a chunk for the group of this priority. For want of memory it comes back, and nothing changes.
fn add_chunk<L: Token>(
    alloc: Global,
    groups: &mut BTreeMap<Priority, Pile<L>>,
    priority: Priority,
    held: Held<L>,
) -> Result<(), Held<L>>
    ensures ok { OnOk result (groups.new.entries
        ≡ pinned groups.old.entries priority (buffer_of held ∷ [])) }
    ensures err { OnErr result (groups.new.entries ≡ groups.old.entries) }
    ensures back { IfErr result (λ back. buffer_of back ≡ buffer_of held) }
{
    if let Some(pile) = groups.get_mut(&priority) {
        return pile.push(held);
    }
    let Ok(mut chunks) = List::with_room(alloc, 1) else {
        return Err(held);
    };
    chunks.push(held);
    match add_pile(groups, priority, chunks) {
        Ok(()) => Ok(()),
        Err(mut back) => match back.pop() {
            Some(held) => Err(held),
            None => unreachable!(),
        },
    }
}

/// Adds a group with these chunks to a map that has none of this priority. For want of memory the
/// chunks come back, and nothing changes.
fn add_pile<L: Token>(
    groups: &mut BTreeMap<Priority, Pile<L>>,
    priority: Priority,
    chunks: List<Held<L>>,
) -> Result<(), List<Held<L>>>
    ensures ok { OnOk result (groups.new.entries
        ≡ insert_entry priority_cmp groups.old.entries priority (map buffer_of chunks.items)) }
    ensures err { OnErr result (groups.new.entries ≡ groups.old.entries) }
    ensures back { IfErr result (λ back. map buffer_of back.items ≡ map buffer_of chunks.items) }
{
    match groups.insert(priority, Pile::of(chunks)) {
        Ok(_) => Ok(()),
        Err(failed) => {
            let (_, pile) = failed.value;
            Err(pile.into_list())
        }
    }
}
