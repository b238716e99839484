//! The pinned chunks of a node.

ghost use Rattle.std.specs.Prelude.{◌≡◌, ◌+◌, ◌<◌, ◌≤◌, ◌^◌, [], ◌∷◌, length, map, drop, slice_get, OnOk, OnErr, IfOk, IfErr, IfSome, OnSome, IfNone, IsSome, is_some, option_map};
ghost use Rattle.hs_words.specs.Buffers.{buffer_of};
ghost use Rattle.hs_pins.specs.Waiting.{used_bytes};
ghost use Rattle.hs_pins.specs.PinsLayout.{in_order};
ghost use Rattle.hs_pins.specs.Priorities.{group_at, same_priority};
ghost use Rattle.std.specs.Map.{lookup};
ghost use Rattle.hs_pins.specs.Remembered.{pin_for};
ghost use Rattle.hs_pins.specs.Groups.{count_of, greatest_of, next_of, without_next};
ghost use Rattle.hs_pins.specs.Queues.{has_queue, groups_of, total_of, with_groups, pinned_in, fresh_queues, IsFullest};
ghost use Rattle.hs_base.specs.Rules.{AreRules};

use crate::pinned::{Opened, Pinned};
use crate::priority::Priority;
use hs_base::{List, Memory, TriggerId, TriggerRule};
use hs_words::{Held, Token};
use std::alloc::Global;
use std::collections::BTreeMap;
use std::marker::Model;
use std::mem::replace;

/// The pinned chunks of each declared trigger id. Contracts see the groups of each id, in rising
/// order of id.
#[derive(Drop)]
pub struct TriggerQueues<L: Token> {
    queues: BTreeMap<TriggerId, Pinned<L>>,
    chunks: u32,
}

impl<L: Token> Model for TriggerQueues<L> {
    ghost use Rattle.std.specs.Prelude.{◌≡◌};
    ghost use Rattle.hs_pins.specs.Queues.{Queues, total_of};

    ghost Value = { Queues L };

    ghost view = { λ a. a.queues.entries };

    ghost invariant = { λ a. a.chunks ≡ total_of a.queues.entries };
}

impl<L: Token> TriggerQueues<L> {
    /// TriggerQueues of these trigger ids, for which nothing is pinned.
    pub fn make(alloc: Global, rules: &[TriggerRule]) -> Result<TriggerQueues<L>, Memory>
        requires { AreRules rules.now }
        ensures fresh { IfOk result (λ queues. queues ≡ fresh_queues rules.now) }
        ensures some { OnErr result (0 < length rules.now) }
    {
        let queues = empty_queues(alloc, rules)?;
        Ok(TriggerQueues { queues, chunks: 0 })
    }

    /// Whether a chunk is pinned for the group of this trigger id and priority.
    pub fn has(&self, trigger: TriggerId, priority: Priority) -> bool
        ensures { result ≡ is_some (lookup (same_priority priority) (groups_of self.now trigger)) }
    {
        match self.queues.get(&trigger) {
            Some(pinned) => pinned.has(priority),
            None => false,
        }
    }

    /// How many chunks are pinned.
    pub fn chunks(&self) -> u32
        ensures { result ≡ total_of self.now }
    {
        self.chunks
    }

    /// Pins chunks for the group of this trigger id and priority. For want of memory they come back,
    /// and nothing changes. Pinning none takes no memory.
    pub fn pin(
        &mut self,
        trigger: TriggerId,
        priority: Priority,
        chunks: List<Held<L>>,
    ) -> Result<(), List<Held<L>>>
        requires declared { has_queue self.old trigger }
        requires few { total_of self.old + length chunks.items < 2 ^ 32 }
        ensures ok { OnOk result (self.new ≡ pinned_in self.old trigger priority (map buffer_of chunks.items)) }
        ensures count { OnOk result (total_of self.new ≡ total_of self.old + length chunks.items) }
        ensures err { OnErr result (self.new ≡ self.old) }
        ensures back { IfErr result (λ back. map buffer_of back.items ≡ map buffer_of chunks.items) }
        ensures some { OnErr result (0 < length chunks.items) }
    {
        let count = chunks.len() as u32;
        pin_chunks(&mut self.queues, trigger, priority, chunks)?;
        self.chunks += count;
        Ok(())
    }

    /// Pins one chunk for the group of this trigger id and priority. For want of memory it comes back,
    /// and nothing changes.
    pub fn pin_one(
        &mut self,
        alloc: Global,
        trigger: TriggerId,
        priority: Priority,
        held: Held<L>,
    ) -> Result<(), Held<L>>
        requires declared { has_queue self.old trigger }
        requires few { total_of self.old + 1 < 2 ^ 32 }
        ensures ok { OnOk result (self.new ≡ pinned_in self.old trigger priority (buffer_of held ∷ [])) }
        ensures count { OnOk result (total_of self.new ≡ total_of self.old + 1) }
        ensures err { OnErr result (self.new ≡ self.old) }
        ensures back { IfErr result (λ back. buffer_of back ≡ buffer_of held) }
    {
        pin_chunk(alloc, &mut self.queues, trigger, priority, held)?;
        self.chunks += 1;
        Ok(())
    }

    /// The used bytes of the next chunk of a trigger id, or `None` where none is pinned for it.
    pub fn next_used(&self, trigger: TriggerId) -> Option<u32>
        ensures { result ≡ option_map (λ pin. used_bytes pin.chunk)
            (slice_get (in_order trigger (groups_of self.now trigger)) 0) }
    {
        match self.queues.get(&trigger) {
            Some(pinned) => pinned.next_used(),
            None => None,
        }
    }

    /// Takes the next chunk of a trigger id out. `None` where none is pinned for it.
    pub fn take_next(&mut self, trigger: TriggerId) -> Option<(Priority, Held<L>)>
        ensures next { option_map (λ next. (next.0, buffer_of next.1)) result ≡ next_of (groups_of self.old trigger) }
        ensures rest { self.new ≡ with_groups self.old trigger
            (without_next (groups_of self.old trigger) (greatest_of (groups_of self.old trigger))) }
        ensures first { option_map (λ next. pin_for (group_at trigger next.0) (buffer_of next.1)) result
            ≡ slice_get (in_order trigger (groups_of self.old trigger)) 0 }
        ensures left { in_order trigger (groups_of self.new trigger)
            ≡ drop 1 (in_order trigger (groups_of self.old trigger)) }
        ensures count { OnSome result (total_of self.new + 1 ≡ total_of self.old) }
    {
        let taken = take_from(&mut self.queues, trigger)?;
        self.chunks -= 1;
        Some(taken)
    }

    /// Takes all chunks of the group of least priority of a declared trigger id out, in their order. `None`
    /// where none is pinned for the id.
    pub fn take_least(&mut self, trigger: TriggerId) -> Option<(Priority, List<Held<L>>)>
        requires declared { has_queue self.old trigger }
        ensures least { option_map (λ least. (least.0, map buffer_of least.1.items)) result ≡ slice_get (groups_of self.old trigger) 0 }
        ensures rest { self.new ≡ with_groups self.old trigger (drop 1 (groups_of self.old trigger)) }
        ensures count { IfSome result (λ least. total_of self.new + length least.1.items ≡ total_of self.old) }
        ensures some { IfSome result (λ least. 0 < length least.1.items) }
    {
        let (priority, chunks) = take_least_from(&mut self.queues, trigger)?;
        self.chunks -= chunks.len() as u32;
        Some((priority, chunks))
    }

    /// Takes the groups of a declared trigger id out, with the one of this priority open and room for so many of its
    /// chunks. For want of memory nothing changes.
    pub fn open(
        &mut self,
        alloc: Global,
        trigger: TriggerId,
        priority: Priority,
        room: usize,
    ) -> Result<Opened<L>, Memory>
        requires { has_queue self.old trigger }
        ensures back { IfOk result (λ opened. with_groups self.new trigger opened.groups ≡ self.old) }
        ensures declared { OnOk result (has_queue self.new trigger) }
        ensures priority { IfOk result (λ opened. opened.priority ≡ priority) }
        ensures room { IfOk result (λ opened. room ≤ opened.room) }
        ensures few { IfOk result (λ opened. count_of opened.groups ≤ total_of self.old) }
        ensures err { OnErr result (self.new ≡ self.old) }
    {
        let opened = open_queue(alloc, &mut self.queues, trigger, priority, room)?;
        self.chunks -= opened.chunks();
        Ok(opened)
    }

    /// Puts the groups of a declared trigger id back, in place of those that it has. It takes no memory.
    pub fn close(&mut self, trigger: TriggerId, opened: Opened<L>)
        requires declared { has_queue self.old trigger }
        requires few { total_of (with_groups self.old trigger opened.groups) < 2 ^ 32 }
        ensures { self.new ≡ with_groups self.old trigger opened.groups }
    {
        let count = opened.chunks();
        let before = close_queue(&mut self.queues, trigger, opened);
        self.chunks -= before;
        self.chunks += count;
    }

    /// The trigger id for which most chunks are pinned, and of equal ones the smallest. `None` where
    /// nothing is pinned.
    pub fn fullest(&self) -> Option<TriggerId>
        ensures found { IfSome result (λ id. IsFullest self.now id) }
        ensures none { IfNone result (total_of self.now ≡ 0) }
    {
        let mut most = 0;
        let mut fullest = None;
        for (id, pinned) in self.queues.iter() {
            let count = pinned.chunks();
            if count > most {
                most = count;
                fullest = Some(*id);
            }
        }
        fullest
    }
}

fn open_queue<L: Token>(
    alloc: Global,
    queues: &mut BTreeMap<TriggerId, Pinned<L>>,
    trigger: TriggerId,
    priority: Priority,
    room: usize,
) -> Result<Opened<L>, Memory>
    requires { has_queue queues.old.entries trigger }
    ensures back { IfOk result (λ opened. with_groups queues.new.entries trigger opened.groups ≡ queues.old.entries) }
    ensures declared { OnOk result (has_queue queues.new.entries trigger) }
    ensures priority { IfOk result (λ opened. opened.priority ≡ priority) }
    ensures room { IfOk result (λ opened. room ≤ opened.room) }
    ensures count { IfOk result (λ opened. total_of queues.new.entries + count_of opened.groups ≡ total_of queues.old.entries) }
    ensures err { OnErr result (queues.new.entries ≡ queues.old.entries) }
{
    let Some(pinned) = queues.get_mut(&trigger) else {
        unreachable!()
    };
    pinned.open(alloc, priority, room)
}

/// Puts the groups of a declared trigger id back, and answers how many chunks were pinned for those that it had.
fn close_queue<L: Token>(
    queues: &mut BTreeMap<TriggerId, Pinned<L>>,
    trigger: TriggerId,
    opened: Opened<L>,
) -> u32
    requires { has_queue queues.old.entries trigger }
    ensures groups { queues.new.entries ≡ with_groups queues.old.entries trigger opened.groups }
    ensures count { total_of queues.new.entries + result ≡ total_of queues.old.entries + count_of opened.groups }
    ensures few { result ≤ total_of queues.old.entries }
{
    let Some(pinned) = queues.get_mut(&trigger) else {
        unreachable!()
    };
    let before = replace(pinned, opened.close());
    before.chunks()
}

fn take_least_from<L: Token>(
    queues: &mut BTreeMap<TriggerId, Pinned<L>>,
    trigger: TriggerId,
) -> Option<(Priority, List<Held<L>>)>
    requires { has_queue queues.old.entries trigger }
    ensures least { option_map (λ least. (least.0, map buffer_of least.1.items)) result ≡ slice_get (groups_of queues.old.entries trigger) 0 }
    ensures rest { queues.new.entries ≡ with_groups queues.old.entries trigger (drop 1 (groups_of queues.old.entries trigger)) }
    ensures count { IfSome result (λ least. total_of queues.new.entries + length least.1.items ≡ total_of queues.old.entries) }
    ensures some { IfSome result (λ least. 0 < length least.1.items) }
    ensures none { IfNone result (queues.new.entries ≡ queues.old.entries) }
{
    let Some(pinned) = queues.get_mut(&trigger) else {
        unreachable!()
    };
    pinned.take_least()
}

fn take_from<L: Token>(
    queues: &mut BTreeMap<TriggerId, Pinned<L>>,
    trigger: TriggerId,
) -> Option<(Priority, Held<L>)>
    ensures next { option_map (λ next. (next.0, buffer_of next.1)) result ≡ next_of (groups_of queues.old.entries trigger) }
    ensures rest { queues.new.entries ≡ with_groups queues.old.entries trigger
        (without_next (groups_of queues.old.entries trigger) (greatest_of (groups_of queues.old.entries trigger))) }
    ensures first { option_map (λ next. pin_for (group_at trigger next.0) (buffer_of next.1)) result
        ≡ slice_get (in_order trigger (groups_of queues.old.entries trigger)) 0 }
    ensures left { in_order trigger (groups_of queues.new.entries trigger)
        ≡ drop 1 (in_order trigger (groups_of queues.old.entries trigger)) }
    ensures count { OnSome result (total_of queues.new.entries + 1 ≡ total_of queues.old.entries) }
    ensures none { IfNone result (queues.new.entries ≡ queues.old.entries) }
{
    match queues.get_mut(&trigger) {
        Some(pinned) => pinned.take_next(),
        None => None,
    }
}

fn empty_queues<L: Token>(
    alloc: Global,
    rules: &[TriggerRule],
) -> Result<BTreeMap<TriggerId, Pinned<L>>, Memory>
    requires { AreRules rules.now }
    ensures fresh { IfOk result (λ queues. queues.entries ≡ fresh_queues rules.now) }
    ensures some { OnErr result (0 < length rules.now) }
{
    let mut queues = BTreeMap::new(alloc);
    for rule in rules {
        queues.insert(rule.id, Pinned::new(alloc))?;
    }
    Ok(queues)
}

fn pin_chunks<L: Token>(
    queues: &mut BTreeMap<TriggerId, Pinned<L>>,
    trigger: TriggerId,
    priority: Priority,
    chunks: List<Held<L>>,
) -> Result<(), List<Held<L>>>
    requires declared { has_queue queues.old.entries trigger }
    requires few { total_of queues.old.entries + length chunks.items < 2 ^ 32 }
    ensures ok { OnOk result (queues.new.entries ≡ pinned_in queues.old.entries trigger priority (map buffer_of chunks.items)) }
    ensures count { OnOk result (total_of queues.new.entries ≡ total_of queues.old.entries + length chunks.items) }
    ensures err { OnErr result (queues.new.entries ≡ queues.old.entries) }
    ensures back { IfErr result (λ back. map buffer_of back.items ≡ map buffer_of chunks.items) }
    ensures some { OnErr result (0 < length chunks.items) }
{
    let Some(pinned) = queues.get_mut(&trigger) else {
        unreachable!()
    };
    pinned.pin(priority, chunks)
}

fn pin_chunk<L: Token>(
    alloc: Global,
    queues: &mut BTreeMap<TriggerId, Pinned<L>>,
    trigger: TriggerId,
    priority: Priority,
    held: Held<L>,
) -> Result<(), Held<L>>
    requires declared { has_queue queues.old.entries trigger }
    requires few { total_of queues.old.entries + 1 < 2 ^ 32 }
    ensures ok { OnOk result (queues.new.entries ≡ pinned_in queues.old.entries trigger priority (buffer_of held ∷ [])) }
    ensures count { OnOk result (total_of queues.new.entries ≡ total_of queues.old.entries + 1) }
    ensures err { OnErr result (queues.new.entries ≡ queues.old.entries) }
    ensures back { IfErr result (λ back. buffer_of back ≡ buffer_of held) }
{
    let Some(pinned) = queues.get_mut(&trigger) else {
        unreachable!()
    };
    pinned.pin_one(alloc, priority, held)
}
