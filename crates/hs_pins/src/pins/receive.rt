//! Chunks that come to the pins, where all memory is asked for first.

ghost use Rattle.std.specs.Prelude.{◌≡◌, ◌+◌, ◌<◌, ◌≤◌, ◌^◌, [], ◌∷◌, length, map, OnOk, OnErr, IfOk, IfErr, IsSome};
ghost use Rattle.indexmap.specs.IndexSet.{spare};
ghost use Rattle.hs_words.specs.Buffers.{buffer_of};
ghost use Rattle.hs_pins.specs.Remembered.{Remembered, claim_for, arrived, pin_of, pin_for};
ghost use Rattle.hs_pins.specs.Receiving.{received, goes_with};
ghost use Rattle.hs_pins.specs.PinsLayout.{Pinning, Remembers, KnowsThat};

use super::{Pins, claiming_group};
use crate::abandon::abandon_over;
use crate::claim::Dropped;
use crate::priority::{Mark, Priority};
use hs_base::{Group, List, Memory};
use hs_words::{Held, Token};
use indexmap::IndexSet;
use std::alloc::Global;

impl<L: Token> Pins<L> {
    /// Takes a chunk of a claimed trace, as `arrive` does, and then abandons groups, as `abandon` does. Answers the
    /// chunks that go: this one, where the claiming group was abandoned, or those of the groups that give way. All
    /// memory is asked for first: where it is wanting the chunk comes back, and nothing changes.
    pub fn receive(&mut self, held: Held<L>) -> Result<List<Dropped<L>>, Held<L>>
        requires claimed { KnowsThat self.old (λ memory.
            IsSome (claim_for memory.claims (buffer_of held))) }
        requires few { KnowsThat self.old (λ memory. length memory.pinned + 1 < 2 ^ 32) }
        ensures gone { (memory : Remembered L) → Remembers self.old memory
            → IfOk result (λ gone. map pin_of gone.items ≡ goes_with memory (buffer_of held)) }
        ensures after { (memory : Remembered L) → Remembers self.old memory
            → OnOk result (Remembers self.new (received memory (buffer_of held))) }
        ensures few { (memory : Remembered L) → Remembers self.old memory
            → IfOk result (λ gone. length gone.items ≤ length memory.pinned + 1) }
        ensures between { (memory : Remembered L) → Remembers self.old memory
            → OnOk result ((between : Pinning L) × Remembers between (arrived memory (buffer_of held))) }
        ensures same { OnErr result (self.new ≡ self.old) }
        ensures back { IfErr result (λ back. buffer_of back ≡ buffer_of held) }
    {
        let group = claiming_group(&self.claims, &held);
        if self.abandoned.contains(&Mark::of(&group)) {
            return dropped_alone(self.alloc, held, group);
        }
        let pinned = self.queues.chunks();
        let all = pinned as usize + 1;
        let Ok(mut dropped) = room_to_drop(self.alloc, &mut self.abandoned, all, self.most) else {
            return Err(held);
        };
        let priority = Priority::of(&group);
        let added = self
            .queues
            .pin_one(self.alloc, group.trigger, priority, held);
        if let Err(back) = added {
            return Err(back);
        }
        if pinned < self.most {
            return Ok(dropped);
        }
        abandon_over(
            &mut self.queues,
            &mut self.abandoned,
            self.most,
            &mut dropped,
        );
        Ok(dropped)
    }
}

/// Room for what is dropped where so many chunks are pinned, and for the marks of its groups.
pub(super) fn room_to_drop<L: Token>(
    alloc: Global,
    marks: &mut IndexSet<Mark>,
    pinned: usize,
    most: u32,
) -> Result<List<Dropped<L>>, Memory>
    ensures keys { marks.new.keys ≡ marks.old.keys }
    ensures empty { IfOk result (λ dropped. dropped.items ≡ []) }
    ensures chunks { IfOk result (λ dropped. most < pinned → pinned ≤ dropped.room) }
    ensures groups { OnOk result (pinned ≤ spare marks.new + most) }
{
    let most = most as usize;
    if pinned <= most {
        return Ok(List::new(alloc));
    }
    let dropped = List::with_room(alloc, pinned)?;
    marks.reserve(pinned - most)?;
    Ok(dropped)
}

/// A chunk that is not pinned, among what is dropped. For want of memory it comes back.
fn dropped_alone<L: Token>(
    alloc: Global,
    held: Held<L>,
    group: Group,
) -> Result<List<Dropped<L>>, Held<L>>
    ensures ok { IfOk result (λ dropped. map pin_of dropped.items ≡ pin_for group (buffer_of held) ∷ []) }
    ensures back { IfErr result (λ back. buffer_of back ≡ buffer_of held) }
{
    let Ok(mut dropped) = List::with_room(alloc, 1) else {
        return Err(held);
    };
    dropped.push(Dropped { held, group });
    Ok(dropped)
}
