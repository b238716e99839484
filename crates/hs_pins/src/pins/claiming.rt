//! A group that claims traces, where all memory was asked for first.

ghost use Rattle.std.specs.Prelude.{◌≡◌, ◌+◌, ◌<◌, ◌≤◌, ◌^◌, length, map, true, None, is_some, OnErr, IfOk};
ghost use Rattle.hs_base.specs.Rules.{is_declared};
ghost use Rattle.hs_words.specs.Buffers.{buffer_of};
ghost use Rattle.hs_pins.specs.Remembered.{Remembered, claim_of, claimed, pin_of};
ghost use Rattle.hs_pins.specs.Abandoning.{drops, relieved};
ghost use Rattle.hs_pins.specs.Opens.{restored};
ghost use Rattle.hs_pins.specs.PinsLayout.{Pinning, Remembers, KnowsThat};

use super::Pins;
use super::receive::room_to_drop;
use crate::abandon::abandon_over;
use crate::claim::{Dropped, Taken2};
use crate::claims::{Claims, Party};
use crate::pinned::Opened;
use crate::priority::{Mark, Priority};
use hs_base::{Group, Laterals, List, Memory, TraceId};
use hs_words::Token;
use indexmap::IndexSet;
use std::marker::Model;
use std::mem::replace;

/// A group that claims traces, with room for them and for their chunks, and with what changes meanwhile. Contracts see the
/// pins as they are with it put back.
#[derive(Drop)]
pub struct Claiming<L: Token> {
    party: Party,
    claims: Claims,
    opened: Opened<L>,
    marks: IndexSet<Mark>,
    /// Empty, with room for what may be dropped.
    dropped: List<Dropped<L>>,
    /// For how many chunks more there is room.
    left: usize,
    most: u32,
    /// How many chunks may be pinned at the end.
    ready: usize,
}

impl<L: Token> Model for Claiming<L> {
    ghost use Rattle.hs_pins.specs.Opens.{Opening};

    ghost Value = { Opening L };

    ghost use Rattle.hs_pins.specs.OpensLayout.{opening_in, IsOpening};

    ghost view = { opening_in };

    ghost invariant = { IsOpening };
}

impl<L: Token> Pins<L> {
    /// A group of a declared trigger id that is to claim so many traces at most, with so many chunks at most. All memory is
    /// asked for here: where it is wanting nothing changes. `close` puts back what the group has of the pins meanwhile.
    pub fn open(
        &mut self,
        group: Group,
        laterals: Laterals,
        traces: usize,
        chunks: u32,
    ) -> Result<Claiming<L>, Memory>
        requires declared { KnowsThat self.old (λ memory. is_declared memory.rules group.trigger ≡ true) }
        requires few { KnowsThat self.old (λ memory. length memory.pinned + chunks < 2 ^ 32) }
        ensures back { IfOk result (λ claiming. restored self.new claiming ≡ self.old) }
        ensures group { IfOk result (λ claiming. claiming.group ≡ group) }
        ensures laterals { IfOk result (λ claiming. claiming.laterals ≡ laterals) }
        ensures traces { IfOk result (λ claiming. traces ≤ claiming.traces) }
        ensures chunks { IfOk result (λ claiming. claiming.chunks ≡ chunks) }
        ensures ready { (memory : Remembered L) → Remembers self.old memory
            → IfOk result (λ claiming. claiming.ready ≡ length memory.pinned + chunks) }
        ensures most { IfOk result (λ claiming. claiming.most ≡ self.old.most) }
        ensures same { OnErr result (self.new ≡ self.old) }
    {
        let ready = self.queues.chunks() as usize + chunks as usize;
        self.claims.reserve(traces)?;
        let dropped = room_to_drop(self.alloc, &mut self.abandoned, ready, self.most)?;
        let priority = Priority::of(&group);
        let opened = self
            .queues
            .open(self.alloc, group.trigger, priority, chunks as usize)?;
        Ok(Claiming {
            party: Party { group, laterals },
            claims: replace(&mut self.claims, Claims::new(self.alloc)),
            opened,
            marks: replace(&mut self.abandoned, IndexSet::new(self.alloc)),
            dropped,
            left: chunks as usize,
            most: self.most,
            ready,
        })
    }

    /// Puts back what a group has of the pins, and then abandons groups, as `abandon` does. Answers the chunks that go. It
    /// takes no memory.
    pub fn close(&mut self, claiming: Claiming<L>) -> List<Dropped<L>>
        requires { KnowsThat (restored self.old claiming) (λ memory.
            (length memory.pinned ≤ claiming.ready) × (claiming.most ≡ self.old.most)
            × (is_declared memory.rules claiming.group.trigger ≡ true)) }
        ensures gone { (memory : Remembered L) → Remembers (restored self.old claiming) memory
            → map pin_of result.items ≡ drops memory }
        ensures after { (memory : Remembered L) → Remembers (restored self.old claiming) memory
            → Remembers self.new (relieved memory) }
        ensures few { (memory : Remembered L) → Remembers (restored self.old claiming) memory
            → length result.items ≤ length memory.pinned }
    {
        let Claiming {
            party,
            claims,
            opened,
            marks,
            mut dropped,
            left: _,
            most: _,
            ready: _,
        } = claiming;
        self.claims = claims;
        self.abandoned = marks;
        self.queues.close(party.group.trigger, opened);
        if self.queues.chunks() <= self.most {
            return dropped;
        }
        abandon_over(
            &mut self.queues,
            &mut self.abandoned,
            self.most,
            &mut dropped,
        );
        dropped
    }
}

impl<L: Token> Claiming<L> {
    /// Whether a trace is claimed, by this group or another.
    pub fn has(&self, trace: TraceId) -> bool
        ensures { result ≡ is_some (claim_of self.now.claims trace) }
    {
        self.claims.group_of(trace).is_some()
    }

    /// Claims a trace that is not claimed, with what was indexed of it. There is room. It takes no memory.
    pub fn claim(&mut self, trace: TraceId, taken: Taken2<L>)
        requires unclaimed { claim_of self.old.claims trace ≡ None }
        requires traces { 1 ≤ self.old.traces }
        requires chunks { length taken.held.items ≤ self.old.chunks }
        ensures after { (pins : Pinning L) (memory : Remembered L) → Remembers (restored pins self.old) memory
            → is_declared memory.rules self.old.group.trigger ≡ true
            → length memory.pinned + length taken.held.items < 2 ^ 32
            → Remembers (restored pins self.new) (claimed memory self.old.group self.old.laterals trace
            (map buffer_of taken.held.items) taken.crumbs) }
        ensures group { self.new.group ≡ self.old.group }
        ensures laterals { self.new.laterals ≡ self.old.laterals }
        ensures traces { self.old.traces ≤ self.new.traces + 1 }
        ensures chunks { self.new.chunks + length taken.held.items ≡ self.old.chunks }
        ensures most { self.new.most ≡ self.old.most }
        ensures ready { self.new.ready ≡ self.old.ready }
    {
        let Taken2 { held, crumbs } = taken;
        self.left -= held.len();
        self.opened.pin(held);
        self.claims.add(trace, self.party, crumbs);
    }
}
