//! What triggers claim at a node (`docs/RULES.md`, "Pins").

ghost use Rattle.std.specs.Prelude.{◌≡◌, ◌≢◌, ◌+◌, ◌<◌, ◌≤◌, ◌^◌, ℕ, true, false, not, [], length, map, drop, slice_get, OnOk, OnErr, IfOk, IfErr, OnSome, IfNone, IsSome, None, Some, option_map};
ghost use Rattle.hs_base.specs.Rules.{AreRules, is_declared};
ghost use Rattle.hs_words.specs.Buffers.{buffer_of};
ghost use Rattle.hs_pins.specs.Remembered.{Remembered, fresh, claim_of, claim_for, has_crumb, answered, tried_at, claimed, comes_back, handed_back, arrived, crumbed, pin_of, is_settled, forgot};
ghost use Rattle.hs_pins.specs.Abandoning.{drops, relieved};
ghost use Rattle.hs_pins.specs.Waiting.{used_bytes, taken};
ghost use Rattle.hs_pins.specs.PinsLayout.{Remembers, KnowsThat, waiting, Buckets, bucket_in, fresh_buckets_of, Attempts};

mod claiming;
mod receive;

use crate::abandon::abandon_over;
use crate::bucket::{Attempt, Bucket};
use crate::claim::{Admitted, Dropped, Taken2};
use crate::claims::{Claims, Party};
use crate::priority::{Mark, Priority};
use crate::queues::TriggerQueues;
pub use claiming::Claiming;
use hs_base::limits::MOST_NODES;
use hs_base::{
    Crumb, Group, Laterals, List, Memory, NodeId, NodeSet, Settings, TraceId, TriggerId,
    TriggerRule,
};
use hs_words::{Held, Token};
use indexmap::IndexSet;
use std::alloc::Global;
use std::collections::BTreeMap;
use std::marker::Model;

/// The claims of a node and what is pinned for them. Contracts speak of what the node remembers: where
/// pins were made and called, `Remembers` says of which `Remembered` they are the pins.
#[derive(Drop)]
pub struct Pins<L: Token> {
    alloc: Global,
    node: NodeId,
    most: u32,
    admitted: u32,
    claims: Claims,
    buckets: BTreeMap<TriggerId, Bucket>,
    queues: TriggerQueues<L>,
    abandoned: IndexSet<Mark>,
}

impl<L: Token> Model for Pins<L> {
    ghost use Rattle.hs_pins.specs.PinsLayout.{Pinning};

    ghost Value = { Pinning L };

    ghost view = { λ a. record {
      node = a.node.0;
      most = a.most;
      admitted = a.admitted;
      claims = a.claims.claims;
      buckets = a.buckets.entries;
      queues = a.queues;
      abandoned = a.abandoned.keys;
    } };
}

impl<L: Token> Pins<L> {
    /// Pins of a node that remembers nothing yet, with a full bucket for each declared trigger id. They
    /// take memory for these ids alone.
    pub fn make(alloc: Global, node: NodeId, settings: &Settings) -> Result<Pins<L>, Memory>
        requires { AreRules settings.now.triggers.items }
        ensures fresh { IfOk result (λ pins. Remembers pins
            (fresh node.0 settings.now.pins settings.now.triggers.items)) }
        ensures some { OnErr result (0 < length settings.now.triggers.items) }
    {
        let rules = settings.triggers.as_slice();
        let buckets = full_buckets(alloc, rules)?;
        let queues = TriggerQueues::make(alloc, rules)?;
        Ok(Pins {
            alloc,
            node,
            most: settings.pins,
            admitted: 0,
            claims: Claims::new(alloc),
            buckets,
            queues,
            abandoned: IndexSet::new(alloc),
        })
    }

    /// Takes the memory for so many claims more, each of a group of its own, and for the marks of as many groups that are
    /// abandoned.
    pub fn reserve_claims(&mut self, claims: usize) -> Result<(), Memory>
        ensures { self.new ≡ self.old }
    {
        self.claims.reserve_each(claims)?;
        self.abandoned.reserve(claims)?;
        Ok(())
    }

    /// Takes a trigger of a declared id at a moment in microseconds, and answers whether it is admitted.
    pub fn admit(&mut self, trigger: TriggerId, moment: u64) -> Admitted
        requires declared { KnowsThat self.old (λ memory. is_declared memory.rules trigger ≡ true) }
        requires few { KnowsThat self.old (λ memory. memory.admitted + 1 < 2 ^ 32) }
        ensures answer { (memory : Remembered L) → Remembers self.old memory
            → answered memory trigger moment ≡ Some result }
        ensures after { (memory : Remembered L) → Remembers self.old memory
            → Remembers self.new (tried_at memory trigger moment) }
    {
        match attempt(&mut self.buckets, trigger, moment) {
            Attempt::Admitted => {
                let number = self.admitted;
                self.admitted += 1;
                Admitted::Admitted { number }
            }
            Attempt::Limited { level } => Admitted::Limited { level },
        }
    }

    /// What `admit` would answer. Nothing changes.
    pub fn would_admit(&self, trigger: TriggerId, moment: u64) -> Admitted
        requires { KnowsThat self.now (λ memory. is_declared memory.rules trigger ≡ true) }
        ensures { (memory : Remembered L) → Remembers self.now memory
            → answered memory trigger moment ≡ Some result }
    {
        match would_attempt(&self.buckets, trigger, moment) {
            Attempt::Admitted => Admitted::Admitted {
                number: self.admitted,
            },
            Attempt::Limited { level } => Admitted::Limited { level },
        }
    }

    /// How many triggers of clients were admitted so far.
    pub fn admitted(&self) -> u32
        ensures { (memory : Remembered L) → Remembers self.now memory → result ≡ memory.admitted }
    {
        self.admitted
    }

    /// The group that claimed a trace, or `None` where the trace is not claimed here.
    pub fn owner(&self, trace: TraceId) -> Option<Group>
        ensures { (memory : Remembered L) → Remembers self.now memory
            → result ≡ option_map (λ claim. claim.group) (claim_of memory.claims trace) }
    {
        self.claims.group_of(trace)
    }

    /// Claims a trace for a group, with what was indexed of it. For want of memory all comes back, and
    /// nothing changes.
    pub fn claim(
        &mut self,
        group: Group,
        laterals: Laterals,
        trace: TraceId,
        taken: Taken2<L>,
    ) -> Result<(), Taken2<L>>
        requires unclaimed { KnowsThat self.old (λ memory. claim_of memory.claims trace ≡ None) }
        requires declared { KnowsThat self.old (λ memory.
            is_declared memory.rules group.trigger ≡ true) }
        requires few { KnowsThat self.old (λ memory.
            length memory.pinned + length taken.held.items < 2 ^ 32) }
        ensures after { (memory : Remembered L) → Remembers self.old memory
            → OnOk result (Remembers self.new
            (claimed memory group laterals trace (map buffer_of taken.held.items) taken.crumbs)) }
        ensures same { OnErr result (self.new ≡ self.old) }
        ensures back { IfErr result (λ back.
            map buffer_of back.held.items ≡ map buffer_of taken.held.items) }
        ensures crumbs { IfErr result (λ back. back.crumbs ≡ taken.crumbs) }
    {
        let Taken2 { held, crumbs } = taken;
        if self.claims.reserve(1).is_err() {
            return Err(Taken2 { held, crumbs });
        }
        let priority = Priority::of(&group);
        if let Err(held) = self.queues.pin(group.trigger, priority, held) {
            return Err(Taken2 { held, crumbs });
        }
        self.claims.add(trace, Party { group, laterals }, crumbs);
        Ok(())
    }

    /// Takes a chunk of a claimed trace. It comes back exactly where the claiming group was abandoned,
    /// and else is pinned for the group. For want of memory it comes back as the error, and nothing
    /// changes.
    pub fn arrive(&mut self, held: Held<L>) -> Result<Option<Held<L>>, Held<L>>
        requires claimed { KnowsThat self.old (λ memory.
            IsSome (claim_for memory.claims (buffer_of held))) }
        requires few { KnowsThat self.old (λ memory. length memory.pinned + 1 < 2 ^ 32) }
        ensures back { (memory : Remembered L) → Remembers self.old memory
            → IfOk result (λ back. option_map buffer_of back ≡ handed_back memory (buffer_of held)) }
        ensures after { (memory : Remembered L) → Remembers self.old memory
            → OnOk result (Remembers self.new (arrived memory (buffer_of held))) }
        ensures pinned { (memory : Remembered L) → Remembers self.old memory
            → OnErr result (comes_back memory (buffer_of held) ≡ false) }
        ensures same { OnErr result (self.new ≡ self.old) }
        ensures unpinned { IfErr result (λ back. buffer_of back ≡ buffer_of held) }
    {
        let group = claiming_group(&self.claims, &held);
        if self.abandoned.contains(&Mark::of(&group)) {
            return Ok(Some(held));
        }
        let priority = Priority::of(&group);
        let pinned = self
            .queues
            .pin_one(self.alloc, group.trigger, priority, held);
        if let Err(back) = pinned {
            return Err(back);
        }
        Ok(None)
    }

    /// Adds a crumb to the set of its claimed trace, and answers whether the node is new there.
    pub fn crumb(&mut self, crumb: Crumb) -> bool
        requires claimed { KnowsThat self.old (λ memory. IsSome (claim_of memory.claims crumb.trace)) }
        requires node { crumb.node.0 < MOST_NODES }
        ensures fresh { (memory : Remembered L) → Remembers self.old memory
            → result ≡ not (has_crumb memory.claims crumb.trace crumb.node.0) }
        ensures after { (memory : Remembered L) → Remembers self.old memory
            → Remembers self.new (crumbed memory crumb.trace crumb.node) }
    {
        self.claims.add_crumb(crumb)
    }

    /// The nodes to which the crumbs of a claimed trace lead.
    pub fn crumbs(&self, trace: TraceId) -> NodeSet
        requires { KnowsThat self.now (λ memory. IsSome (claim_of memory.claims trace)) }
        ensures { (memory : Remembered L) → Remembers self.now memory
            → option_map (λ claim. claim.crumbs) (claim_of memory.claims trace) ≡ Some result }
    {
        match self.claims.crumbs_of(trace) {
            Some(crumbs) => crumbs,
            None => unreachable!(),
        }
    }

    /// The laterals with which a claimed trace was claimed.
    pub fn laterals(&self, trace: TraceId) -> Laterals
        requires { KnowsThat self.now (λ memory. IsSome (claim_of memory.claims trace)) }
        ensures { (memory : Remembered L) → Remembers self.now memory
            → option_map (λ claim. claim.laterals) (claim_of memory.claims trace) ≡ Some result }
    {
        match self.claims.laterals_of(trace) {
            Some(laterals) => laterals,
            None => unreachable!(),
        }
    }

    /// Abandons groups while more chunks are pinned than may be, and answers what was pinned for them:
    /// group after group, each group's chunks in their order. For want of memory nothing changes.
    pub fn abandon(&mut self) -> Result<List<Dropped<L>>, Memory>
        ensures dropped { (memory : Remembered L) → Remembers self.old memory
            → IfOk result (λ dropped. map pin_of dropped.items ≡ drops memory) }
        ensures after { (memory : Remembered L) → Remembers self.old memory
            → OnOk result (Remembers self.new (relieved memory)) }
        ensures within { (memory : Remembered L) → Remembers self.old memory
            → length (relieved memory).pinned ≤ memory.most }
        ensures same { OnErr result (self.new ≡ self.old) }
        ensures over { (memory : Remembered L) → Remembers self.old memory
            → OnErr result (memory.most < length memory.pinned) }
    {
        let pinned = self.queues.chunks();
        if pinned <= self.most {
            return Ok(List::new(self.alloc));
        }
        let mut dropped = List::with_room(self.alloc, pinned as usize)?;
        self.abandoned.reserve((pinned - self.most) as usize)?;
        abandon_over(
            &mut self.queues,
            &mut self.abandoned,
            self.most,
            &mut dropped,
        );
        Ok(dropped)
    }

    /// The used bytes of the next chunk of a trigger id, or `None` where none is pinned for it.
    pub fn next_cost(&self, trigger: TriggerId) -> Option<u32>
        ensures { result ≡ option_map (λ pin. used_bytes pin.chunk) (slice_get (waiting self.now trigger) 0) }
    {
        self.queues.next_used(trigger)
    }

    /// Takes the next chunk of a trigger id out: the first of the group of greatest priority. `None` where
    /// none is pinned for the id.
    pub fn take_next(&mut self, trigger: TriggerId) -> Option<Dropped<L>>
        ensures next { option_map pin_of result ≡ slice_get (waiting self.old trigger) 0 }
        ensures left { waiting self.new trigger ≡ drop 1 (waiting self.old trigger) }
        ensures others { (id : TriggerId) → id.0 ≢ trigger.0 → waiting self.new id ≡ waiting self.old id }
        ensures after { (memory : Remembered L) → Remembers self.old memory
            → Remembers self.new (taken memory trigger) }
        ensures fewer { (memory : Remembered L) → Remembers self.old memory
            → OnSome result (length (taken memory trigger).pinned + 1 ≡ length memory.pinned) }
    {
        let (priority, held) = self.queues.take_next(trigger)?;
        let group = priority.group(trigger);
        Some(Dropped { held, group })
    }

    /// Forgets a group for which nothing is pinned: its claims with their crumbs, and that it was abandoned.
    /// Answers whether it did. It takes no memory.
    pub fn forget(&mut self, group: Group) -> bool
        ensures settled { (memory : Remembered L) → Remembers self.old memory
            → result ≡ is_settled group memory }
        ensures after { (memory : Remembered L) → Remembers self.old memory
            → result ≡ true → Remembers self.new (forgot group memory) }
        ensures same { result ≡ false → self.new ≡ self.old }
    {
        if self.queues.has(group.trigger, Priority::of(&group)) {
            return false;
        }
        self.claims.forget(group);
        self.abandoned.shift_remove(&Mark::of(&group));
        true
    }

    /// How many chunks are pinned.
    pub fn chunks(&self) -> u32
        ensures { (memory : Remembered L) → Remembers self.now memory
            → result ≡ length memory.pinned }
    {
        self.queues.chunks()
    }
}

fn full_buckets(alloc: Global, rules: &[TriggerRule]) -> Result<BTreeMap<TriggerId, Bucket>, Memory>
    requires { AreRules rules.now }
    ensures fresh { IfOk result (λ buckets. buckets.entries ≡ fresh_buckets_of rules.now) }
    ensures some { OnErr result (0 < length rules.now) }
{
    let mut buckets = BTreeMap::new(alloc);
    for rule in rules {
        buckets.insert(rule.id, Bucket::make(rule.burst, rule.rate))?;
    }
    Ok(buckets)
}

/// Takes an attempt at the bucket of a trigger id.
fn attempt(buckets: &mut BTreeMap<TriggerId, Bucket>, trigger: TriggerId, moment: u64) -> Attempt
    requires { IsSome (bucket_in buckets.old.entries trigger) }
    ensures { Attempts buckets.old.entries buckets.new.entries trigger moment result }
{
    let Some(bucket) = buckets.get_mut(&trigger) else {
        unreachable!()
    };
    bucket.attempt(moment)
}

/// What an attempt at the bucket of a trigger id would be answered. Nothing changes.
fn would_attempt(buckets: &BTreeMap<TriggerId, Bucket>, trigger: TriggerId, moment: u64) -> Attempt
    requires { IsSome (bucket_in buckets.now.entries trigger) }
    ensures { (after : Buckets) × Attempts buckets.now.entries after trigger moment result }
{
    let Some(bucket) = buckets.get(&trigger) else {
        unreachable!()
    };
    bucket.copied().attempt(moment)
}

/// The group that claimed a chunk's trace.
fn claiming_group<L: Token>(claims: &Claims, held: &Held<L>) -> Group
    requires { IsSome (claim_for claims.now.claims (buffer_of held.now)) }
    ensures { option_map (λ claim. claim.group) (claim_for claims.now.claims (buffer_of held.now)) ≡ Some result }
{
    let Some(header) = held.chunk.header() else {
        unreachable!()
    };
    match claims.group_of(header.trace) {
        Some(group) => group,
        None => unreachable!(),
    }
}
