//! The inbox of a node.

ghost use Rattle.std.specs.Prelude.{◌≡◌, true, ◌<◌, ◌+◌, length, drop, option_copied, slice_get, IfOk, IfSome, IfNone, OnErr};
ghost use Rattle.hs_base.specs.Rules.{is_declared};
ghost use Rattle.hs_base.specs.declared.told.Ask.{Ask};
ghost use Rattle.hs_inbox.specs.Delivering.{no_asks, IsAskFor, Delivers};

use hs_base::{Ask, List, Memory, NodeId, TriggerId, TriggerRule};
use hs_wire::{Body, Message, read, spells_once};
use std::alloc::Global;
use std::collections::VecDeque;
use std::marker::Model;

/// What became of bytes that were delivered.
#[derive(Clone, Copy, Debug, PartialEq, Eq)]
pub enum AskDelivered {
    /// They spell an ask of this node, which waits from now on.
    Taken,
    /// They spell an ask of this node, but no place is free.
    Full,
    /// They spell no ask of this node for a declared trigger id.
    Refused,
}

/// The asks that wait, the oldest first.
#[derive(Drop)]
pub struct Inbox {
    node: NodeId,
    rules: List<TriggerRule>,
    asks: VecDeque<Ask>,
    places: u32,
}

impl Model for Inbox {
    ghost use Rattle.hs_inbox.specs.Delivering.{PlainInbox};
    ghost use Rattle.hs_inbox.specs.InboxLayout.{inbox_in, IsInbox};

    ghost Value = { PlainInbox };

    ghost view = { inbox_in };

    ghost invariant = { IsInbox };
}

/// Whether an id is declared.
fn is_declared_in(rules: &[TriggerRule], id: TriggerId) -> bool
    ensures { result ≡ is_declared rules.now id }
{
    rules.iter().any(|rule| rule.id.0 == id.0)
}

/// The ask that bytes spell, if they spell one of this node for a declared id.
fn ask_in(node: NodeId, rules: &[TriggerRule], bytes: &[u8]) -> Option<Ask>
    ensures some { IfSome result (IsAskFor node rules.now bytes.now) }
    ensures none { IfNone result ((ask : Ask) → IsAskFor node rules.now bytes.now ask → ⊥) }
{
    spells_once();
    let Some(Message { head, body }) = read(bytes) else {
        return None;
    };
    let Body::Ask(ask) = body else {
        return None;
    };
    if head.node.0 != node.0 || !is_declared_in(rules, ask.group.trigger) {
        return None;
    }
    Some(ask)
}

impl Inbox {
    /// An inbox of a node, in which so many asks may wait, for these trigger ids. Takes all memory that it will need.
    pub fn make(
        alloc: Global,
        node: NodeId,
        rules: &List<TriggerRule>,
        places: u32,
    ) -> Result<Inbox, Memory>
        ensures { IfOk result (λ inbox. inbox ≡ no_asks node rules.now.items places) }
    {
        let mut own = List::new(alloc);
        own.append_slice(rules.as_slice())?;
        let Ok(asks) = VecDeque::with_capacity(alloc, places as usize) else {
            return Err(Memory);
        };
        Ok(Inbox {
            node,
            rules: own,
            asks,
            places,
        })
    }

    /// Delivers a message. It waits behind all others if it asks this node for a declared trigger id, and a place is free.
    pub fn deliver(&mut self, bytes: &[u8]) -> AskDelivered
        ensures { Delivers self.old bytes.now result self.new }
    {
        let Some(ask) = ask_in(self.node, self.rules.as_slice(), bytes) else {
            return AskDelivered::Refused;
        };
        if self.asks.len() >= self.places as usize {
            return AskDelivered::Full;
        }
        self.asks.push_back_reserved(ask);
        AskDelivered::Taken
    }

    /// The ask that waits for longest, if one waits.
    pub fn first(&self) -> Option<&Ask>
        ensures first { option_copied result ≡ slice_get self.now.asks 0 }
        ensures declared { IfSome result (λ ask. is_declared self.now.rules ask.now.group.trigger ≡ true) }
    {
        self.asks.front()
    }

    /// Takes the ask that waits for longest out, if one waits.
    pub fn take_first(&mut self)
        ensures { self.new ≡ record self.old { asks = drop 1 self.old.asks } }
    {
        let _ = self.asks.pop_front();
    }

    /// How many asks wait.
    pub fn len(&self) -> usize
        ensures { result ≡ length self.now.asks }
    {
        self.asks.len()
    }
}
