//! The coordinator.

ghost use Rattle.std.specs.Prelude.{◌≡◌, ℕ, ◌<◌, ◌≤◌, ◌↔◌, true, [], ◌∷◌, ◌++◌, IsTrue, IsOk, IfOk, OnOk, OnErr, map};
ghost use Rattle.hs_base.specs.NodeSets.{has_node};
ghost use Rattle.hs_coord.specs.Following.{Messages, message, AreAsks, IsSettled};
ghost use Rattle.hs_coord.specs.Kept.{HasTaken};
ghost use Rattle.hs_coord.specs.Leading.{Leads};
ghost use Rattle.hs_coord.specs.Answers.{IsAskedSet};

use crate::asks::{Asks, Led};
use crate::followed::Followed;
use hs_base::limits::MOST_NODES;
use hs_base::{GroupId, List, Memory, NodeId, NodeSet, Told};
use indexmap::IndexMap;
use std::alloc::Global;
use std::marker::Model;

/// Follows the crumbs of each group over the messages that it takes (`docs/RULES.md`, "The
/// coordinator"). Contracts speak of the list of the messages that it has taken.
#[derive(Drop)]
pub struct Coordinator {
    nodes: u16,
    log: List<NodeId>,
    groups: IndexMap<GroupId, Followed>,
    /// The number of groups with an ask that waits for its answer.
    waiting: usize,
}

impl Model for Coordinator {
    ghost use Rattle.std.specs.Prelude.{◌≤◌};
    ghost use Rattle.hs_base.specs.declared.limits.TheConstants.{MOST_NODES};
    ghost use Rattle.hs_coord.specs.Kept.{PlainCoordinator, IsCounted};

    ghost Value = { PlainCoordinator };

    ghost view = { λ a. record { nodes = a.nodes; log = a.log.items; groups = a.groups.entries } };

    ghost invariant = { λ a. (a.nodes ≤ MOST_NODES) × IsCounted a.waiting a.groups.entries };
}

impl Coordinator {
    /// A coordinator of nodes 0 to `nodes` - 1 that has taken no message. Takes no memory.
    pub fn make(alloc: Global, nodes: u16) -> Result<Coordinator, Memory>
        requires { nodes ≤ MOST_NODES }
        ensures ok { IsOk result }
        ensures taken { IfOk result (λ coordinator. HasTaken coordinator []) }
        ensures nodes { IfOk result (λ coordinator. coordinator.nodes ≡ nodes) }
    {
        Ok(Coordinator {
            nodes,
            log: List::new(alloc),
            groups: IndexMap::new(alloc),
            waiting: 0,
        })
    }

    /// Takes a message of a node, and answers what the node's crumbs lead to. After `Memory` the
    /// coordinator is as it was.
    pub fn step(&mut self, node: NodeId, told: Told) -> Result<Asks, Memory>
        requires node { node.0 < self.old.nodes }
        requires crumbs { (n : ℕ) → has_node told.crumbs n ≡ true → n < self.old.nodes }

        // The message joins those that were taken, and leads to the asks that are said there.
        ensures taken { OnOk result ((messages : Messages) → HasTaken self.old messages
            → HasTaken self.new (messages ++ message node told ∷ [])) }
        ensures asks { IfOk result (λ asks. (messages : Messages) → HasTaken self.old messages
            → AreAsks messages (message node told) asks) }
        ensures nodes { OnOk result (self.new.nodes ≡ self.old.nodes) }
        ensures below { IfOk result (λ asks. (n : ℕ) → has_node asks.to n ≡ true
            → n < self.old.nodes) }
        ensures memory { OnErr result (self.new ≡ self.old) }
    {
        self.log.reserve(1)?;
        let known = self.groups.len();
        prove!(known < usize::MAX);
        let led = follow(&mut self.groups, node, &told)?;
        self.log.push(node);
        self.waiting = self.waiting - usize::from(led.was_open) + usize::from(led.is_open);
        Ok(led.asks)
    }

    /// A group's asked set, or `None` where no message was of the group.
    pub fn asked(&self, group: GroupId) -> Option<NodeSet>
        ensures { (messages : Messages) → HasTaken self.now messages
            → IsAskedSet group messages result }
    {
        match self.groups.get(&group) {
            Some(followed) => Some(followed.asked),
            None => None,
        }
    }

    /// Whether every ask was answered.
    pub fn settled(&self) -> bool
        ensures { (messages : Messages) → HasTaken self.now messages
            → (IsTrue result ↔ IsSettled messages) }
    {
        self.waiting == 0
    }

    /// The nodes that told the messages, in their order.
    pub fn log(&self) -> &List<NodeId>
        ensures { (messages : Messages) → HasTaken self.now messages
            → result.now.items ≡ map (λ m. m.node) messages }
    {
        &self.log
    }
}

/// Takes a message of a node into its group's entry, which the group's first message makes. After `Memory` the
/// groups are as they were.
fn follow(
    groups: &mut IndexMap<GroupId, Followed>,
    node: NodeId,
    told: &Told,
) -> Result<Led, Memory>
    requires { node.0 < MOST_NODES }
    ensures led { IfOk result
        (Leads groups.old.entries groups.new.entries (message node told.now)) }
    ensures memory { OnErr result (groups.new.entries ≡ groups.old.entries) }
{
    let Ok(entry) = groups.entry(told.group.id) else {
        return Err(Memory);
    };
    let followed = entry.or_insert(Followed::begin(node, told));
    let was_open = followed.is_open();
    let to = followed.take(node, told);
    let ask = followed.ask;
    let is_open = followed.is_open();
    Ok(Led {
        asks: Asks { ask, to },
        was_open,
        is_open,
    })
}
