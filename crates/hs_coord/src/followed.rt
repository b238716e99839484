//! One group, as the coordinator follows it.

ghost use Rattle.std.specs.Prelude.{◌≡◌, ℕ, ◌<◌, ◌&&◌, ◌||◌, ◌==◌, not, false};
ghost use Rattle.hs_base.specs.NodeSets.{has_node};
ghost use Rattle.hs_coord.specs.Following.{is_answer};
ghost use Rattle.hs_coord.specs.Kept.{is_open};

use hs_base::limits::MOST_NODES;
use hs_base::{Ask, NodeId, NodeSet, Told, Why};

/// A group with its first message's ask, its asked set, and the nodes whose ask has no answer yet.
#[derive(Drop)]
pub struct Followed {
    pub ask: Ask,
    pub asked: NodeSet,
    pub waiting: NodeSet,
}

impl Followed {
    /// A group whose first message a node is about to tell. The node counts as asked.
    pub fn begin(node: NodeId, told: &Told) -> Followed
        requires { node.0 < MOST_NODES }
        ensures group { result.ask.group ≡ told.now.group }
        ensures laterals { result.ask.laterals ≡ told.now.laterals }
        ensures asked { (n : ℕ) → has_node result.asked n ≡ (n == node.0) }
        ensures waiting { (n : ℕ) → has_node result.waiting n ≡ false }
    {
        Followed {
            ask: Ask {
                group: told.group,
                laterals: told.laterals,
            },
            asked: NodeSet::only(node),
            waiting: NodeSet::none(),
        }
    }

    /// Takes a message of the group from a node, and answers the nodes that it leads to first.
    pub fn take(&mut self, node: NodeId, told: &Told) -> NodeSet
        requires { node.0 < MOST_NODES }
        ensures fresh { (n : ℕ) → has_node result n
            ≡ (has_node told.now.crumbs n && not (has_node self.old.asked n)) }
        ensures asked { (n : ℕ) → has_node self.new.asked n
            ≡ (has_node self.old.asked n || has_node told.now.crumbs n) }
        ensures waiting { (n : ℕ) → has_node self.new.waiting n
            ≡ ((has_node self.old.waiting n && not (n == node.0 && is_answer told.now.why))
            || has_node result n) }
        ensures ask { self.new.ask ≡ self.old.ask }
    {
        let fresh = told.crumbs.without(self.asked);
        let answered = match told.why {
            Why::Answer => NodeSet::only(node),
            Why::Fired | Why::Late => NodeSet::none(),
        };
        self.asked = self.asked.union(told.crumbs);
        self.waiting = self.waiting.without(answered).union(fresh);
        fresh
    }

    /// Whether an ask waits for its answer.
    pub fn is_open(&self) -> bool
        ensures { result ≡ is_open self.now }
    {
        !self.waiting.is_empty()
    }
}
