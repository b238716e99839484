//! One group, as it is followed.

ghost use Rattle.std.specs.Prelude.{◌≡◌, ◌<◌, Some, None, IfSome, IfNone};
ghost use Rattle.hs_base.specs.NodeSets.{nodes_of};
ghost use Rattle.hs_groups.specs.Following.{begun, taken, is_settled, waits_for, renewed, ask_of, has_unsent, sent_to, is_due, asked_again};

use hs_base::limits::MOST_NODES;
use hs_base::{Ask, NodeId, NodeSet, Told};

/// A group with its first message's ask, the nodes that it reached, those whose ask has no answer yet, and those whose ask is still
/// to be sent; how often it was asked again, and in which pass an ask of it was sent last.
#[derive(Clone, Copy)]
pub struct FollowedGroup {
    pub ask: Ask,
    pub asked: NodeSet,
    pub waiting: NodeSet,
    pub unsent: NodeSet,
    pub tries: u32,
    pub since: u64,
}

impl FollowedGroup {
    /// A group whose first message a node is about to tell. The node counts as asked.
    pub(crate) fn begin(node: NodeId, told: &Told) -> FollowedGroup
        requires { node.0 < MOST_NODES }
        ensures { result ≡ begun node told.now }
    {
        FollowedGroup {
            ask: Ask {
                group: told.group,
                laterals: told.laterals,
            },
            asked: NodeSet::only(node),
            waiting: NodeSet::none(),
            unsent: NodeSet::none(),
            tries: 0,
            since: 0,
        }
    }

    /// Takes a message that answers the asks of these nodes. Where it reaches a node that was not asked before, tries are counted anew.
    pub(crate) fn take(&mut self, answered: NodeSet, told: &Told)
        ensures { self.new ≡ taken self.old answered told.now }
    {
        let fresh = told.crumbs.without(self.asked);
        self.asked = self.asked.union(told.crumbs);
        self.waiting = self.waiting.without(answered).union(fresh);
        self.unsent = self.unsent.without(answered).union(fresh);
        if !fresh.is_empty() {
            self.tries = 0;
        }
    }

    /// Whether the ask of a node has no answer.
    pub(crate) fn waits_for(&self, node: NodeId) -> bool
        ensures { result ≡ waits_for self.now node }
    {
        node.0 < MOST_NODES && self.waiting.contains(node)
    }

    /// Whether each ask was answered, or those that were not were asked again as often as may be.
    pub(crate) fn is_settled(&self, tries: u32) -> bool
        ensures { result ≡ is_settled self.now tries }
    {
        self.waiting.is_empty() || self.tries >= tries
    }

    /// Has the ask of a node sent once more, where it has no answer. Tries are counted anew.
    pub(crate) fn renew(&mut self, node: NodeId)
        ensures { self.new ≡ renewed node self.old }
    {
        if self.waits_for(node) {
            self.unsent = self.unsent.with(node);
            self.tries = 0;
        }
    }

    /// Whether an ask is to be sent.
    pub(crate) fn has_unsent(&self) -> bool
        ensures { result ≡ has_unsent self.now }
    {
        !self.unsent.is_empty()
    }

    /// The ask that is to be sent first, with its node.
    pub(crate) fn next_ask(&self) -> Option<(NodeId, Ask)>
        ensures { result ≡ ask_of self.now }
    {
        match self.unsent.first() {
            Some(node) => Some((node, self.ask)),
            None => None,
        }
    }

    /// Notes that the ask of a node was sent in this pass.
    pub(crate) fn sent(&mut self, node: NodeId, now: u64)
        ensures { self.new ≡ sent_to node now self.old }
    {
        if node.0 < MOST_NODES {
            self.unsent = self.unsent.without(NodeSet::only(node));
            self.since = now;
        }
    }

    /// Whether those that have not answered are to be asked again in this pass: each ask was sent, the last one so many passes ago,
    /// and the group is not settled.
    fn is_due(&self, now: u64, wait: u64, tries: u32) -> bool
        ensures { result ≡ is_due now wait tries self.now }
    {
        !self.has_unsent() && !self.is_settled(tries) && now.saturating_sub(self.since) >= wait
    }

    /// Has those that have not answered asked again, where that is due.
    pub(crate) fn again(&mut self, now: u64, wait: u64, tries: u32)
        ensures { self.new ≡ asked_again now wait tries self.old }
    {
        if self.is_due(now, wait, tries) {
            self.unsent = self.waiting;
            self.tries += 1;
            self.since = now;
        }
    }
}
