//! Sets of nodes.

ghost use Rattle.std.specs.Prelude.{◌≡◌, ℕ, ◌<◌, ◌||◌, ◌&&◌, ◌↔◌, not, ◌==◌, false, [], ◌∷◌, IsTrue, IfSome, IfNone};
ghost use Rattle.hs_base.specs.NodeSets.{has_node, nodes_of, no_nodes, one_node, either, without, with_node};

use crate::ids::NodeId;
use crate::limits::MOST_NODES;

/// A set of nodes below 128: bit n stands for node n.
///
/// Contracts say of each call which set it makes, and beside it which nodes are in that set.
#[derive(Clone, Copy, Debug, PartialEq, Eq)]
pub struct NodeSet(pub u128);

impl NodeSet {
    /// The empty set.
    pub fn none() -> NodeSet
        ensures value { result ≡ no_nodes }
        ensures nodes { (n : ℕ) → has_node result n ≡ false }
    {
        NodeSet(0)
    }

    /// The set that has this node and no other.
    pub fn only(node: NodeId) -> NodeSet
        requires { node.0 < MOST_NODES }
        ensures value { result ≡ one_node node }
        ensures nodes { (n : ℕ) → has_node result n ≡ (n == node.0) }
    {
        NodeSet(1 << node.0)
    }

    /// Whether a node is in the set.
    pub fn contains(self, node: NodeId) -> bool
        requires { node.0 < MOST_NODES }
        ensures { result ≡ has_node self node.0 }
    {
        (self.0 >> node.0) & 1 == 1
    }

    /// The set with a node added.
    pub fn with(self, node: NodeId) -> NodeSet
        requires { node.0 < MOST_NODES }
        ensures value { result ≡ with_node self node }
        ensures nodes { (n : ℕ) → has_node result n ≡ (has_node self n || n == node.0) }
    {
        NodeSet(self.0 | 1 << node.0)
    }

    /// The set of the nodes that are in either set.
    pub fn union(self, other: NodeSet) -> NodeSet
        ensures value { result ≡ either self other }
        ensures nodes { (n : ℕ) → has_node result n ≡ (has_node self n || has_node other n) }
    {
        NodeSet(self.0 | other.0)
    }

    /// The nodes that are in this set and not in the other.
    pub fn without(self, other: NodeSet) -> NodeSet
        ensures value { result ≡ without self other }
        ensures nodes { (n : ℕ) → has_node result n
            ≡ (has_node self n && not (has_node other n)) }
    {
        NodeSet(self.0 & !other.0)
    }

    /// Whether no node is in the set.
    pub fn is_empty(self) -> bool
        ensures value { IsTrue result ↔ (self ≡ no_nodes) }
        ensures nodes { IsTrue result ↔ ((n : ℕ) → has_node self n ≡ false) }
    {
        self.0 == 0
    }

    /// The least node, or `None` where there is none.
    pub fn first(self) -> Option<NodeId>
        ensures some { IfSome result (λ node. nodes_of self
            ≡ node.0 ∷ nodes_of (without self (one_node node))) }
        ensures below { IfSome result (λ node. node.0 < MOST_NODES) }
        ensures none { IfNone result (nodes_of self ≡ []) }
    {
        for number in 0..MOST_NODES {
            if self.contains(NodeId(number)) {
                return Some(NodeId(number));
            }
        }
        None
    }

    /// Takes the least node out, or answers `None` where there is none. Called until then it gives
    /// the nodes, rising.
    pub fn take_first(&mut self) -> Option<NodeId>
        ensures some { IfSome result (λ node. nodes_of self.old ≡ node.0 ∷ nodes_of self.new) }
        ensures value { IfSome result (λ node. self.new ≡ without self.old (one_node node)) }
        ensures below { IfSome result (λ node. node.0 < MOST_NODES) }
        ensures none { IfNone result ((nodes_of self.old ≡ []) × (self.new ≡ self.old)) }
    {
        let node = self.first()?;
        *self = self.without(NodeSet::only(node));
        Some(node)
    }
}
